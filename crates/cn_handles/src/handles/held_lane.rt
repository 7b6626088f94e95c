//! A lane with its share of its floor.

mod by_entry;
mod closing;
mod in_order;
pub(crate) mod returning;
mod single_steps;

ghost use Rattle.std.specs.Arc.{arc_value};
ghost use Rattle.std.specs.Prelude.{◌≡◌, ◌≤◌, Some, IfErr, IfOk, OnErr, OnOk};
ghost use Rattle.cn_spec.specs.declared.limits.TheConstants.{MOST_CARRIED, MOST_CLIENTS, MOST_ROOM};
ghost use Rattle.cn_floor.specs.Carried.{client_count, start_after};
ghost use Rattle.cn_floor.specs.Lane.{empty_lane, with_room};
ghost use Rattle.cn_floor.specs.Named.{IsNamed};
ghost use Rattle.cn_floor.specs.Steps.{IsAnswer, StoodInState};
ghost use Rattle.cn_floor.specs.Views.{after_entered};
ghost use Rattle.cn_handles.specs.Calls.{IsOpened, IsSplit, LieApart};
ghost use Rattle.cn_handles.specs.Placing.{IsPlaceOf};
ghost use Rattle.cn_handles.specs.Questions.{number_asked};
ghost use Rattle.cn_handles.specs.Refusals.{NotNamed, NotReserved};

use crate::handles::question::Question;
use crate::handles::refusal::Refusal;
use crate::places::{FloorShare, FloorWithPlaces, Place, floor_of, with_places};
use cn_floor::{Floor, Lane, Words};
use cn_spec::limits::MOST_ROOM;
use cn_tables::Counting;
use std::alloc::Global;
use std::marker::Model;
use std::sync::Arc;

/// A lane with its share of its floor. To contracts it is the lane. What lies so in memory, `LaneLayout` says too.
pub struct HeldLane {
    floor: FloorShare,
    lane: Lane,
    /// How many clients the floor may let in.
    most: u64,
    /// Its place, to which it is handed back.
    place: Place,
}

impl Model for HeldLane {
    ghost use Rattle.cn_floor.specs.Lane.{LaneValue};
    ghost use Rattle.cn_handles.specs.InsideHeldLane.{IsHeldLane};

    ghost Value = { LaneValue };

    ghost view = { λ h. h.lane };

    ghost invariant = { IsHeldLane };
}

impl HeldLane {
    /// A lane with its share of its floor.
    pub(crate) fn of(floor: FloorShare, lane: Lane, most: u64, place: Place) -> HeldLane
        requires own { arc_value floor ≡ Some lane.home }
        requires most { most ≡ lane.home.start.quota }
        requires place { IsPlaceOf lane.home place }
        requires spare { lane.room ≤ lane.yard.spare }
        ensures { result ≡ lane }
    {
        HeldLane {
            floor,
            lane,
            most,
            place,
        }
    }

    /// The first lane of a floor.
    ///
    /// # Errors
    /// `Memory`.
    fn first(
        alloc: Global,
        floor: Floor<'static>,
        lane: Lane,
        most: u64,
    ) -> Result<HeldLane, Refusal>
        requires own { lane.home ≡ floor }
        requires most { most ≡ lane.home.start.quota }
        requires spare { lane.room ≤ lane.yard.spare }
        ensures ok { IfOk result (λ held. held ≡ lane) }
        ensures memory { IfErr result (λ r. r ≡ Refusal.Memory) }
    {
        let shared = FloorWithPlaces::new(alloc, floor)?;
        let place = shared.claim_place(alloc)?;
        match Arc::new(alloc, Some(shared)) {
            Ok(floor) => Ok(HeldLane::of(floor, lane, most, place)),
            Err(_) => {
                place.go_with_floor();
                Err(Refusal::Memory)
            }
        }
    }

    /// A floor over a network, whose words lie apart or not, and its first lane.
    ///
    /// # Errors
    /// `Memory`.
    pub(crate) fn open(
        alloc: Global,
        network: Counting,
        quota: u64,
        apart: bool,
    ) -> Result<HeldLane, Refusal>
        requires { quota ≤ MOST_CLIENTS }
        ensures opened { IfOk result (λ lane. IsOpened lane quota
            × (lane.home.start.network ≡ network)) }
        ensures spaced { IfOk result (LieApart apart) }
        ensures memory { IfErr result (λ r. r ≡ Refusal.Memory) }
    {
        let network = Arc::new(alloc, network)?;
        let words = Words::zero_shared(alloc, &network)?;
        let opened = if apart {
            Floor::open_words(alloc, words.apart(), quota)
        } else {
            Floor::open_words(alloc, words, quota)
        };
        match opened {
            Ok((floor, lane)) => HeldLane::first(alloc, floor, lane, quota),
            Err(_) => Err(Refusal::Memory),
        }
    }

    /// Names a client.
    ///
    /// # Errors
    /// The first that stands: `StillWalking`, `NoSuchEntry`, `QuotaSpent`, `Memory`. Then nothing has changed.
    pub fn name(&mut self, client: u64, entry: u64) -> Result<u64, Refusal>
        ensures ok { IfOk result (λ name. IsNamed self.old self.new client entry name) }
        ensures err { OnErr result (self.new ≡ self.old) }
        ensures refused { IfErr result (NotNamed (Some self.old) entry) }
    {
        if self.lane.inside() != 0 {
            return Err(Refusal::StillWalking);
        }
        Ok(floor_of(&self.floor).name(&mut self.lane, client, entry)?)
    }

    /// Splits off a lane with some of the quota.
    ///
    /// # Errors
    /// `Memory`. Then nothing has changed.
    pub(crate) fn split(&mut self, alloc: Global, quota: u64) -> Result<HeldLane, Refusal>
        requires { quota ≤ self.old.view.quota }
        ensures ok { IfOk result (λ other. IsSplit self.old self.new other quota) }
        ensures err { OnErr result (self.new ≡ self.old) }
        ensures memory { IfErr result (λ r. r ≡ Refusal.Memory) }
    {
        let floor = Arc::try_clone(&self.floor)?;
        let place = with_places(&floor).claim_place(alloc)?;
        match floor_of(&floor).split_off(&mut self.lane, quota) {
            Ok(other) => Ok(HeldLane::of(floor, other, self.most, place)),
            Err(_) => {
                with_places(&floor).free(place);
                Err(Refusal::Memory)
            }
        }
    }

    /// How many clients came in, by all lanes, as far as this one can see.
    pub fn entered(&mut self) -> u64
        ensures answer { IsAnswer self.old.home.start self.old.view result }
        ensures lane { self.new
            ≡ record self.old { view = after_entered self.old.home.start result self.old.view } }
        ensures in_state { StoodInState self.old.home.start self.new.view }
    {
        floor_of(&self.floor).entered(&mut self.lane)
    }

    /// The lane.
    pub(crate) fn lane(&self) -> &Lane
        ensures { result.now ≡ self.now }
    {
        &self.lane
    }

    /// What the lane answers.
    pub fn ask(&self, question: Question) -> u64
        ensures { result ≡ number_asked question self.now }
    {
        match question {
            Question::Quota => self.lane.quota(),
            Question::Inside => self.lane.inside(),
            Question::Grants => self.lane.grants().len() as u64,
            Question::Entries => u64::from(floor_of(&self.floor).network().entries()),
            Question::Exits => u64::from(floor_of(&self.floor).network().width()),
        }
    }

    /// Makes room for so many clients.
    ///
    /// # Errors
    /// `Memory` if there is none, or if they are more than [`MOST_ROOM`]. Then nothing has changed.
    pub fn reserve(&mut self, clients: u64) -> Result<(), Refusal>
        ensures ok { OnOk result ((self.new ≡ with_room clients self.old) × (clients ≤ MOST_ROOM)) }
        ensures err { OnErr result (self.new ≡ self.old) }
        ensures refused { IfErr result (NotReserved (Some self.old)) }
    {
        if clients > MOST_ROOM {
            return Err(Refusal::Memory);
        }
        Ok(self.lane.reserve(clients)?)
    }

    /// A floor that goes on from these words, and its first lane.
    ///
    /// # Errors
    /// `Memory`.
    pub(crate) fn open_after(
        alloc: Global,
        words: &Words<'static>,
        quota: u64,
    ) -> Result<HeldLane, Refusal>
        requires { (client_count words.now ≤ MOST_CARRIED) × (quota ≤ MOST_CLIENTS) }
        ensures opened { IfOk result (λ l. (l.home.start ≡ start_after words.now quota)
            × (l ≡ empty_lane l.home quota)) }
        ensures memory { IfErr result (λ r. r ≡ Refusal.Memory) }
    {
        match Floor::open_after(alloc, words, quota) {
            Ok((floor, lane)) => HeldLane::first(alloc, floor, lane, quota),
            Err(_) => Err(Refusal::Memory),
        }
    }
}

impl Drop for HeldLane {
    /// Lets the lane go, and what it has of its floor.
    fn drop(self) {
        let HeldLane {
            floor,
            lane: _lane,
            most: _most,
            place,
        } = self;
        with_places(&floor).free(place);
    }
}
