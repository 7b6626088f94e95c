//! The atomic steps of a lane on a floor, one at a time.

ghost use Rattle.std.specs.Prelude.{◌≡◌, ℕ, ◌+◌, ◌-◌, ◌<◌, ◌≤◌, ◌↔◌, IfOk, IsErrOf, IsSome, OnErr};
ghost use Rattle.cn_yard.specs.Lists.{standing};
ghost use Rattle.cn_floor.specs.Lane.{LetsIn, StepsOn};
ghost use Rattle.cn_floor.specs.Steps.{IsAnswer, StoodInState};
ghost use Rattle.cn_floor.specs.Views.{after_entered};

use super::Floor;
use super::lane::{Lane, make_way};
use crate::fault::LaneFault;
use crate::view::Grant;
use cn_balancer::output_of;
use cn_exit::name_of;
use cn_ledger::Moved;
use cn_tables::End;
use cn_yard::Token;
use std::marker::Brand;

impl<'a> Floor<'a> {
    /// Lets a client in by an entry, in one atomic step; a refusal takes none. Its token stands last on the entry's
    /// wire. It lowers the lane's quota by one, and its room and its free records if there are some. Identities are not
    /// compared.
    ///
    /// # Errors
    /// The first that stands: `NoSuchEntry`, `QuotaSpent`, `Memory` (if the lane has no room ([`Lane::room`]), and gets
    /// no memory). Then nothing has changed.
    pub fn enter(&self, lane: &mut Lane, client: u64, entry: u64) -> Result<Token, LaneFault>
        requires own { lane.old.home ≡ self.now }
        ensures ok { IfOk result (λ token. LetsIn lane.old lane.new token client entry) }
        ensures err { OnErr result (lane.new ≡ lane.old) }
        ensures entry { IsErrOf result LaneFault.NoSuchEntry
            ↔ (self.now.start.network.table.entries ≤ entry) }
        ensures quota { IsErrOf result LaneFault.QuotaSpent
            ↔ ((entry < self.now.start.network.table.entries) × (lane.old.view.quota ≡ 0)) }
        ensures room { 0 < lane.old.room → 0 < lane.old.yard.spare → ¬ (IsErrOf result LaneFault.Memory) }
    {
        lane.lane_laws();
        if entry >= u64::from(self.network().entries()) {
            return Err(LaneFault::NoSuchEntry);
        }
        if lane.post.quota() == 0 {
            return Err(LaneFault::QuotaSpent);
        }
        let entry = entry as u32;
        let Ok(()) = make_way(&mut lane.grants, 1, &lane.yard, lane.room) else {
            return Err(LaneFault::Memory);
        };
        let Ok(token) = lane.yard.admit(client, entry) else {
            return Err(LaneFault::Memory);
        };
        self.counters
            .enter::<Brand>(&mut lane.post, token, client, entry);
        lane.room = lane.room.saturating_sub(1);
        Ok(token)
    }

    /// Lets a live token of the lane ([`Lane::is_live`]) go by the end of its wire, in one atomic step: it stands last
    /// on the balancer's next output, or leaves with a name. It takes no memory, and refuses nothing.
    pub fn step(&self, lane: &mut Lane, token: Token) -> Moved
        requires own { lane.old.home ≡ self.now }
        requires live { IsSome (standing lane.old.yard.lists token) }
        ensures { (client wire n : ℕ) × StepsOn lane.old lane.new token client wire n result }
    {
        lane.lane_laws();
        let client = lane.yard.client_of(token);
        let wire = lane.yard.wire_of(token);
        let network = self.network();
        let end = network.end(wire);
        let stride = self.counters.stride();
        let number = self
            .counters
            .step::<Brand>(&mut lane.post, token, client, wire, end, stride);
        match end {
            End::Balancer(balancer) => {
                let wire = network.entries() + 2 * balancer + output_of(number);
                lane.yard.move_to(token, wire);
                Moved::On {
                    balancer,
                    number,
                    wire,
                }
            }
            End::Exit(exit) => {
                let name = name_of(network.width(), exit, number) - self.base;
                lane.yard.release(token);
                lane.grants.push_reserved(Grant {
                    client,
                    exit,
                    visit: number,
                    name,
                });
                Moved::Out {
                    exit,
                    visit: number,
                    name,
                }
            }
        }
    }

    /// How many clients came in since the floor began, by all lanes, as far as one lane can see: it loads the word of
    /// each entry once, in order, and adds. It takes no memory.
    ///
    /// The answer is no less than the lane let in and than its earlier answers, and more than each name that it holds.
    pub fn entered(&self, lane: &mut Lane) -> u64
        requires own { lane.old.home ≡ self.now }
        ensures answer { IsAnswer self.now.start lane.old.view result }
        ensures lane { lane.new
            ≡ record lane.old { view = after_entered self.now.start result lane.old.view } }
        ensures in_state { StoodInState self.now.start lane.new.view }
    {
        self.entered_by(&mut lane.post)
    }
}
