//! Names that are taken, of which no list is kept.

ghost use Rattle.std.specs.Prelude.{◌≡◌, ℕ, ◌-◌, ◌<◌, ◌≤◌, ◌↔◌, List, length, IfOk, IsErrOf, OnErr, OnOk};
ghost use Rattle.cn_floor.specs.Steps.{IsAnswer, StoodInState};
ghost use Rattle.cn_lists.specs.Taking.{AreTaken, AreWritten, IsTaken, empty_taker};
ghost use Rattle.cn_floor.specs.Views.{after_entered, after_look, after_split, split_off};

use crate::passing::{Party, walk_party};
use crate::taker::Taker;
use cn_exit::name_of;
use cn_floor::{Floor, LaneFault, NoPause, SplitFault};

/// Tokens of whatever clients.
#[derive(Clone, Copy)]
struct Anyone;

/// A list of names, of which so many are written.
#[derive(Drop)]
struct Names<'n> {
    names: &'n mut [u64],
    at: usize,
}

/// Their names are written in the order in which they leave.
impl<'n> Party<Names<'n>> for Anyone {
    ghost Frame = { ℕ };

    ghost kept = { λ notes. notes.names.ghost_name };

    ghost room = { λ notes. length notes.names.now - notes.at };

    ghost clients_of = { λ notes. notes.names.now };

    ghost Are = { λ _ _ _ _. Unit {0} };

    ghost Noted = { λ before now _ notes. AreWritten before now notes };

    fn clients<'m>(self, notes: &'m Names<'n>) -> &'m [u64] {
        &*notes.names
    }

    fn halves(self, _count: usize) -> (Self, Self)
        ensures { (frame : ℕ) (tokens : List (ℕ × ℕ)) → Unit {0} → Unit {0} × Unit {0} }
    {
        (self, self)
    }

    fn leave(
        self,
        notes: &mut Names<'n>,
        count: usize,
        exit: u32,
        first: u64,
        width: u32,
        base: u64,
    ) {
        let at = notes.at;
        let names = &mut *notes.names;
        for place in 0..count {
            names[at + place] = name_of(width, exit, first + place as u64) - base;
        }
        notes.at = at + count;
    }
}

/// Takes a name: a client without an identity comes in by an entry and walks out, in one atomic step for the entry,
/// for each balancer on its way and for the exit. It waits for nobody, and takes no memory.
///
/// # Errors
/// The first that stands: `NoSuchEntry`, `QuotaSpent`. Then nothing has changed.
pub fn take(floor: &Floor<'_>, taker: &mut Taker, entry: u64) -> Result<u64, LaneFault>
    requires own { taker.old.home ≡ floor.now }
    ensures ok { IfOk result (λ name. IsTaken taker.old taker.new entry name) }
    ensures err { OnErr result (taker.new ≡ taker.old) }
    ensures entry { IsErrOf result LaneFault.NoSuchEntry
        ↔ (floor.now.start.network.table.entries ≤ entry) }
    ensures quota { IsErrOf result LaneFault.QuotaSpent
        ↔ ((entry < floor.now.start.network.table.entries) × (taker.old.view.quota ≡ 0)) }
    ensures memory { ¬ (IsErrOf result LaneFault.Memory) }
{
    let network = floor.network();
    if entry >= u64::from(network.entries()) {
        return Err(LaneFault::NoSuchEntry);
    }
    if taker.quota() == 0 {
        return Err(LaneFault::QuotaSpent);
    }
    let grant = floor.grant_one(network, &mut taker.post, 0, entry as u32, &NoPause);
    Ok(grant.name)
}

/// Splits off a taker with some of the quota; the first keeps all else. Each of both then looks once. It takes no
/// memory.
///
/// # Errors
/// `QuotaTooSmall`. Then nothing has changed.
pub fn split_off_taker(
    floor: &Floor<'_>,
    taker: &mut Taker,
    quota: u64,
) -> Result<Taker, SplitFault>
    requires own { taker.old.home ≡ floor.now }
    ensures first { OnOk result (taker.new
        ≡ record taker.old { view = after_look (after_split quota taker.old.view) }) }
    ensures second { IfOk result (λ other. other
        ≡ record (empty_taker taker.old.home quota) { view = after_look (split_off quota taker.old.view) }) }
    ensures own { IfOk result (λ other. (taker.new.home ≡ floor.now) × (other.home ≡ floor.now)) }
    ensures in_states { IfOk result (λ other. StoodInState floor.now.start taker.new.view
        × StoodInState floor.now.start other.view) }
    ensures err { OnErr result (taker.new ≡ taker.old) }
    ensures small { IsErrOf result SplitFault.QuotaTooSmall ↔ (taker.old.view.quota < quota) }
    ensures memory { ¬ (IsErrOf result SplitFault.Memory) }
{
    let post = floor.split_post(&mut taker.post, quota)?;
    Ok(Taker { post })
}

/// How many clients came in since the floor began, by all takers, as far as one can see ([`cn_floor::Floor::entered`]).
pub fn takes_begun(floor: &Floor<'_>, taker: &mut Taker) -> u64
    requires own { taker.old.home ≡ floor.now }
    ensures answer { IsAnswer floor.now.start taker.old.view result }
    ensures taker { taker.new
        ≡ record taker.old { view = after_entered floor.now.start result taker.old.view } }
    ensures in_state { StoodInState floor.now.start taker.new.view }
{
    floor.entered_by(&mut taker.post)
}

/// Takes a name for each place of a list, and writes them there: clients without identities come in by one entry
/// and walk out, all who stand on a wire by one atomic step. What stood in the list counts for nothing. It waits
/// for nobody, and takes no memory.
///
/// # Errors
/// The first that stands: `NoSuchEntry`, `QuotaSpent` (there are more places than quota). Then nothing has changed.
pub fn take_many(
    floor: &Floor<'_>,
    taker: &mut Taker,
    entry: u64,
    names: &mut [u64],
) -> Result<(), LaneFault>
    requires own { taker.old.home ≡ floor.now }
    ensures ok { OnOk result (AreTaken taker.old taker.new names.old entry names.new) }
    ensures err { OnErr result ((taker.new ≡ taker.old) × (names.new ≡ names.old)) }
    ensures entry { IsErrOf result LaneFault.NoSuchEntry
        ↔ (floor.now.start.network.table.entries ≤ entry) }
    ensures quota { IsErrOf result LaneFault.QuotaSpent
        ↔ ((entry < floor.now.start.network.table.entries)
        × (taker.old.view.quota < length names.old)) }
    ensures memory { ¬ (IsErrOf result LaneFault.Memory) }
{
    if entry >= u64::from(floor.network().entries()) {
        return Err(LaneFault::NoSuchEntry);
    }
    let count = names.len() as u64;
    if taker.quota() < count {
        return Err(LaneFault::QuotaSpent);
    }
    let mut notes = Names { names, at: 0 };
    walk_party(floor, &mut taker.post, &mut notes, Anyone, entry as u32);
    Ok(())
}
