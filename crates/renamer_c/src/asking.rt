//! Calls that ask a lane.

ghost use Rattle.std.specs.Prelude.{◌≡◌, ◌<◌, length};
ghost use Rattle.cn_yard.specs.Lists.{tokens_in};
ghost use Rattle.cn_handles.specs.Calls.{Answers, Reserves};
ghost use Rattle.cn_handles.specs.Handles.{lane_in};
ghost use Rattle.cn_handles.specs.Questions.{number_asked};
ghost use Rattle.cn_handles.specs.Refusals.{IsRefusal, NotReserved, NotThere, WithLane};
ghost use Rattle.cn_handles.specs.declared.handles.refusal.TheConstants.{DONE};

use crate::answer::{status, write};
use cn_handles::{Handle, Question, Refusal};

/// How many clients came in, by all lanes, as far as this one can know.
#[unsafe(no_mangle)]
pub extern "C" fn renamer_entered(lane: &mut Handle, entered: &mut u64) -> u32
    ensures answered { result ≡ DONE
        → Answers (lane_in lane.old.held) (lane_in lane.new.held) entered.new }
    ensures kept { 0 < result → (lane.new.held ≡ lane.old.held) × (entered.new ≡ entered.old) }
    ensures refused { 0 < result → IsRefusal (NotThere (lane_in lane.old.held)) result }
{
    match lane.get_mut() {
        Some(held) => write(held.with_lane(|lane| Ok(lane.entered())), entered),
        None => write(Err(Refusal::Nothing), entered),
    }
}

/// Makes room for so many clients.
#[unsafe(no_mangle)]
pub extern "C" fn renamer_reserve(lane: &mut Handle, clients: u64) -> u32
    ensures reserved { result ≡ DONE
        → Reserves (lane_in lane.old.held) (lane_in lane.new.held) clients }
    ensures kept { 0 < result → lane.new.held ≡ lane.old.held }
    ensures refused { 0 < result → IsRefusal (NotReserved (lane_in lane.old.held)) result }
{
    match lane.get_mut() {
        Some(held) => status(held.with_lane(|lane| lane.reserve(clients))),
        None => status(Err(Refusal::Nothing)),
    }
}

/// Asks a lane for a number.
fn ask(lane: &mut Handle, question: Question, to: &mut u64) -> u32
    ensures answered { result ≡ DONE
        → WithLane (lane_in lane.old.held) (λ l. to.new ≡ number_asked question l) }
    ensures lane { lane.new.held ≡ lane.old.held }
    ensures kept { 0 < result → to.new ≡ to.old }
    ensures refused { 0 < result → IsRefusal (NotThere (lane_in lane.old.held)) result }
{
    match lane.get_mut() {
        Some(held) => write(held.with_lane(|lane| Ok(lane.ask(question))), to),
        None => write(Err(Refusal::Nothing), to),
    }
}

/// How many clients more the lane may let in.
#[unsafe(no_mangle)]
pub extern "C" fn renamer_quota(lane: &mut Handle, quota: &mut u64) -> u32
    ensures answered { result ≡ DONE
        → WithLane (lane_in lane.old.held) (λ l. quota.new ≡ l.view.quota) }
    ensures lane { lane.new.held ≡ lane.old.held }
    ensures kept { 0 < result → quota.new ≡ quota.old }
    ensures refused { 0 < result → IsRefusal (NotThere (lane_in lane.old.held)) result }
{
    ask(lane, Question::Quota, quota)
}

/// How many of the lane's clients are inside.
#[unsafe(no_mangle)]
pub extern "C" fn renamer_inside(lane: &mut Handle, inside: &mut u64) -> u32
    ensures answered { result ≡ DONE
        → WithLane (lane_in lane.old.held) (λ l. inside.new ≡ tokens_in l.yard.lists) }
    ensures lane { lane.new.held ≡ lane.old.held }
    ensures kept { 0 < result → inside.new ≡ inside.old }
    ensures refused { 0 < result → IsRefusal (NotThere (lane_in lane.old.held)) result }
{
    ask(lane, Question::Inside, inside)
}

/// How many entries the network of the lane's floor has.
#[unsafe(no_mangle)]
pub extern "C" fn renamer_entries(lane: &mut Handle, entries: &mut u64) -> u32
    ensures answered { result ≡ DONE
        → WithLane (lane_in lane.old.held) (λ l. entries.new ≡ l.home.start.network.table.entries) }
    ensures lane { lane.new.held ≡ lane.old.held }
    ensures kept { 0 < result → entries.new ≡ entries.old }
    ensures refused { 0 < result → IsRefusal (NotThere (lane_in lane.old.held)) result }
{
    ask(lane, Question::Entries, entries)
}

/// How many exits the network of the lane's floor has.
#[unsafe(no_mangle)]
pub extern "C" fn renamer_exits(lane: &mut Handle, exits: &mut u64) -> u32
    ensures answered { result ≡ DONE
        → WithLane (lane_in lane.old.held) (λ l. exits.new ≡ l.home.start.network.table.width) }
    ensures lane { lane.new.held ≡ lane.old.held }
    ensures kept { 0 < result → exits.new ≡ exits.old }
    ensures refused { 0 < result → IsRefusal (NotThere (lane_in lane.old.held)) result }
{
    ask(lane, Question::Exits, exits)
}

/// How many grants the lane has.
#[unsafe(no_mangle)]
pub extern "C" fn renamer_grant_count(lane: &mut Handle, count: &mut u64) -> u32
    ensures answered { result ≡ DONE
        → WithLane (lane_in lane.old.held) (λ l. count.new ≡ length l.view.grants) }
    ensures lane { lane.new.held ≡ lane.old.held }
    ensures kept { 0 < result → count.new ≡ count.old }
    ensures refused { 0 < result → IsRefusal (NotThere (lane_in lane.old.held)) result }
{
    ask(lane, Question::Grants, count)
}
