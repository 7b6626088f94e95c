//! Calls that let clients in, and on by single steps and sweeps.

ghost use Rattle.std.specs.Prelude.{◌≡◌, ◌<◌};
ghost use Rattle.cn_yard.specs.Lists.{IsLowest};
ghost use Rattle.cn_handles.specs.Handles.{lane_in};
ghost use Rattle.cn_handles.specs.Moves.{EntersBy, Steps};
ghost use Rattle.cn_handles.specs.Refusals.{IsRefusal, NoLowestWire, NobodyOn, NotEntered, WithLane};
ghost use Rattle.cn_handles.specs.Sweepings.{Sweeps};
ghost use Rattle.cn_handles.specs.declared.handles.refusal.TheConstants.{DONE};

use crate::answer::{status, write};
use cn_handles::{Handle, Moved, Refusal, Swept};

/// Lets a client in by an entry: it stands last on the wire with the entry's number.
#[unsafe(no_mangle)]
pub extern "C" fn renamer_enter(lane: &mut Handle, client: u64, entry: u64) -> u32
    ensures entered { result ≡ DONE
        → EntersBy (lane_in lane.old.held) (lane_in lane.new.held) client entry }
    ensures kept { 0 < result → lane.new.held ≡ lane.old.held }
    ensures refused { 0 < result → IsRefusal (NotEntered (lane_in lane.old.held) entry) result }
{
    match lane.get_mut() {
        Some(held) => status(held.with_lane(|lane| lane.enter(client, entry))),
        None => status(Err(Refusal::Nothing)),
    }
}

/// Lets the lane's first client on a wire go by the end of the wire.
#[unsafe(no_mangle)]
pub extern "C" fn renamer_step(lane: &mut Handle, wire: u64, moved: &mut Moved) -> u32
    ensures stepped { result ≡ DONE
        → Steps (lane_in lane.old.held) (lane_in lane.new.held) wire moved.new }
    ensures kept { 0 < result → (lane.new.held ≡ lane.old.held) × (moved.new ≡ moved.old) }
    ensures refused { 0 < result → IsRefusal (NobodyOn (lane_in lane.old.held) wire) result }
{
    match lane.get_mut() {
        Some(held) => write(held.with_lane(|lane| lane.step(wire)), moved),
        None => write(Err(Refusal::Nothing), moved),
    }
}

/// Lets all of the lane's clients on a wire go by the end of the wire, by one step.
#[unsafe(no_mangle)]
pub extern "C" fn renamer_sweep(lane: &mut Handle, wire: u64, swept: &mut Swept) -> u32
    ensures swept { result ≡ DONE
        → Sweeps (lane_in lane.old.held) (lane_in lane.new.held) wire swept.new }
    ensures kept { 0 < result → (lane.new.held ≡ lane.old.held) × (swept.new ≡ swept.old) }
    ensures refused { 0 < result → IsRefusal (NobodyOn (lane_in lane.old.held) wire) result }
{
    match lane.get_mut() {
        Some(held) => write(held.with_lane(|lane| lane.sweep(wire)), swept),
        None => write(Err(Refusal::Nothing), swept),
    }
}

/// The least wire on which a client of the lane stands.
#[unsafe(no_mangle)]
pub extern "C" fn renamer_lowest(lane: &mut Handle, wire: &mut u64) -> u32
    ensures answered { result ≡ DONE
        → WithLane (lane_in lane.old.held) (λ l. IsLowest l.yard.lists wire.new) }
    ensures lane { lane.new.held ≡ lane.old.held }
    ensures kept { 0 < result → wire.new ≡ wire.old }
    ensures refused { 0 < result → IsRefusal (NoLowestWire (lane_in lane.old.held)) result }
{
    match lane.get_mut() {
        Some(held) => write(held.with_lane(|lane| lane.lowest()), wire),
        None => write(Err(Refusal::Nothing), wire),
    }
}
