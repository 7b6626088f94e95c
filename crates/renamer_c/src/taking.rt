//! Calls of takers, which take names of a floor that keeps no list of them.

ghost use Rattle.std.specs.Prelude.{◌≡◌, ◌<◌, length, None};
ghost use Rattle.cn_handles.specs.Handles.{taker_in};
ghost use Rattle.cn_handles.specs.Refusals.{IsRefusal, NotOpened, NotThere};
ghost use Rattle.cn_handles.specs.Taking.{LieBy, NotSplitOff, NotTaken, OpensTakes, SplitsTaker, Takes, TakesMany, Tells, WithTaker};
ghost use Rattle.cn_handles.specs.declared.handles.refusal.TheConstants.{DONE};

use crate::answer::{put, status, write};
use cn_handles::{Handle, Refusal, open_takes, split_taker, take_many};
use std::alloc::Global;

/// Opens a floor over the network of this kind and width, with a taker that has all its names. It is refused as a floor
/// with the quota 0 is, which is never too much.
#[unsafe(no_mangle)]
pub extern "C" fn renamer_open_takes(
    alloc: Global,
    taker: &mut Handle,
    kind: u32,
    width: u32,
    apart: u32,
) -> u32
    ensures opened { result ≡ DONE → OpensTakes (taker_in taker.new.held) kind width }
    ensures spaced { result ≡ DONE → WithTaker (taker_in taker.new.held) (LieBy apart) }
    ensures kept { 0 < result → taker.new.held ≡ taker.old.held }
    ensures refused { 0 < result → IsRefusal (NotOpened kind width 0) result }
{
    put(open_takes(alloc, kind, width, apart), taker)
}

/// Splits off another taker.
#[unsafe(no_mangle)]
pub extern "C" fn renamer_split_taker(alloc: Global, taker: &mut Handle, other: &mut Handle) -> u32
    ensures split { result ≡ DONE
        → SplitsTaker (taker_in taker.old.held) (taker_in taker.new.held) (taker_in other.new.held) }
    ensures kept { 0 < result → (taker.new.held ≡ taker.old.held) × (other.new.held ≡ other.old.held) }
    ensures refused { 0 < result → IsRefusal (NotSplitOff (taker_in taker.old.held)) result }
{
    match taker.get_mut() {
        Some(held) => put(split_taker(alloc, held), other),
        None => put(Err(Refusal::Nothing), other),
    }
}

/// Takes a name: a client without an identity comes in by an entry and walks out.
#[unsafe(no_mangle)]
pub extern "C" fn renamer_take(taker: &mut Handle, entry: u64, name: &mut u64) -> u32
    ensures taken { result ≡ DONE
        → Takes (taker_in taker.old.held) (taker_in taker.new.held) entry name.new }
    ensures kept { 0 < result → (taker.new.held ≡ taker.old.held) × (name.new ≡ name.old) }
    ensures refused { 0 < result → IsRefusal (NotTaken (taker_in taker.old.held) entry 1) result }
{
    let answer = match taker.get_mut() {
        Some(held) => held.with_taker(|taker| taker.take(entry)),
        None => Err(Refusal::Nothing),
    };
    write(answer, name)
}

/// Takes a name for each place of a list: all clients on a wire go on by one atomic step.
#[unsafe(no_mangle)]
pub extern "C" fn renamer_take_many(taker: &mut Handle, entry: u64, names: &mut [u64]) -> u32
    ensures taken { result ≡ DONE
        → TakesMany (taker_in taker.old.held) (taker_in taker.new.held) names.old entry names.new }
    ensures kept { 0 < result → (taker.new.held ≡ taker.old.held) × (names.new ≡ names.old) }
    ensures refused { 0 < result
        → IsRefusal (NotTaken (taker_in taker.old.held) entry (length names.old)) result }
{
    match taker.get_mut() {
        Some(held) => status(take_many(held, entry, names)),
        None => status(Err(Refusal::Nothing)),
    }
}

/// How many clients came in, by all takers, as far as this one can know.
#[unsafe(no_mangle)]
pub extern "C" fn renamer_takes_entered(taker: &mut Handle, entered: &mut u64) -> u32
    ensures told { result ≡ DONE
        → Tells (taker_in taker.old.held) (taker_in taker.new.held) entered.new }
    ensures kept { 0 < result → (taker.new.held ≡ taker.old.held) × (entered.new ≡ entered.old) }
    ensures refused { 0 < result → IsRefusal (NotThere (taker_in taker.old.held)) result }
{
    match taker.get_mut() {
        Some(held) => write(held.with_taker(|taker| Ok(taker.entered())), entered),
        None => write(Err(Refusal::Nothing), entered),
    }
}

/// Frees what the handle has.
#[unsafe(no_mangle)]
pub extern "C" fn renamer_free_taker(alloc: Global, taker: &mut Handle)
    ensures { taker.new.held ≡ None }
{
    taker.clear(alloc);
}
