//! Calls that open, split and free.

ghost use Rattle.std.specs.Prelude.{◌≡◌, ◌<◌, true, false, None};
ghost use Rattle.cn_handles.specs.Calls.{LieApart, Opens, OpensAfter, Splits};
ghost use Rattle.cn_handles.specs.Handles.{lane_in, record_in};
ghost use Rattle.cn_handles.specs.Refusals.{IsRefusal, NotOpened, NotOpenedAfter, NotSplit, WithLane};
ghost use Rattle.cn_handles.specs.declared.handles.refusal.TheConstants.{DONE};

use crate::answer::put;
use cn_handles::{DONE, Handle, Refusal, open, open_after, split};
use std::alloc::Global;

/// The version: 1,000,000 times the major number, 1,000 times the minor one, and the patch, added.
#[unsafe(no_mangle)]
pub extern "C" fn renamer_version() -> u32
    ensures { result ≡ 1000000 }
{
    1_000_000
}

/// Opens a floor over the network of this kind and width, with a lane that has the whole quota.
#[unsafe(no_mangle)]
pub extern "C" fn renamer_open(
    alloc: Global,
    lane: &mut Handle,
    kind: u32,
    width: u32,
    quota: u64,
) -> u32
    ensures opened { result ≡ DONE → Opens (lane_in lane.new.held) kind width quota }
    ensures spaced { result ≡ DONE → WithLane (lane_in lane.new.held) (LieApart false) }
    ensures kept { 0 < result → lane.new.held ≡ lane.old.held }
    ensures refused { 0 < result → IsRefusal (NotOpened kind width quota) result }
{
    put(open(alloc, kind, width, quota, false), lane)
}

/// Opens such a floor, whose words lie apart in memory.
#[unsafe(no_mangle)]
pub extern "C" fn renamer_open_apart(
    alloc: Global,
    lane: &mut Handle,
    kind: u32,
    width: u32,
    quota: u64,
) -> u32
    ensures opened { result ≡ DONE → Opens (lane_in lane.new.held) kind width quota }
    ensures spaced { result ≡ DONE → WithLane (lane_in lane.new.held) (LieApart true) }
    ensures kept { 0 < result → lane.new.held ≡ lane.old.held }
    ensures refused { 0 < result → IsRefusal (NotOpened kind width quota) result }
{
    match open(alloc, kind, width, quota, true) {
        Ok(held) => {
            lane.put(held);
            DONE
        }
        Err(refusal) => refusal.status(),
    }
}

/// Opens a floor that goes on from the words of a closed one.
#[unsafe(no_mangle)]
pub extern "C" fn renamer_open_after(
    alloc: Global,
    lane: &mut Handle,
    quiet: &mut Handle,
    quota: u64,
) -> u32
    ensures opened { result ≡ DONE
        → OpensAfter (record_in quiet.old.held) (lane_in lane.new.held) quota }
    ensures quiet { quiet.new.held ≡ quiet.old.held }
    ensures kept { 0 < result → lane.new.held ≡ lane.old.held }
    ensures refused { 0 < result → IsRefusal (NotOpenedAfter (record_in quiet.old.held) quota) result }
{
    match quiet.get_mut() {
        Some(held) => put(open_after(alloc, held, quota), lane),
        None => put(Err(Refusal::Nothing), lane),
    }
}

/// Splits off another lane with some of the quota.
#[unsafe(no_mangle)]
pub extern "C" fn renamer_split(
    alloc: Global,
    lane: &mut Handle,
    quota: u64,
    other: &mut Handle,
) -> u32
    ensures split { result ≡ DONE
        → Splits (lane_in lane.old.held) (lane_in lane.new.held) (lane_in other.new.held) quota }
    ensures kept { 0 < result → (lane.new.held ≡ lane.old.held) × (other.new.held ≡ other.old.held) }
    ensures refused { 0 < result → IsRefusal (NotSplit (lane_in lane.old.held) quota) result }
{
    match lane.get_mut() {
        Some(held) => put(split(alloc, held, quota), other),
        None => put(Err(Refusal::Nothing), other),
    }
}

/// Frees what the handle has.
#[unsafe(no_mangle)]
pub extern "C" fn renamer_free(alloc: Global, lane: &mut Handle)
    ensures { lane.new.held ≡ None }
{
    lane.clear(alloc);
}

/// Frees what the handle has.
#[unsafe(no_mangle)]
pub extern "C" fn renamer_free_quiet(alloc: Global, quiet: &mut Handle)
    ensures { quiet.new.held ≡ None }
{
    quiet.clear(alloc);
}
