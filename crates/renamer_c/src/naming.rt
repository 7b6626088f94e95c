//! Calls that name clients.

ghost use Rattle.std.specs.Prelude.{◌≡◌, ◌<◌, length};
ghost use Rattle.cn_handles.specs.Calls.{Names};
ghost use Rattle.cn_handles.specs.Handles.{lane_in};
ghost use Rattle.cn_handles.specs.Many.{NamesList, NamesMany};
ghost use Rattle.cn_handles.specs.Refusals.{IsRefusal, NotNamed, NotNamedList, NotNamedMany};
ghost use Rattle.cn_handles.specs.declared.handles.refusal.TheConstants.{DONE};

use crate::answer::{status, write};
use cn_handles::{Client, Grant, Handle, Refusal, name_list, name_many};

/// Names a client: lets it in by an entry and walks it out.
#[unsafe(no_mangle)]
pub extern "C" fn renamer_name(lane: &mut Handle, client: u64, entry: u64, name: &mut u64) -> u32
    ensures named { result ≡ DONE
        → Names (lane_in lane.old.held) (lane_in lane.new.held) client entry name.new }
    ensures kept { 0 < result → (lane.new.held ≡ lane.old.held) × (name.new ≡ name.old) }
    ensures refused { 0 < result → IsRefusal (NotNamed (lane_in lane.old.held) entry) result }
{
    match lane.get_mut() {
        Some(held) => write(held.with_lane(|lane| lane.name(client, entry)), name),
        None => write(Err(Refusal::Nothing), name),
    }
}

/// Names clients, those who follow one another by one entry together. Copies their grants, in the order in which they
/// left.
#[unsafe(no_mangle)]
pub extern "C" fn renamer_name_many(
    lane: &mut Handle,
    clients: &[Client],
    grants: &mut [Grant],
) -> u32
    ensures named { result ≡ DONE
        → NamesMany (lane_in lane.old.held) (lane_in lane.new.held) clients.now grants.new }
    ensures kept { 0 < result → (lane.new.held ≡ lane.old.held) × (grants.new ≡ grants.old) }
    ensures refused { 0 < result
        → IsRefusal (NotNamedMany (lane_in lane.old.held) clients.now (length grants.old)) result }
{
    match lane.get_mut() {
        Some(held) => status(name_many(held, clients, grants)),
        None => status(Err(Refusal::Nothing)),
    }
}

/// Names clients who come in by one entry, together, and writes the name of each at its place in the list.
#[unsafe(no_mangle)]
pub extern "C" fn renamer_name_list(
    lane: &mut Handle,
    clients: &[u64],
    entry: u64,
    names: &mut [u64],
) -> u32
    ensures named { result ≡ DONE
        → NamesList (lane_in lane.old.held) (lane_in lane.new.held) clients.now entry names.new }
    ensures kept { 0 < result → (lane.new.held ≡ lane.old.held) × (names.new ≡ names.old) }
    ensures refused { 0 < result
        → IsRefusal (NotNamedList (lane_in lane.old.held) (length clients.now) entry (length names.old)) result }
{
    match lane.get_mut() {
        Some(held) => status(name_list(held, clients, entry, names)),
        None => status(Err(Refusal::Nothing)),
    }
}
