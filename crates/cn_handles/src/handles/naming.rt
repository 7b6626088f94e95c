//! What a handle has names the clients of a list, or takes names for them.

ghost use Rattle.std.specs.Prelude.{◌≡◌, length, IfErr, OnErr, OnOk};
ghost use Rattle.cn_handles.specs.Handles.{lane_held, taker_held};
ghost use Rattle.cn_handles.specs.Many.{NamesList, NamesMany};
ghost use Rattle.cn_handles.specs.Refusals.{NotNamedList, NotNamedMany};
ghost use Rattle.cn_handles.specs.Taking.{NotTaken, TakesMany};

use crate::handles::client::Client;
use crate::handles::grants::{Grant, copy_from};
use crate::handles::held::Held;
use crate::handles::refusal::Refusal;

/// Names clients, and copies their grants.
///
/// # Errors
/// The first that stands: `Nothing`, `Size`, `StillWalking`, `NoSuchEntry`, `QuotaSpent`, `Memory`. Then nothing has
/// changed.
pub fn name_many(held: &mut Held, clients: &[Client], grants: &mut [Grant]) -> Result<(), Refusal>
    ensures ok { OnOk result
        (NamesMany (lane_held held.old) (lane_held held.new) clients.now grants.new) }
    ensures err { OnErr result ((held.new ≡ held.old) × (grants.new ≡ grants.old)) }
    ensures refused { IfErr result
        (NotNamedMany (lane_held held.old) clients.now (length grants.old)) }
{
    let Held::Lane(lane) = held else {
        return Err(Refusal::Nothing);
    };
    if clients.len() != grants.len() {
        return Err(Refusal::Size);
    }
    let first = lane.lane().grants().len();
    lane.name_many(clients)?;
    copy_from(lane.lane().grants(), first, grants);
    Ok(())
}

/// Names clients who come in by one entry, and writes their names in their order.
///
/// # Errors
/// The first that stands: `Nothing`, `Size`, `StillWalking`, `NoSuchEntry`, `QuotaSpent`, `Memory`. Then nothing has
/// changed.
pub fn name_list(
    held: &mut Held,
    clients: &[u64],
    entry: u64,
    names: &mut [u64],
) -> Result<(), Refusal>
    ensures ok { OnOk result
        (NamesList (lane_held held.old) (lane_held held.new) clients.now entry names.new) }
    ensures err { OnErr result ((held.new ≡ held.old) × (names.new ≡ names.old)) }
    ensures refused { IfErr result
        (NotNamedList (lane_held held.old) (length clients.now) entry (length names.old)) }
{
    match held {
        Held::Lane(lane) => lane.name_list(clients, entry, names),
        _ => Err(Refusal::Nothing),
    }
}

/// Takes a name for each place of a list.
///
/// # Errors
/// The first that stands: `Nothing`, `NoSuchEntry`, `QuotaSpent`. Then nothing has changed.
pub fn take_many(held: &mut Held, entry: u64, names: &mut [u64]) -> Result<(), Refusal>
    ensures ok { OnOk result
        (TakesMany (taker_held held.old) (taker_held held.new) names.old entry names.new) }
    ensures err { OnErr result ((held.new ≡ held.old) × (names.new ≡ names.old)) }
    ensures refused { IfErr result (NotTaken (taker_held held.old) entry (length names.old)) }
{
    match held {
        Held::Taker(taker) => taker.take_many(entry, names),
        _ => Err(Refusal::Nothing),
    }
}
