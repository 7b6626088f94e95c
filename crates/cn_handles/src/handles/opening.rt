//! Floors that open, and lanes and takers that are split off, for handles.

ghost use Rattle.std.specs.Prelude.{◌≡◌, ◌≤◌, IfErr, IfOk, OnErr, OnOk};
ghost use Rattle.cn_spec.specs.declared.limits.TheConstants.{MOST_CLIENTS};
ghost use Rattle.cn_tables.specs.Widths.{IsWidth};
ghost use Rattle.cn_handles.specs.Calls.{LieApart, Opens, OpensAfter, Splits, number_of};
ghost use Rattle.cn_handles.specs.Handles.{lane_held, record_held, taker_held};
ghost use Rattle.cn_handles.specs.Refusals.{NotOpened, NotOpenedAfter, NotSplit, WithLane};
ghost use Rattle.cn_handles.specs.Taking.{LieBy, NotSplitOff, OpensTakes, SplitsTaker, WithTaker};

use crate::handles::held::Held;
use crate::handles::held_lane::HeldLane;
use crate::handles::held_taker::HeldTaker;
use crate::handles::refusal::Refusal;
use cn_nets::Net;
use cn_spec::limits::{MOST_CARRIED, MOST_CLIENTS};
use cn_tables::Kind;
use std::alloc::Global;

/// What network is asked for.
///
/// # Errors
/// The first that stands: `Kind`, `Width`, `Quota`.
fn asked(kind: u32, width: u32, quota: u64) -> Result<Net, Refusal>
    ensures ok { IfOk result (λ net. (number_of net.kind ≡ kind) × (net.width ≡ width)) }
    ensures known { OnOk result ((kind ≤ 2) × IsWidth width × (quota ≤ MOST_CLIENTS)) }
    ensures err { IfErr result (NotOpened kind width quota) }
{
    let kind = match kind {
        0 => Kind::Bitonic,
        1 => Kind::Periodic,
        2 => Kind::Tree,
        _ => return Err(Refusal::Kind),
    };
    let Ok(net) = Net::new(kind, width) else {
        return Err(Refusal::Width);
    };
    if quota > MOST_CLIENTS {
        return Err(Refusal::Quota);
    }
    Ok(net)
}

/// A floor over the network of this kind and width, whose words lie apart or not, and its first lane, in a box.
///
/// # Errors
/// The first that stands: `Kind`, `Width`, `Quota`, `Memory`.
pub fn open(
    alloc: Global,
    kind: u32,
    width: u32,
    quota: u64,
    apart: bool,
) -> Result<Box<Held>, Refusal>
    ensures ok { IfOk result (λ b. Opens (lane_held b.value) kind width quota) }
    ensures spaced { IfOk result (λ b. WithLane (lane_held b.value) (LieApart apart)) }
    ensures err { IfErr result (NotOpened kind width quota) }
{
    let net = asked(kind, width, quota)?;
    let Ok(network) = net.build(alloc) else {
        return Err(Refusal::Memory);
    };
    let lane = HeldLane::open(alloc, network, quota, apart)?;
    Ok(Box::new(alloc, Held::Lane(lane))?)
}

/// A floor that goes on from a closed one that is there, and its first lane, in a box.
///
/// # Errors
/// The first that stands: `Nothing`, `Carried`, `Quota`, `Memory`.
pub fn open_after(alloc: Global, held: &Held, quota: u64) -> Result<Box<Held>, Refusal>
    ensures ok { IfOk result (λ b. OpensAfter (record_held held.now) (lane_held b.value) quota) }
    ensures refused { IfErr result (NotOpenedAfter (record_held held.now) quota) }
{
    let closed = held.record()?;
    if closed.words().clients() > MOST_CARRIED {
        return Err(Refusal::Carried);
    }
    if quota > MOST_CLIENTS {
        return Err(Refusal::Quota);
    }
    let lane = HeldLane::open_after(alloc, closed.words(), quota)?;
    Ok(Box::new(alloc, Held::Lane(lane))?)
}

/// Splits off a lane with some of the quota, in a box.
///
/// # Errors
/// The first that stands: `Nothing`, `QuotaTooSmall`, `Memory`. Then nothing has changed.
pub fn split(alloc: Global, held: &mut Held, quota: u64) -> Result<Box<Held>, Refusal>
    ensures ok { IfOk result (λ b.
        Splits (lane_held held.old) (lane_held held.new) (lane_held b.value) quota) }
    ensures err { OnErr result (held.new ≡ held.old) }
    ensures refused { IfErr result (NotSplit (lane_held held.old) quota) }
{
    let Held::Lane(lane) = held else {
        return Err(Refusal::Nothing);
    };
    if quota > lane.lane().quota() {
        return Err(Refusal::QuotaTooSmall);
    }
    let mut other = Box::new(alloc, Held::Nothing)?;
    *other = Held::Lane(lane.split(alloc, quota)?);
    Ok(other)
}

/// A floor over the network of this kind and width, whose words lie side by side (0) or apart, and its first taker, in
/// a box.
///
/// # Errors
/// The first that stands: `Kind`, `Width`, `Memory`.
pub fn open_takes(alloc: Global, kind: u32, width: u32, apart: u32) -> Result<Box<Held>, Refusal>
    ensures ok { IfOk result (λ b. OpensTakes (taker_held b.value) kind width) }
    ensures spaced { IfOk result (λ b. WithTaker (taker_held b.value) (LieBy apart)) }
    ensures err { IfErr result (NotOpened kind width 0) }
{
    let net = asked(kind, width, 0)?;
    let Ok(network) = net.build(alloc) else {
        return Err(Refusal::Memory);
    };
    let taker = HeldTaker::open(alloc, network, apart)?;
    Ok(Box::new(alloc, Held::Taker(taker))?)
}

/// Splits off a taker, in a box.
///
/// # Errors
/// The first that stands: `Nothing`, `QuotaTooSmall`, `Memory`. Then nothing has changed.
pub fn split_taker(alloc: Global, held: &mut Held) -> Result<Box<Held>, Refusal>
    ensures ok { IfOk result (λ b.
        SplitsTaker (taker_held held.old) (taker_held held.new) (taker_held b.value)) }
    ensures err { OnErr result (held.new ≡ held.old) }
    ensures refused { IfErr result (NotSplitOff (taker_held held.old)) }
{
    let Held::Taker(taker) = held else {
        return Err(Refusal::Nothing);
    };
    let quota = taker.quota_for_another();
    if quota == 0 {
        return Err(Refusal::QuotaTooSmall);
    }
    let mut other = Box::new(alloc, Held::Nothing)?;
    *other = Held::Taker(taker.split(quota)?);
    Ok(other)
}
