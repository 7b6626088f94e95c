//! The grants of a lane, copied.

ghost use Rattle.std.specs.Prelude.{◌≡◌, ◌+◌, ◌≤◌, length, IfErr, OnErr, OnOk};
ghost use Rattle.cn_handles.specs.Handles.{lane_held};
ghost use Rattle.cn_handles.specs.Questions.{AreGrantsFrom, copy_of};
ghost use Rattle.cn_handles.specs.Refusals.{NotGranted, WithLane};

use crate::handles::held::Held;
use crate::handles::refusal::Refusal;

/// A client's way out, and its name, as C sees it.
#[repr(C)]
#[derive(Clone, Copy)]
pub struct Grant {
    /// Who left.
    pub client: u64,
    /// The exit.
    pub exit: u64,
    /// How many had left by the exit before.
    pub visit: u64,
    /// The name.
    pub name: u64,
}

/// A grant as C sees it.
fn copy_of(grant: &cn_floor::Grant) -> Grant
    ensures { result ≡ copy_of grant.now }
{
    Grant {
        client: grant.client,
        exit: u64::from(grant.exit),
        visit: grant.visit,
        name: grant.name,
    }
}

/// Copies grants, from this one on.
pub(crate) fn copy_from(grants: &[cn_floor::Grant], first: usize, copies: &mut [Grant])
    requires { first + length copies.old ≤ length grants.now }
    ensures count { length copies.new ≡ length copies.old }
    ensures copied { AreGrantsFrom grants.now first copies.new }
{
    for i in 0..copies.len() {
        copies[i] = copy_of(&grants[first + i]);
    }
}

/// Copies grants of the lane, from this one on.
///
/// # Errors
/// The first that stands: `Nothing`, `Size`. Then nothing has changed.
pub fn copy_grants(held: &Held, first: u64, copies: &mut [Grant]) -> Result<(), Refusal>
    ensures ok { OnOk result
        (WithLane (lane_held held.now) (λ l. AreGrantsFrom l.view.grants first copies.new)) }
    ensures err { OnErr result (copies.new ≡ copies.old) }
    ensures refused { IfErr result (NotGranted (lane_held held.now) first (length copies.old)) }
{
    let grants = held.lane()?.lane().grants();
    if first > grants.len() as u64 || copies.len() > grants.len() - first as usize {
        return Err(Refusal::Size);
    }
    copy_from(grants, first as usize, copies);
    Ok(())
}
