//! Steps and sweeps as C sees them.

ghost use Rattle.std.specs.Prelude.{◌≡◌};
ghost use Rattle.cn_handles.specs.Moves.{moved_of};
ghost use Rattle.cn_handles.specs.Sweepings.{swept_of};

use cn_floor::Sweep;

/// Where a client went by one step, as C sees it.
#[repr(C)]
#[derive(Clone, Copy)]
pub struct Moved {
    /// Who.
    pub client: u64,
    /// 1 if it left by an exit, 0 if it passed a balancer.
    pub has_left: u64,
    /// The exit or the balancer.
    pub place: u64,
    /// How many had left or passed there before.
    pub number: u64,
    /// Its name if it left, and else the wire on which it stands.
    pub next: u64,
}

/// Where the clients on a wire went by one step, as C sees it.
#[repr(C)]
#[derive(Clone, Copy)]
pub struct Swept {
    /// 1 if they left by an exit, 0 if they passed a balancer.
    pub have_left: u64,
    /// The exit or the balancer.
    pub place: u64,
    /// How many had left or passed there before.
    pub first: u64,
    /// How many they are.
    pub clients: u64,
}

/// A step of a client as C sees it.
pub(crate) fn moved_of(client: u64, moved: cn_ledger::Moved) -> Moved
    ensures { result ≡ moved_of client moved }
{
    match moved {
        cn_ledger::Moved::On {
            balancer,
            number,
            wire,
        } => Moved {
            client,
            has_left: 0,
            place: u64::from(balancer),
            number,
            next: u64::from(wire),
        },
        cn_ledger::Moved::Out { exit, visit, name } => Moved {
            client,
            has_left: 1,
            place: u64::from(exit),
            number: visit,
            next: name,
        },
    }
}

/// A sweep as C sees it.
pub(crate) fn swept_of(swept: Sweep) -> Swept
    ensures { result ≡ swept_of swept }
{
    match swept {
        Sweep::On {
            balancer,
            first,
            tokens,
        } => Swept {
            have_left: 0,
            place: u64::from(balancer),
            first,
            clients: tokens,
        },
        Sweep::Out {
            exit,
            first,
            tokens,
        } => Swept {
            have_left: 1,
            place: u64::from(exit),
            first,
            clients: tokens,
        },
    }
}
