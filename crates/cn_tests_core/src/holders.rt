//! The holders of a core in which nobody is, and a core that is cleared.

ghost use Rattle.std.specs.Prelude.{◌≡◌};

use crate::two_wide::{Said, TWO_CLIENTS, TWO_CLIENTS_REPLIES, said_by};
use cn_bitonic::bitonic;
use cn_core::Core;
use cn_ledger::Reply;
use cn_wiring::Counting;
use std::alloc::{AllocError, Global};
use std::hash::RandomState;
use std::test::Fail;

/// Whether events were run, and had these replies.
fn are(replies: Result<Vec<Reply>, AllocError>, wanted: &[Reply]) -> bool {
    match replies {
        Ok(replies) => replies.as_slice() == wanted,
        Err(_) => false,
    }
}

/// Forgets the clients, if nobody is inside.
pub(crate) fn clear(core: &mut Core<'_>) -> Option<()>
    ensures { core.new.network ≡ core.old.network }
{
    if core.inside() > 0 {
        return None;
    }
    core.clear();
    Some(())
}

/// The holders, if nobody is inside.
fn holders_of(core: &Core<'_>) -> Option<Vec<u64>> {
    if core.inside() > 0 {
        return None;
    }
    match core.holders() {
        Ok(holders) => Some(holders),
        Err(_) => None,
    }
}

/// Whether these are the holders, if nobody is inside.
pub(crate) fn has_holders(core: &Core<'_>, wanted: &[u64]) -> bool {
    match holders_of(core) {
        Some(holders) => holders.as_slice() == wanted,
        None => false,
    }
}

/// Whether the two clients hold names, what a core answers once it is cleared, and whether it replies to the same
/// events as before.
type Anew = (bool, Said, bool);

fn anew_by(core: &mut Core<'_>, network: &Counting) -> Option<Anew>
    requires { core.old.network ≡ network.now }
{
    if core.run(&TWO_CLIENTS).is_err() {
        return None;
    }
    let are_holders = has_holders(core, &[9, 7]);
    clear(core)?;
    let said = said_by(core, network);
    Some((
        are_holders,
        said,
        are(core.run(&TWO_CLIENTS), &TWO_CLIENTS_REPLIES),
    ))
}

fn anew_on(alloc: Global, network: &Counting, state: RandomState) -> Option<Anew> {
    match Core::new(alloc, network, state) {
        Ok(mut core) => anew_by(&mut core, network),
        Err(_) => None,
    }
}

fn anew(alloc: Global, state: RandomState) -> Option<Anew> {
    match bitonic(alloc, 2) {
        Ok(network) => anew_on(alloc, &network, state),
        Err(_) => None,
    }
}

const CLEARED: Said = ((0, 0, true), Some((0, 0, 0)), (None, None));

#[test]
fn a_core_has_its_holders_and_once_cleared_answers_anew(rt: HostRuntime) -> Result<(), Fail> {
    let found = anew(rt.alloc(), RandomState::new(&rt)?);
    assert_eq!(rt; found, Some((true, CLEARED, true)));
    Ok(())
}
