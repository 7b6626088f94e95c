//! Floors that go on from the words of others.

ghost use Rattle.std.specs.Prelude.{◌≡◌, IfOk};

use crate::one_lane::step;
use crate::walks::{close, enter, entered};
use cn_bitonic::bitonic;
use cn_floor::{Floor, Lane, OpenFault, Quiet, Words};
use cn_ledger::Moved;
use cn_spec::limits::{MOST_CARRIED, MOST_CLIENTS};
use cn_wiring::Counting;
use std::alloc::Global;
use std::test::Fail;

/// What a floor of one client answers on bitonic 2: how many came in, both answers, the counts, the passes, and how
/// many came by its words.
#[derive(Clone, Copy, Debug, PartialEq, Eq)]
struct Said {
    entered: u64,
    moves: [Option<Moved>; 2],
    counts: [u64; 2],
    passes: u64,
    clients: u64,
}

/// A floor that goes on from words.
fn open_after<'a>(
    alloc: Global,
    words: &Words<'a>,
    quota: u64,
) -> Result<(Floor<'a>, Lane), Option<OpenFault>>
    ensures { IfOk result (λ r. r.1.home ≡ r.0) }
{
    if words.clients() > MOST_CARRIED {
        return Err(None);
    }
    match Floor::open_after(alloc, words, quota) {
        Ok(opened) => Ok(opened),
        Err(fault) => Err(Some(fault)),
    }
}

/// How many entered, and both answers.
type Walk = (u64, [Option<Moved>; 2]);

/// Client 7 comes in by entry 0, and goes out.
fn walk_seven(floor: &Floor<'_>, lane: &mut Lane) -> Option<Walk>
    requires { lane.old.home ≡ floor.now }
    ensures { lane.new.home ≡ lane.old.home }
{
    let token = enter(floor, lane, 7, 0).ok()?;
    let moves = [step(floor, lane, token), step(floor, lane, token)];
    Some((entered(floor, lane), moves))
}

/// What a closed floor answers after this walk.
fn said_by(quiet: &Quiet<'_>, walk: Walk) -> Option<Said> {
    let (entered, moves) = walk;
    let [first, second] = quiet.counts() else {
        return None;
    };
    let [passes] = quiet.passes() else {
        return None;
    };
    Some(Said {
        entered,
        moves,
        counts: [*first, *second],
        passes: *passes,
        clients: quiet.words().clients(),
    })
}

/// What a floor on which it walked answers, and its words.
fn seven<'a>(floor: Floor<'a>, mut lane: Lane) -> Option<(Said, Words<'a>)>
    requires { lane.home ≡ floor }
{
    let walk = walk_seven(&floor, &mut lane);
    let quiet = close(floor, lane)?;
    let said = said_by(&quiet, walk?)?;
    Some((said, quiet.into_words()))
}

/// The same of a floor that goes on from words.
fn walked<'a>(alloc: Global, words: &Words<'a>) -> Option<(Said, Words<'a>)> {
    match open_after(alloc, words, 1) {
        Ok((floor, lane)) => seven(floor, lane),
        Err(_) => None,
    }
}

/// What the first floor answered, and what one that goes on from it does.
fn and_next(alloc: Global, first: Option<(Said, Words<'_>)>) -> Option<[Said; 2]> {
    match first {
        Some((first, words)) => Some([first, next(alloc, &words)?]),
        None => None,
    }
}

fn next(alloc: Global, words: &Words<'_>) -> Option<Said> {
    match walked(alloc, words) {
        Some((said, _)) => Some(said),
        None => None,
    }
}

/// A floor from words of 0, and another.
fn twice(alloc: Global) -> Option<[Said; 2]> {
    match bitonic(alloc, 2) {
        Ok(network) => twice_on(alloc, &network),
        Err(_) => None,
    }
}

fn twice_on(alloc: Global, network: &Counting) -> Option<[Said; 2]> {
    match Words::zero(alloc, network) {
        Ok(zero) => and_next(alloc, walked(alloc, &zero)),
        Err(_) => None,
    }
}

/// The same of floors whose words lie apart.
fn twice_apart(alloc: Global) -> Option<[Said; 2]> {
    match bitonic(alloc, 2) {
        Ok(network) => twice_apart_on(alloc, &network),
        Err(_) => None,
    }
}

fn twice_apart_on(alloc: Global, network: &Counting) -> Option<[Said; 2]> {
    let words = Words::zero(alloc, network).ok()?.apart();
    match Floor::open_words(alloc, words, 1) {
        Ok((floor, lane)) => and_next(alloc, seven(floor, lane)),
        Err(_) => None,
    }
}

fn on(number: u64, wire: u32) -> Option<Moved> {
    Some(Moved::On {
        balancer: 0,
        number,
        wire,
    })
}

/// The first to leave by an exit has name 0.
fn out(exit: u32) -> Option<Moved> {
    Some(Moved::Out {
        exit,
        visit: 0,
        name: 0,
    })
}

#[test]
fn carried_twice(rt: HostRuntime) -> Result<(), Fail> {
    let first = Said {
        entered: 1,
        moves: [on(0, 2), out(0)],
        counts: [1, 0],
        passes: 1,
        clients: 1,
    };
    let second = Said {
        entered: 1,
        moves: [on(1, 3), out(1)],
        counts: [0, 1],
        passes: 1,
        clients: 2,
    };
    assert_eq!(rt; twice(rt.alloc()), Some([first, second]));
    assert_eq!(rt; twice_apart(rt.alloc()), Some([first, second]));
    Ok(())
}

/// A floor of more clients than an epoch takes.
fn wide_quota(alloc: Global) -> Option<Option<OpenFault>> {
    match bitonic(alloc, 2) {
        Ok(network) => wide_quota_on(alloc, &network),
        Err(_) => None,
    }
}

fn wide_quota_on(alloc: Global, network: &Counting) -> Option<Option<OpenFault>> {
    match Words::zero(alloc, network) {
        Ok(zero) => open_after(alloc, &zero, MOST_CLIENTS + 1).err(),
        Err(_) => None,
    }
}

#[test]
fn quota_is_refused(rt: HostRuntime) {
    assert_eq!(rt; wide_quota(rt.alloc()), Some(Some(OpenFault::Quota)));
}
