//! The map from clients to their standings.

use cn_names::{ByNameFault, Names, NamesFault, Standing};
use cn_yard::{Token, Yard};
use std::alloc::{AllocError, Global};
use std::hash::RandomState;
use std::test::Fail;

/// How a client stands, but for its token.
#[derive(Clone, Copy, Debug, PartialEq, Eq)]
enum Stands {
    Nowhere,
    Walking,
    Holds(u64),
}

fn standing_of(names: &Names, client: u64) -> Stands {
    match names.standing(client) {
        None => Stands::Nowhere,
        Some(Standing::Walking(_)) => Stands::Walking,
        Some(Standing::Holds(name)) => Stands::Holds(name),
    }
}

/// What a map answers: how many clients it has and whether that is nobody, and how clients 5, 7 and 9 stand.
type Said = ((usize, bool), [Stands; 3]);

fn said_by(names: &Names) -> Said {
    (
        (names.len(), names.is_empty()),
        [
            standing_of(names, 5),
            standing_of(names, 7),
            standing_of(names, 9),
        ],
    )
}

/// The clients by name, or why they are not listed.
fn listed(names: &Names) -> Result<Vec<u64>, ByNameFault> {
    names.by_name()
}

/// A client whose token is on its way gets a name.
fn settle(names: &mut Names, client: u64, name: u64) {
    if let Some(Standing::Walking(_)) = names.standing(client) {
        names.settle(client, name);
    }
}

/// Two tokens of one yard.
fn two_tokens(alloc: Global) -> Result<[Token; 2], AllocError> {
    let mut yard = Yard::new(alloc, 1)?;
    let first = yard.admit(7, 0)?;
    let second = yard.admit(9, 0)?;
    Ok([first, second])
}

const EMPTY: Said = (
    (0, true),
    [Stands::Nowhere, Stands::Nowhere, Stands::Nowhere],
);

/// What a new map answers, and how many clients it lists.
fn nobody(alloc: Global, state: RandomState) -> Option<(Said, usize)> {
    let names = Names::new(alloc, state).ok()?;
    let clients = listed(&names).ok()?;
    Some((said_by(&names), clients.len()))
}

#[test]
fn nobody_has_a_name(rt: HostRuntime) -> Result<(), Fail> {
    let said = nobody(rt.alloc(), RandomState::new(&rt)?);
    assert_eq!(rt; said, Some((EMPTY, 0)));
    Ok(())
}

/// Two clients, if there are two.
fn pair(clients: &[u64]) -> Option<[u64; 2]> {
    match clients {
        [first, second] => Some([*first, *second]),
        _ => None,
    }
}

/// What a map answered while clients 7 and 9 came in, got names 1 and 0, and were forgotten.
#[derive(Clone, Copy, Debug, PartialEq, Eq)]
struct Outcome {
    admitted: [Result<(), NamesFault>; 3],
    while_walking: (Option<ByNameFault>, Said),
    settled: Said,
    by_name: Option<[u64; 2]>,
    cleared: Said,
}

/// Both clients come in, and get names 1 and 0: what was admitted, and what the map answered while client 7 walked.
fn come(
    names: &mut Names,
    tokens: [Token; 2],
) -> ([Result<(), NamesFault>; 3], (Option<ByNameFault>, Said)) {
    let [first, second] = tokens;
    let admitted = names.admit(7, first);
    let again = names.admit(7, first);
    let while_walking = (listed(names).err(), said_by(names));
    settle(names, 7, 1);
    let later = names.admit(9, second);
    settle(names, 9, 0);
    ([admitted, again, later], while_walking)
}

fn came_and_went(alloc: Global, state: RandomState) -> Option<Outcome> {
    let tokens = two_tokens(alloc).ok()?;
    let mut names = Names::new(alloc, state).ok()?;
    let (admitted, while_walking) = come(&mut names, tokens);
    let settled = said_by(&names);
    let clients = listed(&names).ok()?;
    names.clear();
    Some(Outcome {
        admitted,
        while_walking,
        settled,
        by_name: pair(&clients),
        cleared: said_by(&names),
    })
}

const WALKING: Said = (
    (1, false),
    [Stands::Nowhere, Stands::Walking, Stands::Nowhere],
);

const SETTLED: Said = (
    (2, false),
    [Stands::Nowhere, Stands::Holds(1), Stands::Holds(0)],
);

const CAME_AND_WENT: Outcome = Outcome {
    admitted: [Ok(()), Err(NamesFault::Held), Ok(())],
    while_walking: (Some(ByNameFault::StillWalking), WALKING),
    settled: SETTLED,
    by_name: Some([9, 7]),
    cleared: EMPTY,
};

#[test]
fn exits_and_names(rt: HostRuntime) -> Result<(), Fail> {
    let outcome = came_and_went(rt.alloc(), RandomState::new(&rt)?);
    assert_eq!(rt; outcome, Some(CAME_AND_WENT));
    Ok(())
}
