//! A schedule of three epochs, replayed end to end by the library.

use cn_nets::Net;
use cn_renamer::replay;
use cn_wiring::Kind;
use std::alloc::Global;
use std::hash::RandomState;
use std::test::Fail;

/// What a replay writes, if it is done.
fn replayed(
    alloc: Global,
    state: RandomState,
    kind: Kind,
    width: u32,
    input: &[u8],
) -> Option<Vec<u8>> {
    let net = Net::new(kind, width).ok()?;
    let mut written = Vec::new(alloc);
    replay(alloc, input, &mut written, &net, state).ok()?;
    Some(written)
}

/// How many clients come in each of three epochs.
const COMERS: u32 = 12;

/// The client that passes as this one of its epoch: each of them once, in another order in each epoch.
fn comer(epoch: u32, place: u32) -> u64 {
    let (epoch, place) = (u64::from(epoch), u64::from(place));
    100 * epoch + (5 * place + epoch) % u64::from(COMERS)
}

/// All clients of an epoch enter, on two wires.
fn push_comers(text: &mut String, epoch: u32) -> Option<()> {
    for place in 0..COMERS {
        writeln!(text, "enter,{},{}", comer(epoch, place), place % 2).ok()?;
    }
    Some(())
}

/// All of them step once.
fn push_steps(text: &mut String, epoch: u32) -> Option<()> {
    for place in 0..COMERS {
        writeln!(text, "step,{},", comer(epoch, place)).ok()?;
    }
    Some(())
}

fn push_epochs(text: &mut String) -> Option<()> {
    text.push_str("op,client,wire\n").ok()?;
    for epoch in 0..3_u32 {
        push_comers(text, epoch)?;
        push_steps(text, epoch)?;
        push_steps(text, epoch)?;
        text.push_str("turn,,\n").ok()?;
    }
    Some(())
}

/// Three epochs on two wires: all enter, pass and leave, and a turn.
fn three_epochs(alloc: Global) -> Option<Vec<u8>> {
    let mut text = String::new(alloc);
    push_epochs(&mut text)?;
    Some(text.into_bytes())
}

/// What answers the enters of an epoch.
fn push_enters(text: &mut String, epoch: u32) -> Option<()> {
    for place in 0..COMERS {
        writeln!(text, "enter {} wire {}", comer(epoch, place), place % 2).ok()?;
    }
    Some(())
}

/// What answers its first steps: the client at a place passes with its place for number.
fn push_passes(text: &mut String, epoch: u32) -> Option<()> {
    for place in 0..COMERS {
        let (client, wire) = (comer(epoch, place), 2 + place % 2);
        writeln!(text, "pass {client} balancer 0 number {place} wire {wire}").ok()?;
    }
    Some(())
}

/// What answers its last steps: the name of a client is its place too.
fn push_leaves(text: &mut String, epoch: u32) -> Option<()> {
    for place in 0..COMERS {
        let (client, exit, visit) = (comer(epoch, place), place % 2, place / 2);
        writeln!(
            text,
            "leave {client} exit {exit} visit {visit} name {place}"
        )
        .ok()?;
    }
    Some(())
}

/// What answers its turn.
fn push_turn(text: &mut String, epoch: u32) -> Option<()> {
    writeln!(text, "turn epoch {epoch} clients 12").ok()?;
    text.push_str("exit 0 count 6\nexit 1 count 6\n").ok()?;
    for place in 0..COMERS {
        writeln!(text, "name {place} client {}", comer(epoch, place)).ok()?;
    }
    Some(())
}

fn push_answers(text: &mut String) -> Option<()> {
    text.push_str("network bitonic width 2 balancers 1 depth 1\n")
        .ok()?;
    for epoch in 0..3_u32 {
        push_enters(text, epoch)?;
        push_passes(text, epoch)?;
        push_leaves(text, epoch)?;
        push_turn(text, epoch)?;
    }
    text.push_str("end epoch 3 entered 0 inside 0\n").ok()
}

/// What answers the three epochs.
fn three_epochs_replayed(alloc: Global) -> Option<Vec<u8>> {
    let mut text = String::new(alloc);
    push_answers(&mut text)?;
    Some(text.into_bytes())
}

fn are_three_epochs_replayed(alloc: Global, state: RandomState) -> Option<bool> {
    let schedule = three_epochs(alloc)?;
    let wanted = three_epochs_replayed(alloc)?;
    let text = replayed(alloc, state, Kind::Bitonic, 2, &schedule)?;
    Some(text.as_slice() == wanted.as_slice())
}

#[test]
fn a_hundred_commands_over_three_epochs(rt: HostRuntime) -> Result<(), Fail> {
    let are_replayed = are_three_epochs_replayed(rt.alloc(), RandomState::new(&rt)?);
    assert_eq!(rt; are_replayed, Some(true));
    Ok(())
}
