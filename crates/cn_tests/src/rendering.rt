//! Replays and wirings that are at hand, rendered.

ghost use Rattle.cn_report.specs.Callers.{IsWholeRecord};

use crate::replaying::{ROWS, joined};
use crate::reports::record;
use crate::showing::TREE_FOUR;
use cn_ledger::{Answer, Command, EnterFault, EpochRecord, Moved, Reply, StepFault, TurnFault};
use cn_nets::Net;
use cn_report::{render_replay, render_wiring};
use cn_wiring::{Counting, Kind};
use std::alloc::Global;

const ENTER: Command = Command::Enter {
    client: 7,
    entry: 0,
};

const STEP: Command = Command::Step { client: 7 };

const PASSED: Reply = Reply::Stepped(Moved::On {
    balancer: 0,
    number: 0,
    wire: 2,
});

const LEFT: Reply = Reply::Stepped(Moved::Out {
    exit: 0,
    visit: 0,
    name: 0,
});

/// Two clients who come in by two wires, of whom the later one goes first.
fn two_clients(alloc: Global) -> Option<Vec<u8>> {
    let network = Net::new(Kind::Bitonic, 2).ok()?.build(alloc).ok()?;
    let later = Command::Enter {
        client: 9,
        entry: 1,
    };
    let later_step = Command::Step { client: 9 };
    let commands = [ENTER, later, later_step, STEP, later_step, STEP];
    let other_passed = Moved::On {
        balancer: 0,
        number: 1,
        wire: 3,
    };
    let other_left = Moved::Out {
        exit: 1,
        visit: 0,
        name: 1,
    };
    let answers = [
        Answer::Replied(Reply::Entered),
        Answer::Replied(Reply::Entered),
        Answer::Replied(PASSED),
        Answer::Replied(Reply::Stepped(other_passed)),
        Answer::Replied(LEFT),
        Answer::Replied(Reply::Stepped(other_left)),
    ];
    render_replay(alloc, &network, &commands, &answers, 0, 2, 0).ok()
}

/// A turn that is refused while a client is inside, and then done.
fn turn_refused_then_done(alloc: Global, network: &Counting, ended: EpochRecord) -> Option<Vec<u8>>
    requires { IsWholeRecord network.now.table.width ended }
{
    let commands = [ENTER, Command::Turn, STEP, STEP, Command::Turn];
    let answers = [
        Answer::Replied(Reply::Entered),
        Answer::TurnRefused(TurnFault::NotQuiet(1)),
        Answer::Replied(PASSED),
        Answer::Replied(LEFT),
        Answer::Turned(ended),
    ];
    render_replay(alloc, network, &commands, &answers, 1, 0, 0).ok()
}

/// Each refusal of an enter and a step, and then a turn and one enter more.
fn every_refusal(alloc: Global, network: &Counting, ended: EpochRecord) -> Option<Vec<u8>>
    requires { IsWholeRecord network.now.table.width ended }
{
    let by_one = Command::Enter {
        client: 7,
        entry: 1,
    };
    let by_two = Command::Enter {
        client: 7,
        entry: 2,
    };
    let stranger = Command::Step { client: 5 };
    let commands = [
        stranger,
        ENTER,
        by_one,
        by_two,
        STEP,
        STEP,
        STEP,
        ENTER,
        Command::Turn,
        ENTER,
    ];
    let answers = [
        Answer::Replied(Reply::StepRefused(StepFault::Stranger)),
        Answer::Replied(Reply::Entered),
        Answer::Replied(Reply::EnterRefused(EnterFault::AlreadyIn)),
        Answer::Replied(Reply::EnterRefused(EnterFault::NoSuchEntry)),
        Answer::Replied(PASSED),
        Answer::Replied(LEFT),
        Answer::Replied(Reply::StepRefused(StepFault::HasName(0))),
        Answer::Replied(Reply::EnterRefused(EnterFault::AlreadyIn)),
        Answer::Turned(ended),
        Answer::Replied(Reply::Entered),
    ];
    render_replay(alloc, network, &commands, &answers, 1, 1, 1).ok()
}

/// Which replay is rendered.
#[derive(Clone, Copy)]
enum Replayed {
    TwoClients,
    TurnRefusedThenDone,
    EveryRefusal,
}

/// A replay on bitonic 2: of two clients, or of an epoch in which client 7 came in and left.
fn rendered(alloc: Global, replayed: Replayed) -> Option<Vec<u8>> {
    let net = Net::new(Kind::Bitonic, 2).ok()?;
    let network = net.build(alloc).ok()?;
    let ended = record(alloc, 0, &[1, 0], &[7])?;
    if ended.counts.len() != network.width() as usize
        || ended.holders.len() as u64 != ended.clients
    {
        return None;
    }
    match replayed {
        Replayed::TwoClients => two_clients(alloc),
        Replayed::TurnRefusedThenDone => turn_refused_then_done(alloc, &network, ended),
        Replayed::EveryRefusal => every_refusal(alloc, &network, ended),
    }
}

/// Whether a replay is rendered as the job writes it, whose text is in these parts.
fn is_rendered(alloc: Global, replayed: Replayed, parts: &[&[u8]]) -> bool {
    match (rendered(alloc, replayed), joined(alloc, parts)) {
        (Some(text), Ok(wanted)) => text == wanted,
        _ => false,
    }
}

/// Whether the wiring of tree 4 is rendered as it should be.
fn is_wiring_rendered(alloc: Global) -> bool {
    let Ok(net) = Net::new(Kind::Tree, 4) else {
        return false;
    };
    let Ok(network) = net.build(alloc) else {
        return false;
    };
    match render_wiring(alloc, &network) {
        Ok(text) => text.as_slice() == TREE_FOUR,
        Err(_) => false,
    }
}

#[test]
fn replays_and_a_wiring(rt: HostRuntime) {
    let alloc = rt.alloc();
    let two = is_rendered(alloc, Replayed::TwoClients, ROWS[0].3);
    let turn = is_rendered(alloc, Replayed::TurnRefusedThenDone, ROWS[2].3);
    let refusals = is_rendered(alloc, Replayed::EveryRefusal, ROWS[3].3);
    assert_eq!(rt;
        (two, turn, refusals, is_wiring_rendered(alloc)),
        (true, true, true, true)
    );
}
