//! Schedules, read.

use crate::replaying::TWO_CLIENTS;
use crate::writers::Broken;
use cn_ledger::Command;
use cn_report::{ScheduleCause, ScheduleFault, read_schedule};
use std::alloc::Global;
use std::io;

const TWO_CLIENTS_COMMANDS: [Command; 6] = [
    Command::Enter {
        client: 7,
        entry: 0,
    },
    Command::Enter {
        client: 9,
        entry: 1,
    },
    Command::Step { client: 9 },
    Command::Step { client: 7 },
    Command::Step { client: 9 },
    Command::Step { client: 7 },
];

const TURNS: &[u8] = b"op,client,wire\n\
      enter,7,0\n\
      turn,,\n\
      step,7,\n\
      step,7,\n\
      turn,,\n";

const TURNS_COMMANDS: [Command; 5] = [
    Command::Enter {
        client: 7,
        entry: 0,
    },
    Command::Turn,
    Command::Step { client: 7 },
    Command::Step { client: 7 },
    Command::Turn,
];

const ENTER_AND_STEP: [Command; 2] = [
    Command::Enter {
        client: 7,
        entry: 1,
    },
    Command::Step { client: 7 },
];

/// Texts and their commands: only a header, a turn as a record of its own, the records that csv reads, and numbers of
/// at most 20 digits and 64 bits.
const READ: [(&[u8], &[Command]); 15] = [
    (TWO_CLIENTS, &TWO_CLIENTS_COMMANDS),
    (b"op,client,wire\n", &[]),
    (TURNS, &TURNS_COMMANDS),
    (b"op,client,wire\nenter,7,1\nstep,7,\n", &ENTER_AND_STEP),
    (
        b"op,client,wire\r\nenter,7,1\r\nstep,7,\r\n",
        &ENTER_AND_STEP,
    ),
    (b"op,client,wire\renter,7,1\rstep,7,\r", &ENTER_AND_STEP),
    (b"op,client,wire\nenter,7,1\nstep,7,", &ENTER_AND_STEP),
    (
        b"\n\nop,client,wire\n\nenter,7,1\n\r\n\nstep,7,\n\n",
        &ENTER_AND_STEP,
    ),
    (
        b"\xef\xbb\xbfop,client,wire\nenter,7,1\nstep,7,\n",
        &ENTER_AND_STEP,
    ),
    (
        b"\"op\",\"client\",\"wire\"\n\
      \"enter\",\"7\",\"1\"\n\
      \"step\",7,\"\"\n",
        &ENTER_AND_STEP,
    ),
    (
        b"op,client,wire\nenter,\"00\"7,01\nstep,\"7\",\"",
        &ENTER_AND_STEP,
    ),
    (b"op,client,wire\nstep,0,\n", &[Command::Step { client: 0 }]),
    (
        b"op,client,wire\nstep,007,\n",
        &[Command::Step { client: 7 }],
    ),
    (
        b"op,client,wire\nstep,00000000000000000007,\n",
        &[Command::Step { client: 7 }],
    ),
    (
        b"op,client,wire\nstep,18446744073709551615,\n",
        &[Command::Step {
            client: 18_446_744_073_709_551_615,
        }],
    ),
];

/// Whether the commands of a text are these.
fn is_read(alloc: Global, text: &[u8], wanted: &[Command]) -> bool {
    match read_schedule(alloc, text) {
        Ok(commands) => commands.as_slice() == wanted,
        Err(_) => false,
    }
}

/// The place of the first text that has other commands.
fn wrong_commands(alloc: Global) -> Option<usize> {
    for (place, row) in READ.iter().enumerate() {
        if !is_read(alloc, row.0, row.1) {
            return Some(place);
        }
    }
    None
}

#[test]
fn texts_are_read(rt: HostRuntime) {
    assert_eq!(rt; wrong_commands(rt.alloc()), None);
}

/// The fault of what is read, if it is refused.
fn fault_of(alloc: Global, reader: impl io::Read + Drop) -> Option<ScheduleFault> {
    read_schedule(alloc, reader).err()
}

/// Texts, at which record each is refused, and why: no header, and records that are refused.
const REFUSED: [(&[u8], u64, ScheduleCause); 38] = [
    (b"", 0, ScheduleCause::Header),
    (b"\n\n", 0, ScheduleCause::Header),
    (b"enter,7,0\n", 0, ScheduleCause::Header),
    (b"op,client\n", 0, ScheduleCause::Header),
    (b"op,client,wire,\n", 0, ScheduleCause::Header),
    (b"\"op,client,wire\"\n", 0, ScheduleCause::Header),
    (b"op,wire,client\n", 0, ScheduleCause::Header),
    (b"Op,client,wire\n", 0, ScheduleCause::Header),
    (b"op,client,wire\xff\n", 0, ScheduleCause::Header),
    (b"op,client,wire\nleave,7,0\n", 1, ScheduleCause::Op),
    (b"op,client,wire\nTurn,,\n", 1, ScheduleCause::Op),
    (b"op,client,wire\nEnter,7,0\n", 1, ScheduleCause::Op),
    (b"op,client,wire\nenter ,7,0\n", 1, ScheduleCause::Op),
    (b"op,client,wire\nen\xffter,7,0\n", 1, ScheduleCause::Op),
    (
        b"op,client,wire\nenter,,0\n",
        1,
        ScheduleCause::ClientNumber,
    ),
    (
        b"op,client,wire\nenter,x,x\n",
        1,
        ScheduleCause::ClientNumber,
    ),
    (
        b"op,client,wire\nenter, 7,0\n",
        1,
        ScheduleCause::ClientNumber,
    ),
    (
        b"op,client,wire\nenter,7\xff,0\n",
        1,
        ScheduleCause::ClientNumber,
    ),
    (
        b"op,client,wire\nenter,7\"7\",0\n",
        1,
        ScheduleCause::ClientNumber,
    ),
    (b"op,client,wire\nstep,,0\n", 1, ScheduleCause::ClientNumber),
    (b"op,client,wire\nturn,7,\n", 1, ScheduleCause::ClientNumber),
    (
        b"op,client,wire\nturn,7,3\n",
        1,
        ScheduleCause::ClientNumber,
    ),
    (b"op,client,wire\nenter,7,\n", 1, ScheduleCause::WireNumber),
    (b"op,client,wire\nstep,7,0\n", 1, ScheduleCause::WireNumber),
    (
        b"op,client,wire\nstep,7,\"0\nstep,7,\n",
        1,
        ScheduleCause::WireNumber,
    ),
    (b"op,client,wire\nturn,,3\n", 1, ScheduleCause::WireNumber),
    (b"op,client,wire\nenter,7\n", 1, ScheduleCause::FieldCount),
    (b"op,client,wire\nleave,7\n", 1, ScheduleCause::FieldCount),
    (b"op,client,wire\nturn\n", 1, ScheduleCause::FieldCount),
    (b"op,client,wire\nturn,\n", 1, ScheduleCause::FieldCount),
    (b"op,client,wire\nstep,7,,\n", 1, ScheduleCause::FieldCount),
    (
        b"op,client,wire\nstep,18446744073709551616,\n",
        1,
        ScheduleCause::ClientNumber,
    ),
    (
        b"op,client,wire\nstep,99999999999999999999,\n",
        1,
        ScheduleCause::ClientNumber,
    ),
    (
        b"op,client,wire\nstep,000000000000000000007,\n",
        1,
        ScheduleCause::ClientNumber,
    ),
    (
        b"op,client,wire\nstep,+7,\n",
        1,
        ScheduleCause::ClientNumber,
    ),
    (
        b"op,client,wire\nstep,-7,\n",
        1,
        ScheduleCause::ClientNumber,
    ),
    (
        b"op,client,wire\nstep,7 ,\n",
        1,
        ScheduleCause::ClientNumber,
    ),
    (
        b"op,client,wire\nenter,7,0\n\nstep,7,\nstep,x,\nleave,,\n",
        3,
        ScheduleCause::ClientNumber,
    ),
];

/// Whether a text is refused at this record, for this cause.
fn is_refused(alloc: Global, text: &[u8], at: u64, cause: ScheduleCause) -> bool {
    fault_of(alloc, text) == Some(ScheduleFault { at, cause })
}

/// The place of the first text that is not refused so.
fn wrong_refusal(alloc: Global) -> Option<usize> {
    for (place, row) in REFUSED.iter().enumerate() {
        if !is_refused(alloc, row.0, row.1, row.2) {
            return Some(place);
        }
    }
    None
}

#[test]
fn schedule_refusals(rt: HostRuntime) {
    assert_eq!(rt; wrong_refusal(rt.alloc()), None);
}

/// The first number of bytes after which a failed read has another fault, and how many lines were read before it.
fn wrong_read(alloc: Global) -> (Option<usize>, u64) {
    let mut lines = 0u64;
    for end in 0..=TWO_CLIENTS.len() {
        let left = &TWO_CLIENTS[..end];
        if left.ends_with(b"\n") {
            lines = lines.saturating_add(1);
        }
        let cause = ScheduleCause::Read;
        if fault_of(alloc, Broken { left }) != Some(ScheduleFault { at: lines, cause }) {
            return (Some(end), lines);
        }
    }
    (None, lines)
}

#[test]
fn read_cut_anywhere(rt: HostRuntime) {
    assert_eq!(rt; wrong_read(rt.alloc()), (None, 7));
}
