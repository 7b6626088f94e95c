//! The lines of enters and steps in a replay.

ghost use Rattle.cn_texts.specs.Writing.Pieces.{Puts};
ghost use Rattle.cn_texts.specs.Writing.Replay.{enter_line, moved_line, step_line};

use crate::writing::line::{send_line, send_number, send_numbered};
use crate::writing::pieces::Pieces;
use cn_ledger::{EnterFault, Moved, Reply, StepFault};
use std::io::Write;

/// Sends the line of a step that was taken, as `pass 7 balancer 0 number 0 wire 2` or `leave 7 exit 0 visit 0 name 0`.
fn send_moved<W: Write>(pieces: &mut Pieces, writer: &mut W, client: u64, moved: Moved)
    ensures { Puts W.contents writer.old writer.new pieces.old pieces.new (moved_line client moved) }
{
    match moved {
        Moved::On {
            balancer,
            number,
            wire,
        } => {
            send_number(pieces, writer, "pass ", client);
            send_number(pieces, writer, " balancer ", balancer);
            send_number(pieces, writer, " number ", number);
            send_number(pieces, writer, " wire ", wire);
            pieces.put(writer, b"\n");
        }
        Moved::Out { exit, visit, name } => {
            send_number(pieces, writer, "leave ", client);
            send_number(pieces, writer, " exit ", exit);
            send_number(pieces, writer, " visit ", visit);
            send_number(pieces, writer, " name ", name);
            pieces.put(writer, b"\n");
        }
    }
}

/// Sends a line as `refused enter 7 AlreadyIn`, and none for want of memory.
#[tactic(auto, unfolding(crate::specs::Writing::Replay::enter_line))]
fn send_refused<W: Write>(
    pieces: &mut Pieces,
    writer: &mut W,
    client: u64,
    entry: u64,
    fault: EnterFault,
)
    ensures { Puts W.contents writer.old writer.new pieces.old pieces.new
        (enter_line client entry (Reply.EnterRefused fault)) }
{
    match fault {
        EnterFault::NoSuchEntry => {
            send_numbered(pieces, writer, "refused enter ", client, " NoSuchEntry\n");
        }
        EnterFault::AlreadyIn => {
            send_numbered(pieces, writer, "refused enter ", client, " AlreadyIn\n");
        }
        EnterFault::EpochFull => {
            send_numbered(pieces, writer, "refused enter ", client, " EpochFull\n");
        }
        EnterFault::Memory => {}
    }
}

/// Sends the line of an enter and its reply, if it has one.
#[tactic(auto, unfolding(crate::specs::Writing::Replay::enter_line))]
pub(crate) fn send_enter<W: Write>(
    pieces: &mut Pieces,
    writer: &mut W,
    client: u64,
    entry: u64,
    reply: Reply,
)
    ensures { Puts W.contents writer.old writer.new pieces.old pieces.new (enter_line client entry reply) }
{
    match reply {
        Reply::Entered => send_line(pieces, writer, "enter ", client, " wire ", entry),
        Reply::EnterRefused(fault) => send_refused(pieces, writer, client, entry, fault),
        Reply::Stepped(_) | Reply::StepRefused(_) => {}
    }
}

/// Sends the line of a step and its reply, if it has one.
#[tactic(auto, unfolding(crate::specs::Writing::Replay::step_line))]
pub(crate) fn send_step<W: Write>(pieces: &mut Pieces, writer: &mut W, client: u64, reply: Reply)
    ensures { Puts W.contents writer.old writer.new pieces.old pieces.new (step_line client reply) }
{
    match reply {
        Reply::Stepped(moved) => send_moved(pieces, writer, client, moved),
        Reply::StepRefused(StepFault::Stranger) => {
            send_numbered(pieces, writer, "refused step ", client, " Stranger\n");
        }
        Reply::StepRefused(StepFault::HasName(name)) => {
            send_line(pieces, writer, "refused step ", client, " HasName ", name);
        }
        Reply::Entered | Reply::EnterRefused(_) => {}
    }
}
