//! A schedule, replayed.

ghost use Rattle.std.specs.Prelude.{◌≡◌, ◌↔◌, ◌+◌, ◌<◌, ◌≤◌, ◌^◌, [], false, IfErr, IfOk, IsTrue, List, None, length};
ghost use Rattle.cn_core.specs.State.{start};
ghost use Rattle.cn_epoch.specs.History.{EpochsAgree};
ghost use Rattle.cn_ledger.specs.Answers.{HadMemory};
ghost use Rattle.cn_ledger.specs.declared.answer.Answer.{Answer};
ghost use Rattle.cn_texts.specs.Writing.Written.{HasWritten, written_by};
ghost use Rattle.cn_renamer.specs.Outputs.{until_output};
ghost use Rattle.cn_renamer.specs.Replay.{AreAnsweredAs, IsAnsweredAs, IsReplayFault, IsReplayOfCommands, IsReplayOfKnown, IsReplayText, IsWithoutCounts, fault_of_output, fault_of_schedule, status_of_replay, until_replay};

use crate::output_fault::OutputFault;
use cn_epoch::Epochs;
use cn_ledger::{Answer, Command, EnterFault, Reply, TurnFault};
use cn_nets::Net;
use cn_tables::Counting;
use cn_texts::{OpenEpoch, Pieces, ScheduleCause, ScheduleFault, read_schedule, write_replay};
use std::alloc::Global;
use std::hash::RandomState;
use std::io::{Read, Write};
use thiserror::Error;

/// Why a replay did not end well. Its text is the line that the program prints.
#[derive(Clone, Copy, Debug, PartialEq, Eq, Error)]
pub enum ReplayFault {
    /// The input is no schedule: its first record with a cause, which is never want of memory.
    #[error("renamer: record {}: {}", .0.at, .0.cause)]
    Schedule(ScheduleFault),
    /// A growth was refused.
    #[error("renamer: memory")]
    Memory,
    /// A write failed, or the flush at the end, after this many bytes of the text.
    #[error("renamer: write after {written} bytes")]
    Write {
        /// How many bytes were written: they are the first of the text.
        written: u64,
    },
}

impl ReplayFault {
    /// The status with which the program ends: 1 for a schedule that is refused, 3 for want of memory and for a write
    /// that failed.
    pub fn status(&self) -> u8
        ensures { result ≡ status_of_replay self.now }
    {
        match self {
            ReplayFault::Schedule(_) => 1,
            ReplayFault::Memory | ReplayFault::Write { .. } => 3,
        }
    }
}

impl From<ScheduleFault> for ReplayFault {
    ghost from_gives = { λ fault reported. reported ≡ fault_of_schedule fault };

    fn from(fault: ScheduleFault) -> Self {
        match fault.cause {
            ScheduleCause::Memory => ReplayFault::Memory,
            _ => ReplayFault::Schedule(fault),
        }
    }
}

impl From<OutputFault> for ReplayFault {
    ghost from_gives = { λ fault reported. reported ≡ fault_of_output fault };

    fn from(fault: OutputFault) -> Self {
        match fault {
            OutputFault::Memory => ReplayFault::Memory,
            OutputFault::Write { written } => ReplayFault::Write { written },
        }
    }
}

/// Whether an answer is anything but want of memory.
fn had_memory(answer: &Answer) -> bool
    ensures { IsTrue result ↔ HadMemory answer.now }
{
    !matches!(
        answer,
        Answer::Replied(Reply::EnterRefused(EnterFault::Memory))
            | Answer::TurnRefused(TurnFault::Memory)
    )
}

/// An answer without the counts of its record, if it has one.
fn without_counts(alloc: Global, answer: Answer) -> Answer
    ensures { IsWithoutCounts answer result }
{
    match answer {
        Answer::Turned(ended) => {
            let mut ended = ended;
            ended.counts = Vec::new(alloc);
            Answer::Turned(ended)
        }
        other => other,
    }
}

/// What is kept of the answer to one command: all but the counts of a turn's record, which are shares.
fn kept_answer(
    alloc: Global,
    epochs: &mut Epochs<'_>,
    command: Command,
) -> Result<Answer, OutputFault>
    requires number { epochs.old.number + 1 < 2 ^ 64 }
    requires clears { epochs.old.carries ≡ false }
    ensures answered { IfOk result (λ kept. (answer : Answer)
        × IsAnsweredAs epochs.old command answer kept epochs.new) }
    ensures memory { IfErr result (λ fault. fault ≡ OutputFault.Memory) }
    ensures network { epochs.new.core.network ≡ epochs.old.core.network }
    ensures number { epochs.new.number ≤ epochs.old.number + 1 }
    ensures clears { epochs.new.carries ≡ false }
{
    epochs.state_laws();
    let _ = epochs.base();
    let answer = epochs.answer(command);
    if !had_memory(&answer) {
        return Err(OutputFault::Memory);
    }
    Ok(without_counts(alloc, answer))
}

/// What is kept of the answers to commands.
fn kept_answers(
    alloc: Global,
    epochs: &mut Epochs<'_>,
    commands: &[Command],
) -> Result<Vec<Answer>, OutputFault>
    requires number { epochs.old.number + length commands.now < 2 ^ 64 }
    requires clears { epochs.old.carries ≡ false }
    ensures answered { IfOk result (λ kept. (answers : List Answer)
        × AreAnsweredAs epochs.old commands.now answers kept.items epochs.new) }
    ensures memory { IfErr result (λ fault. fault ≡ OutputFault.Memory) }
    ensures network { epochs.new.core.network ≡ epochs.old.core.network }
{
    let mut answers = Vec::with_capacity(alloc, commands.len())?;
    for command in commands {
        let kept = kept_answer(alloc, epochs, *command)?;
        answers.push_reserved(kept);
    }
    Ok(answers)
}

/// Writes the text of the replay of commands on epochs that nobody has entered.
fn write_replayed<W: Write>(
    alloc: Global,
    writer: &mut W,
    network: &Counting,
    epochs: &mut Epochs<'_>,
    commands: &[Command],
) -> Result<(), OutputFault>
    requires begun { epochs.old ≡ record { number = 0; carries = false; core = start network.now } }
    requires agrees { EpochsAgree epochs.old 0 [] None }
    ensures { HasWritten W.contents (IsReplayText network.now commands.now)
        (written_by until_output result) writer.old writer.new }
{
    let kept = kept_answers(alloc, epochs, commands)?;
    let pieces = Pieces::new(alloc)?;
    let last = OpenEpoch {
        number: epochs.number(),
        entered: epochs.entered(),
        inside: epochs.inside(),
    };
    write_replay(writer, pieces, network, commands, &kept, last)?;
    Ok(())
}

/// Writes the text of the replay of commands.
fn replay_commands<W: Write>(
    alloc: Global,
    writer: &mut W,
    net: &Net,
    commands: &[Command],
    state: RandomState,
) -> Result<(), OutputFault>
    ensures { HasWritten W.contents (IsReplayOfCommands net.now commands.now)
        (written_by until_output result) writer.old writer.new }
{
    let network = net.build(alloc)?;
    let mut epochs = Epochs::new(alloc, &network, state)?;
    write_replayed(alloc, writer, &network, &mut epochs, commands)
}

/// Reads a schedule, applies its commands to epochs of the network, and writes the text of the replay: the network,
/// each command with its answer, how many epochs ended, and how many clients of the open one entered and are inside. A
/// refused command is part of the text.
///
/// The random state is for the table of clients. Nothing is written before every command has its answer.
///
/// # Errors
/// `Schedule` with the first record that has a cause, and its first cause; `Memory` if any growth was refused; `Write`
/// if a write or the flush at the end failed, with the number of bytes that were written: they are the first of the
/// text. On any other fault nothing was written.
pub fn replay<R: Read + Drop, W: Write>(
    alloc: Global,
    reader: R,
    writer: &mut W,
    net: &Net,
    state: RandomState,
) -> Result<(), ReplayFault>
    ensures written { let Is = IsReplayOfKnown net.now (R.remaining reader) in
        HasWritten W.contents Is (written_by until_replay result) writer.old writer.new }
    ensures refused { IfErr result (IsReplayFault (R.remaining reader)) }
{
    let commands = read_schedule(alloc, reader)?;
    replay_commands(alloc, writer, net, &commands, state)?;
    Ok(())
}
