//! One command after another.

ghost use Rattle.std.specs.Prelude.{◌≡◌, ◌+◌, ◌<◌, ◌≤◌, ◌^◌, true, length, IfOk, OnErr};
ghost use Rattle.cn_spec.specs.declared.limits.TheConstants.{MOST_CARRIED};
ghost use Rattle.cn_epoch.specs.Calls.{AnswersCommandByHistory, RunsCommandsTo, TakesCommandTo, RunsCommandsByHistory};

use super::Epochs;
use cn_ledger::{Answer, Command};
use std::alloc::AllocError;

impl<'a> Epochs<'a> {
    /// The answer to one command, as by [`Epochs::enter`], [`Epochs::step`] or [`Epochs::turn`], under the conditions
    /// of a turn.
    pub fn answer(&mut self, command: Command) -> Answer
        requires number { self.old.number + 1 < 2 ^ 64 }
        requires carried { self.old.carries ≡ true
            → self.old.core.base + length self.old.core.clients ≤ MOST_CARRIED }
        ensures event { TakesCommandTo self.old command result self.new }
        ensures history { AnswersCommandByHistory self.old command result self.new }
        ensures network { self.new.core.network ≡ self.old.core.network }
        ensures number { self.new.number ≤ self.old.number + 1 }
        ensures carries { self.new.carries ≡ self.old.carries }
        ensures came { self.new.core.base + length self.new.core.clients
            ≤ self.old.core.base + length self.old.core.clients + 1 }
    {
        match command {
            Command::Enter { client, entry } => {
                Answer::Replied(self.enter(client, entry).into())
            }
            Command::Step { client } => Answer::Replied(self.step(client).into()),
            Command::Turn => self.turn().into(),
        }
    }

    /// One command after another, as by [`Epochs::enter`], [`Epochs::step`] and [`Epochs::turn`], and their answers,
    /// whose memory is taken first. For callers in Rattle; the program takes one at a time.
    ///
    /// [`Epochs::number`] and the number of commands together are below 2^64. If turns carry ([`Epochs::carrying`]),
    /// the carried clients ([`Epochs::base`]), those that entered and the number of commands are together at most
    /// [`MOST_CARRIED`].
    ///
    /// # Errors
    /// `AllocError` if the answers get no memory; then no command has been applied. A command that meets want of memory
    /// is answered like the others.
    pub fn run(&mut self, commands: &[Command]) -> Result<Vec<Answer>, AllocError>
        requires number { self.old.number + length commands.now < 2 ^ 64 }
        requires carried { self.old.carries ≡ true
            → self.old.core.base + length self.old.core.clients + length commands.now
            ≤ MOST_CARRIED }
        ensures events { IfOk result (λ answers.
            RunsCommandsTo self.old commands.now answers.items self.new) }
        ensures history { IfOk result (λ answers.
            RunsCommandsByHistory self.old commands.now answers.items self.new) }
        ensures network { self.new.core.network ≡ self.old.core.network }
        ensures refused { OnErr result (self.new ≡ self.old) }
    {
        let mut answers = Vec::with_capacity(self.alloc, commands.len())?;
        for command in commands {
            let answer = self.answer(*command);
            answers.push_reserved(answer);
        }
        Ok(answers)
    }
}
