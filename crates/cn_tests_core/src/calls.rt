//! The calls of a core and of epochs, one by one or as one run.

ghost use Rattle.std.specs.Prelude.{◌≡◌, ◌+◌, length};

use cn_core::{Core, Event};
use cn_epoch::Epochs;
use cn_ledger::{Answer, Command, Reply};
use std::alloc::{AllocError, Global};

/// How a list of events or commands is given.
#[derive(Clone, Copy, Debug, PartialEq, Eq)]
pub(crate) enum Calls {
    Single,
    Run,
}

/// The reply to one event, by its call.
fn reply_to(core: &mut Core<'_>, event: Event) -> Reply
    ensures { core.new.network ≡ core.old.network }
{
    match event {
        Event::Enter { client, entry } => core.enter(client, entry).into(),
        Event::Step { client } => core.step(client).into(),
    }
}

fn single_replies(
    core: &mut Core<'_>,
    alloc: Global,
    events: &[Event],
) -> Result<Vec<Reply>, AllocError>
    ensures { core.new.network ≡ core.old.network }
{
    let mut replies = Vec::new(alloc);
    for event in events {
        replies.push(reply_to(core, *event))?;
    }
    Ok(replies)
}

/// The replies of a core to events.
pub(crate) fn replies_to(
    core: &mut Core<'_>,
    alloc: Global,
    events: &[Event],
    calls: Calls,
) -> Result<Vec<Reply>, AllocError>
    ensures { core.new.network ≡ core.old.network }
{
    match calls {
        Calls::Single => single_replies(core, alloc, events),
        Calls::Run => core.run(events),
    }
}

/// How many clients are carried, and entered.
fn came_in(epochs: &Epochs<'_>) -> u64
    ensures { result ≡ epochs.now.core.base + length epochs.now.core.clients }
{
    epochs.state_laws();
    epochs.base() + epochs.entered()
}

/// The answer to one command, by its call. The rows have few turns, and few clients are carried.
fn answer_to(epochs: &mut Epochs<'_>, command: Command) -> Option<Answer> {
    match command {
        Command::Enter { client, entry } => {
            Some(Answer::Replied(epochs.enter(client, entry).into()))
        }
        Command::Step { client } => Some(Answer::Replied(epochs.step(client).into())),
        Command::Turn if epochs.number() > 9 || came_in(epochs) > 1_000_000 => None,
        Command::Turn => Some(epochs.turn().into()),
    }
}

fn single_answers(
    epochs: &mut Epochs<'_>,
    alloc: Global,
    commands: &[Command],
) -> Option<Vec<Answer>> {
    let mut answers = Vec::with_capacity(alloc, commands.len()).ok()?;
    for command in commands {
        answers.push(answer_to(epochs, *command)?).ok()?;
    }
    Some(answers)
}

/// The answers of epochs to commands, if these are not too many.
pub(crate) fn answers_to(
    epochs: &mut Epochs<'_>,
    alloc: Global,
    commands: &[Command],
    calls: Calls,
) -> Option<Vec<Answer>> {
    match calls {
        Calls::Single => single_answers(epochs, alloc, commands),
        Calls::Run if epochs.number() > 9 || came_in(epochs) > 1_000_000 => None,
        Calls::Run if commands.len() < 1_000_000 => epochs.run(commands).ok(),
        Calls::Run => None,
    }
}
