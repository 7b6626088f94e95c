//! For callers in Rattle: one event after another. The program applies commands, by cn_epoch.

ghost use Rattle.std.specs.Prelude.{◌≡◌, IfOk, OnErr};
ghost use Rattle.cn_core.specs.Calls.{AnswersByHistory, IsLedgerEvent, RunsByHistory, RunsTo, TakesTo};

use super::Core;
use crate::event::Event;
use cn_ledger::Reply;
use std::alloc::AllocError;

impl<'a> Core<'a> {
    /// The reply to one event.
    fn answer(&mut self, event: Event) -> Reply
        ensures event { TakesTo self.old event result self.new }
        ensures history { AnswersByHistory self.old event result self.new }
        ensures ledger { IsLedgerEvent self.old event result self.new }
        ensures network { self.new.network ≡ self.old.network }
    {
        match event {
            Event::Enter { client, entry } => self.enter(client, entry).into(),
            Event::Step { client } => self.step(client).into(),
        }
    }

    /// One event after another, as by [`Core::enter`] and [`Core::step`], and their replies, whose
    /// memory is taken first.
    ///
    /// # Errors
    /// `AllocError` if the replies get no memory; then no event has been applied. An enter that meets want of memory is
    /// a reply like the others.
    pub fn run(&mut self, events: &[Event]) -> Result<Vec<Reply>, AllocError>
        ensures events { IfOk result (λ replies.
            RunsTo self.old events.now replies.items self.new) }
        ensures history { IfOk result (λ replies.
            RunsByHistory self.old events.now replies.items self.new) }
        ensures network { self.new.network ≡ self.old.network }
        ensures refused { OnErr result (self.new ≡ self.old) }
    {
        let mut replies = Vec::with_capacity(self.alloc, events.len())?;
        for event in events {
            let reply = self.answer(*event);
            replies.push_reserved(reply);
        }
        Ok(replies)
    }
}
