//! The epochs of a grant list, as its records come.

ghost use Rattle.std.specs.Prelude.{◌≡◌, ◌≢◌, ◌<◌, ◌≤◌, ◌+◌, ◌⊎◌, ◌∷◌, ◌++◌, ℕ, [], List, None, OnOk, IfErr, IfOk, MatchResult, length, map};
ghost use Rattle.cn_texts.specs.declared.grants.record.Granted.{Granted};
ghost use Rattle.cn_texts.specs.Grants.Granted.{has_name};
ghost use Rattle.cn_texts.specs.Grants.Checked.{AreFresh, HoldsGrants, IsChecked, IsCheckedWith, IsGapBelow, IsTwice, Tells, Turns, count_of, latest_seen};
ghost use Rattle.cn_texts.specs.Grants.Occurrences.{has_number, numbers_of};
ghost use Rattle.cn_texts.specs.Grants.Printed.{epoch_numbers, named_epoch, plain_named};
ghost use Rattle.cn_texts.specs.Grants.TightList.{IsEndFlaw, IsRepeatFlaw, Lacks};
ghost use Rattle.cn_spec.specs.declared.limits.TheConstants.{MOST_NAMED};
ghost use Rattle.std.specs.List.Sorted.{IsStrictlyIncreasing};

use crate::grants::occurrences::{Occurrence, first_repeat, least_missing};
use crate::grants::record::{Flaw, Granted};
use std::alloc::{AllocError, Global};

/// A name that an epoch lacks.
#[derive(Clone, Copy)]
pub(crate) struct Gap {
    pub(crate) epoch: u64,
    pub(crate) name: u64,
}

/// An epoch whose clients got the names below their number, each once: a [`crate::TightEpoch`] without its counts,
/// which are the shares of so many clients, by any width.
#[derive(Clone, Copy, Debug, PartialEq, Eq)]
pub struct NamedEpoch {
    /// The epoch's number.
    pub number: u64,
    /// How many clients got a name: at most as many as a list has records.
    pub clients: u32,
}

/// The epochs that ended, the first gap among them, and the latest epoch's clients and names. Which of these stand at
/// an earlier record is looked for when the epoch ends, by sorting: that takes little longer for each record if there
/// are more of them, in whatever order they come.
#[derive(Drop)]
pub(crate) struct Granting {
    ended: Vec<NamedEpoch>,
    gap: Option<Gap>,
    latest: u64,
    /// How many grants the epochs before the latest have.
    before: u64,
    clients: Vec<Occurrence>,
    names: Vec<Occurrence>,
}

/// Appends an item, or drops it.
fn push<T: Drop>(items: &mut Vec<T>, item: T) -> Result<(), AllocError>
    ensures { OnOk result (items.new.items ≡ items.old.items ++ item ∷ []) }
{
    items.push(item)?;
    Ok(())
}

impl Granting {
    /// What is known before the first record: no epoch, no gap.
    pub(crate) fn new(alloc: Global) -> Self
        ensures checked { IsChecked result [] [] }
        ensures count { count_of result ≡ 0 }
    {
        Granting {
            ended: Vec::new(alloc),
            gap: None,
            latest: 0,
            before: 0,
            clients: Vec::new(alloc),
            names: Vec::new(alloc),
        }
    }

    /// The latest epoch.
    pub(crate) fn latest(&self) -> u64
        ensures { result ≡ self.now.latest }
    {
        self.latest
    }

    /// Looks through the latest epoch for a record whose client or name stands at an earlier one.
    ///
    /// # Errors
    /// The first such record, by the client if both do.
    pub(crate) fn settle(&mut self) -> Result<(), Flaw>
        requires few { count_of self.old ≤ MOST_NAMED }
        ensures same { (self.new.ended ≡ self.old.ended) × (self.new.gap ≡ self.old.gap)
            × (self.new.latest ≡ self.old.latest) × (self.new.before ≡ self.old.before)
            × (length self.new.clients.items ≡ length self.old.clients.items)
            × (length self.new.names.items ≡ length self.old.names.items) }
        ensures fresh { OnOk result ((earlier latest : List Granted) → HoldsGrants self.old earlier latest
            → AreFresh earlier latest) }
        ensures names { OnOk result ((earlier latest : List Granted) → HoldsGrants self.old earlier latest
            → IsStrictlyIncreasing (numbers_of self.new.names.items)
            × ((n : ℕ) → has_number (numbers_of self.new.names.items) n ≡ has_name n latest)) }
        ensures twice { IfErr result (λ flaw. (earlier latest : List Granted)
            → HoldsGrants self.old earlier latest → IsTwice earlier latest flaw) }
        ensures repeat { IfErr result IsRepeatFlaw }
    {
        let client = first_repeat(self.clients.as_mut_slice());
        let name = first_repeat(self.names.as_mut_slice());
        let next = self.before + 1;
        match (client, name) {
            (None, None) => Ok(()),
            (Some(client), None) => Err(Flaw::DuplicateClient(next + u64::from(client))),
            (None, Some(name)) => Err(Flaw::DuplicateName(next + u64::from(name))),
            (Some(client), Some(name)) if name < client => {
                Err(Flaw::DuplicateName(next + u64::from(name)))
            }
            (Some(client), Some(_)) => Err(Flaw::DuplicateClient(next + u64::from(client))),
        }
    }

    /// Ends the latest epoch: finds the first gap, if none was found before, and if there is none adds the epoch to
    /// those that ended, if it has grants.
    ///
    /// # Errors
    /// Those of [`Granting::settle`], and `Memory`.
    fn end_latest(&mut self) -> Result<(), Flaw>
        requires few { count_of self.old ≤ MOST_NAMED }
        ensures same { OnOk result ((self.new.latest ≡ self.old.latest)
            × (self.new.before ≡ self.old.before)
            × (length self.new.clients.items ≡ length self.old.clients.items)) }
        ensures fresh { OnOk result ((earlier latest : List Granted) → HoldsGrants self.old earlier latest
            → AreFresh earlier latest) }
        ensures gap { OnOk result ((earlier latest : List Granted) → HoldsGrants self.old earlier latest
            → IsGapBelow (self.old.latest + 1) (earlier ++ latest) self.new.gap) }
        ensures ended { OnOk result (self.new.gap ≡ None → (self.old.gap ≡ None)
            × (map plain_named self.new.ended.items ≡ map plain_named self.old.ended.items
            ++ latest_seen self.old.latest (length self.old.clients.items))) }
        ensures twice { IfErr result (λ flaw. (earlier latest : List Granted)
            → HoldsGrants self.old earlier latest
            → IsTwice earlier latest flaw ⊎ (flaw ≡ Flaw.Memory)) }
        ensures not_read { IfErr result (λ flaw. (at : ℕ) → flaw ≢ Flaw.Read at) }
    {
        self.settle()?;
        if self.gap.is_some() {
            return Ok(());
        }
        if let Some(name) = least_missing(self.names.as_slice()) {
            self.gap = Some(Gap {
                epoch: self.latest,
                name,
            });
        } else if !self.clients.is_empty() {
            let clients = self.clients.len() as u32;
            push(
                &mut self.ended,
                NamedEpoch {
                    number: self.latest,
                    clients,
                },
            )?;
        }
        Ok(())
    }

    /// Comes to this epoch.
    ///
    /// # Errors
    /// Those of [`Granting::settle`], and `Memory`.
    fn turn_to(&mut self, epoch: u64) -> Result<(), Flaw>
        requires few { count_of self.old ≤ MOST_NAMED }
        requires later { self.old.latest ≤ epoch }
        ensures here { OnOk result (self.new.latest ≡ epoch) }
        ensures count { OnOk result (count_of self.new ≡ count_of self.old) }
        ensures holds { OnOk result ((earlier latest : List Granted) → HoldsGrants self.old earlier latest
            → Tells self.old earlier latest → Turns self.new earlier latest) }
        ensures twice { IfErr result (λ flaw. (earlier latest : List Granted)
            → HoldsGrants self.old earlier latest
            → IsTwice earlier latest flaw ⊎ (flaw ≡ Flaw.Memory)) }
        ensures not_read { IfErr result (λ flaw. (at : ℕ) → flaw ≢ Flaw.Read at) }
    {
        if self.latest == epoch {
            return Ok(());
        }
        self.end_latest()?;
        self.latest = epoch;
        self.before += self.clients.len() as u64;
        self.clients.clear();
        self.names.clear();
        Ok(())
    }

    /// Adds a grant, which is of the latest epoch or of a later one.
    ///
    /// # Errors
    /// Those of [`Granting::settle`], if it is of a later one, and `Memory`.
    pub(crate) fn add(&mut self, grant: Granted) -> Result<(), Flaw>
        requires few { count_of self.old < MOST_NAMED }
        requires later { self.old.latest ≤ grant.epoch }
        ensures count { OnOk result (count_of self.new ≡ count_of self.old + 1) }
        ensures ok { OnOk result ((earlier latest : List Granted) → IsChecked self.old earlier latest
            → IsCheckedWith self.new earlier latest grant) }
        ensures twice { IfErr result (λ flaw. (earlier latest : List Granted)
            → HoldsGrants self.old earlier latest
            → IsTwice earlier latest flaw ⊎ (flaw ≡ Flaw.Memory)) }
        ensures not_read { IfErr result (λ flaw. (at : ℕ) → flaw ≢ Flaw.Read at) }
    {
        self.turn_to(grant.epoch)?;
        let place = self.clients.len() as u32;
        push(
            &mut self.clients,
            Occurrence {
                number: grant.client,
                place,
            },
        )?;
        push(
            &mut self.names,
            Occurrence {
                number: grant.name,
                place,
            },
        )?;
        Ok(())
    }

    /// The epochs, if none lacks a name.
    ///
    /// # Errors
    /// Those of [`Granting::settle`], the first gap, and `Memory`.
    pub(crate) fn finish(self) -> Result<Vec<NamedEpoch>, Flaw>
        requires few { count_of self ≤ MOST_NAMED }
        ensures answer { (earlier latest : List Granted) → HoldsGrants self earlier latest
            → MatchResult result (λ _. AreFresh earlier latest × ((e n : ℕ) → Lacks (earlier ++ latest) e n → ⊥))
            (λ flaw. IsTwice earlier latest flaw ⊎ (flaw ≡ Flaw.Memory)
            ⊎ (AreFresh earlier latest × IsEndFlaw (earlier ++ latest) flaw)) }
        ensures found { IfOk result (λ epochs. (earlier latest : List Granted)
            → HoldsGrants self earlier latest → Tells self earlier latest
            → map plain_named epochs.items
            ≡ map (named_epoch (earlier ++ latest)) (epoch_numbers (earlier ++ latest))) }
        ensures not_read { IfErr result (λ flaw. (at : ℕ) → flaw ≢ Flaw.Read at) }
    {
        let mut granting = self;
        granting.end_latest()?;
        match granting.gap {
            Some(gap) => Err(Flaw::Gap {
                epoch: gap.epoch,
                name: gap.name,
            }),
            None => Ok(granting.ended),
        }
    }
}
