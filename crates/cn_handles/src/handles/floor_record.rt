//! What a closed floor leaves.

ghost use Rattle.std.specs.Prelude.{◌≡◌, length};
ghost use Rattle.cn_handles.specs.Records.{IsRecordOfClosed, list_of};

use cn_floor::{Quiet, Words};
use std::marker::Model;

/// What a closed floor leaves: its words, with which another may begin, how many left by each exit, and the clients by
/// rising name.
#[derive(Drop)]
pub struct FloorRecord {
    words: Words<'static>,
    counts: Vec<u64>,
    holders: Vec<u64>,
}

impl Model for FloorRecord {
    ghost use Rattle.cn_handles.specs.InsideFloorRecord.{record_of};
    ghost use Rattle.cn_handles.specs.Records.{RecordValue};

    ghost Value = { RecordValue };

    ghost view = { record_of };
}

/// The lists of a record.
#[derive(Clone, Copy)]
pub enum RecordList {
    /// How many left by each exit.
    Counts,
    /// The clients by rising name.
    Holders,
}

/// Lists for a record.
#[derive(Drop)]
pub(crate) struct RecordLists {
    pub(crate) counts: Vec<u64>,
    pub(crate) holders: Vec<u64>,
}

impl FloorRecord {
    /// That of a closed floor, in lists that are long enough.
    pub(crate) fn of(quiet: Quiet<'static>, lists: RecordLists) -> FloorRecord
        requires counts { length lists.counts.items ≡ quiet.start.network.table.width }
        requires holders { length lists.holders.items ≡ length quiet.did.grants }
        ensures { IsRecordOfClosed quiet.entry result }
    {
        let RecordLists {
            mut counts,
            mut holders,
        } = lists;
        counts.copy_from_slice(quiet.counts());
        quiet.list_holders(&mut holders);
        FloorRecord {
            words: quiet.into_words(),
            counts,
            holders,
        }
    }

    /// The words of the floor.
    pub(crate) fn words(&self) -> &Words<'static>
        ensures { result.now ≡ self.now.words }
    {
        &self.words
    }

    /// One of its lists.
    pub(crate) fn list(&self, which: RecordList) -> &[u64]
        ensures { result.now ≡ list_of which self.now }
    {
        match which {
            RecordList::Counts => self.counts.as_slice(),
            RecordList::Holders => self.holders.as_slice(),
        }
    }
}
