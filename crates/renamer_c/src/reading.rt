//! Calls that read what a closed floor left.

ghost use Rattle.std.specs.Prelude.{◌≡◌, ◌<◌, length};
ghost use Rattle.cn_handles.specs.Handles.{record_in};
ghost use Rattle.cn_handles.specs.Records.{list_of};
ghost use Rattle.cn_handles.specs.Refusals.{IsRefusal, NotCopied, NotThere, WithRecord};
ghost use Rattle.cn_handles.specs.declared.handles.refusal.TheConstants.{DONE};

use crate::answer::{status, write};
use cn_handles::{Handle, RecordList, Refusal, copy_list, list_size};

/// Copies a list of the record.
fn ask_list(quiet: &mut Handle, which: RecordList, to: &mut [u64]) -> u32
    ensures copied { result ≡ DONE
        → WithRecord (record_in quiet.old.held) (λ r. to.new ≡ list_of which r) }
    ensures quiet { quiet.new.held ≡ quiet.old.held }
    ensures kept { 0 < result → to.new ≡ to.old }
    ensures refused { 0 < result
        → IsRefusal (NotCopied (record_in quiet.old.held) which (length to.old)) result }
{
    match quiet.get_mut() {
        Some(held) => status(copy_list(held, which, to)),
        None => status(Err(Refusal::Nothing)),
    }
}

/// How many exits the floor had.
#[unsafe(no_mangle)]
pub extern "C" fn renamer_quiet_exits(quiet: &mut Handle, exits: &mut u64) -> u32
    ensures answered { result ≡ DONE
        → WithRecord (record_in quiet.old.held) (λ r. exits.new ≡ length r.counts) }
    ensures quiet { quiet.new.held ≡ quiet.old.held }
    ensures kept { 0 < result → exits.new ≡ exits.old }
    ensures refused { 0 < result → IsRefusal (NotThere (record_in quiet.old.held)) result }
{
    match quiet.get_mut() {
        Some(held) => write(list_size(held, RecordList::Counts), exits),
        None => write(Err(Refusal::Nothing), exits),
    }
}

/// How many clients the floor named.
#[unsafe(no_mangle)]
pub extern "C" fn renamer_quiet_clients(quiet: &mut Handle, clients: &mut u64) -> u32
    ensures answered { result ≡ DONE
        → WithRecord (record_in quiet.old.held) (λ r. clients.new ≡ length r.holders) }
    ensures quiet { quiet.new.held ≡ quiet.old.held }
    ensures kept { 0 < result → clients.new ≡ clients.old }
    ensures refused { 0 < result → IsRefusal (NotThere (record_in quiet.old.held)) result }
{
    match quiet.get_mut() {
        Some(held) => write(list_size(held, RecordList::Holders), clients),
        None => write(Err(Refusal::Nothing), clients),
    }
}

/// Copies how many left by each exit.
#[unsafe(no_mangle)]
pub extern "C" fn renamer_counts(quiet: &mut Handle, counts: &mut [u64]) -> u32
    ensures copied { result ≡ DONE
        → WithRecord (record_in quiet.old.held) (λ r. counts.new ≡ r.counts) }
    ensures quiet { quiet.new.held ≡ quiet.old.held }
    ensures kept { 0 < result → counts.new ≡ counts.old }
    ensures refused { 0 < result
        → IsRefusal (NotCopied (record_in quiet.old.held) RecordList.Counts (length counts.old)) result }
{
    ask_list(quiet, RecordList::Counts, counts)
}

/// Copies the clients by rising name.
#[unsafe(no_mangle)]
pub extern "C" fn renamer_holders(quiet: &mut Handle, holders: &mut [u64]) -> u32
    ensures copied { result ≡ DONE
        → WithRecord (record_in quiet.old.held) (λ r. holders.new ≡ r.holders) }
    ensures quiet { quiet.new.held ≡ quiet.old.held }
    ensures kept { 0 < result → holders.new ≡ holders.old }
    ensures refused { 0 < result
        → IsRefusal (NotCopied (record_in quiet.old.held) RecordList.Holders (length holders.old)) result }
{
    ask_list(quiet, RecordList::Holders, holders)
}
