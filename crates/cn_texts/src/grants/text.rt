//! The text of a grant list.

ghost use Rattle.std.specs.Prelude.{◌≡◌, ℕ, Bool, List, length};
ghost use Rattle.std.specs.List.{flat_map};
ghost use Rattle.cn_ledger.specs.declared.record.EpochRecord.{EpochRecord};
ghost use Rattle.cn_texts.specs.Grants.ListText.{grant_lines, grants_header, grants_text};
ghost use Rattle.cn_texts.specs.Reading.Batch.{clients_of_epochs};
ghost use Rattle.cn_texts.specs.Writing.EpochRecords.{AreRecordsOf};
ghost use Rattle.cn_texts.specs.Writing.Pieces.{Puts, nothing_put};
ghost use Rattle.cn_texts.specs.Writing.Written.{First, HasWritten, written_by};

use crate::reading::BatchEpoch;
use crate::writing::emitting::EmitFault;
use crate::writing::line::send_grant;
use crate::writing::pieces::Pieces;
use std::io::Write;

#[tactic(auto, unfolding(crate::specs::Grants::ListText::grants_header))]
/// Sends the header.
pub fn send_header<W: Write>(pieces: &mut Pieces, writer: &mut W)
    ensures { Puts W.contents writer.old writer.new pieces.old pieces.new grants_header }
{
    pieces.put(writer, b"epoch,client,name\n");
}

/// Sends a record for each name of an epoch and its holder.
pub fn send_names<W: Write>(pieces: &mut Pieces, writer: &mut W, epoch: u64, holders: &[u64])
    ensures { Puts W.contents writer.old writer.new pieces.old pieces.new
        (grant_lines epoch (length holders.now) holders.now) }
{
    for name in 0..holders.len() {
        send_grant(pieces, writer, epoch, holders[name], name as u64);
    }
}

/// Sends the grants of all epochs. The holders of each follow those of the one before.
fn send_all_names<W: Write>(
    pieces: &mut Pieces,
    writer: &mut W,
    epochs: &[BatchEpoch],
    holders: &[u64],
)
    requires { clients_of_epochs epochs.now ≡ length holders.now }
    ensures { (carry : Bool) (width : ℕ) (records : List EpochRecord)
        → AreRecordsOf carry width 0 epochs.now records holders.now
        → Puts W.contents writer.old writer.new pieces.old pieces.new
        (flat_map (λ r. grant_lines r.number r.clients r.holders.items) records) }
{
    let mut left = holders;
    for epoch in epochs {
        let (own, others) = left.split_at(epoch.clients.len());
        send_names(pieces, writer, epoch.number, own);
        left = others;
    }
}

/// Writes the grant list of epochs in pieces, and flushes once at the end: a header `epoch,client,name`, and for each
/// epoch a record of each name and its holder, by rising name. The holders of each epoch's names follow those of the
/// epoch before. It takes no memory.
///
/// If the epochs' numbers rise and each is tight, [`crate::named_grants_within`] takes the list for a tight one: this
/// is a law of `cn_report` (`written_grants_are_tight`).
///
/// # Errors
/// `EmitFault` if a write fails, is interrupted or takes no byte: nothing is written after it, and the bytes written
/// until then are the first of the text. A failed flush is reported with the whole length of the text.
pub fn write_grants<W: Write>(
    writer: &mut W,
    pieces: Pieces,
    epochs: &[BatchEpoch],
    holders: &[u64],
) -> Result<(), EmitFault>
    requires fresh { pieces ≡ nothing_put }
    requires as_many { clients_of_epochs epochs.now ≡ length holders.now }
    ensures { (carry : Bool) (width : ℕ) (records : List EpochRecord)
        → AreRecordsOf carry width 0 epochs.now records holders.now
        → let written = written_by (λ fault. First fault.written) result in
        HasWritten W.contents (λ text. text ≡ grants_text records) written writer.old writer.new }
{
    let mut pieces = pieces;
    send_header(&mut pieces, writer);
    send_all_names(&mut pieces, writer, epochs, holders);
    pieces.finish(writer)
}
