//! A grant list that is tight, with the counts of its epochs, and its text.

ghost use Rattle.std.specs.Prelude.{◌≡◌, IfErr, IfOk, IfSome, map};
ghost use Rattle.std.specs.List.{flat_map, sum_by};
ghost use Rattle.cn_spec.specs.Step.{shares};
ghost use Rattle.cn_spec.specs.declared.limits.TheConstants.{MOST_RECORDS};
ghost use Rattle.cn_tables.specs.Widths.{IsWidth};
ghost use Rattle.cn_report.specs.Callers.{AnswersTight, plain_tight};
ghost use Rattle.cn_texts.specs.Grants.TightList.{IsOutside, IsTightList};
ghost use Rattle.cn_texts.specs.Grants.TightText.{tight_counts, tight_line, tight_text};
ghost use Rattle.cn_texts.specs.Grants.Printed.{with_shares};
ghost use Rattle.cn_texts.specs.Reading.Records.{records_of};
ghost use Rattle.cn_texts.specs.Writing.Pieces.{Puts};

use crate::reading::named_grants;
use cn_exit::expected;
use cn_texts::parts::{send_number, send_tight_end, send_tight_head};
use cn_texts::{Flaw, NamedEpoch, Pieces};
use std::alloc::{AllocError, Global};
use std::io::{Read, Write};

/// What a grant list says of an epoch: a [`NamedEpoch`] and its counts by one width.
#[derive(Debug, Drop)]
pub struct TightEpoch {
    /// The epoch's number.
    pub number: u64,
    /// How many clients got a name.
    pub clients: u64,
    /// How many of the names are `i` modulo the width, for each `i` below it.
    pub counts: Vec<u64>,
}

/// A grant list in which each epoch's names are the numbers below its number of clients, each once.
#[derive(Debug, Drop)]
pub struct Tight {
    /// The epochs, by rising numbers.
    pub epochs: Vec<TightEpoch>,
}

/// The shares of all exits in this many clients.
fn shares(alloc: Global, width: u32, clients: u32) -> Result<Vec<u64>, AllocError>
    requires { IsWidth width }
    ensures { IfOk result (λ counts. counts.items ≡ shares clients width) }
{
    let mut counts = Vec::with_capacity(alloc, width as usize)?;
    for exit in 0..width {
        counts.push(expected(width, u64::from(clients), exit))?;
    }
    Ok(counts)
}

/// The same epochs, each with its share of each exit.
fn with_shares(
    alloc: Global,
    width: u32,
    named: &[NamedEpoch],
) -> Result<Vec<TightEpoch>, AllocError>
    requires { IsWidth width }
    ensures { IfOk result (λ epochs. map plain_tight epochs.items ≡ map (with_shares width) named.now) }
{
    let mut epochs = Vec::with_capacity(alloc, named.len())?;
    for epoch in named {
        epochs.push(TightEpoch {
            number: epoch.number,
            clients: u64::from(epoch.clients),
            counts: shares(alloc, width, epoch.clients)?,
        })?;
    }
    Ok(epochs)
}

/// As [`named_grants`], with how many of each epoch's names are `i` modulo the width, for each `i` below it. The width
/// is one that networks have.
///
/// # Errors
///
/// As there.
pub fn check_grants<R: Read + Drop>(alloc: Global, reader: R, width: u32) -> Result<Tight, Flaw>
    requires { IsWidth width }
    ensures answer { IfSome (R.remaining reader) (λ text.
        AnswersTight width (records_of text) result) }
    ensures exact { IfSome (R.remaining reader) (λ text.
        IfErr result (λ flaw. IsTightList MOST_RECORDS (records_of text) → IsOutside flaw)) }
{
    let named = named_grants(alloc, reader)?;
    let epochs = with_shares(alloc, width, &named)?;
    Ok(Tight { epochs })
}

/// Sends a space and a count for each, as ` 2 1 1 1`.
fn send_tight_counts<W: Write>(pieces: &mut Pieces, writer: &mut W, counts: &[u64])
    ensures { Puts W.contents writer.old writer.new pieces.old pieces.new (tight_counts counts.now) }
{
    for count in counts {
        send_number(pieces, writer, " ", *count);
    }
}

/// Sends the line of an epoch, as `epoch 1 clients 5 counts 2 1 1 1`.
fn send_tight_epoch<W: Write>(pieces: &mut Pieces, writer: &mut W, epoch: &TightEpoch)
    ensures { Puts W.contents writer.old writer.new pieces.old pieces.new (tight_line (plain_tight epoch.now)) }
{
    send_tight_head(pieces, writer, epoch.number, epoch.clients);
    send_tight_counts(pieces, writer, &epoch.counts);
    pieces.put(writer, b"\n");
}

/// Sends the line of each epoch.
fn send_tight_epochs<W: Write>(pieces: &mut Pieces, writer: &mut W, epochs: &[TightEpoch])
    ensures { Puts W.contents writer.old writer.new pieces.old pieces.new
        (flat_map tight_line (map plain_tight epochs.now)) }
{
    for epoch in epochs {
        send_tight_epoch(pieces, writer, epoch);
    }
}

/// How many clients the epochs have in all, in 128 bits, which no number of epochs exceeds.
fn count_tight_clients(epochs: &[TightEpoch]) -> u128
    ensures { result ≡ sum_by (λ e. e.clients) epochs.now }
{
    let mut clients = 0;
    for epoch in epochs {
        clients += u128::from(epoch.clients);
    }
    clients
}

/// The text of a tight list, as [`cn_texts::write_tight`] writes it.
///
/// # Errors
/// `AllocError` if the text gets no memory.
pub fn render_tight(alloc: Global, tight: &Tight) -> Result<Vec<u8>, AllocError>
    ensures { IfOk result (λ text. text.items ≡ tight_text (map plain_tight tight.now.epochs.items)) }
{
    let mut pieces = Pieces::new(alloc)?;
    let mut text = Vec::new(alloc);
    send_tight_epochs(&mut pieces, &mut text, &tight.epochs);
    let grants = count_tight_clients(&tight.epochs);
    send_tight_end(&mut pieces, &mut text, tight.epochs.len(), grants);
    match pieces.finish(&mut text) {
        Ok(()) => Ok(text),
        // A vector refuses a write only for want of memory.
        Err(_) => Err(AllocError),
    }
}
