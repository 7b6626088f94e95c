//! The laws of what jobs read and write. Each function does nothing: its contract is the law, and a caller opens it by
//! a call.

ghost use Rattle.std.specs.Prelude.{◌≡◌, ◌<◌, ◌≤◌, ℕ, List, map, Bool, length};
ghost use Rattle.std.specs.List.{AllByRecursion};
ghost use Rattle.cn_spec.specs.declared.limits.TheConstants.{MOST_NAMED};
ghost use Rattle.cn_texts.specs.declared.reading.batch.BatchEpoch.{BatchEpoch};
ghost use Rattle.cn_texts.specs.Reading.Batch.{IsBatch, plain_epoch};
ghost use Rattle.cn_texts.specs.declared.reading.bounds.Bounds.{Bounds};
ghost use Rattle.cn_ledger.specs.declared.record.EpochRecord.{EpochRecord};
ghost use Rattle.cn_texts.specs.Grants.TightList.{IsTightList};
ghost use Rattle.cn_texts.specs.Reading.Records.{Record, records_of};
ghost use Rattle.cn_texts.specs.Grants.Printed.{printed_epochs};
ghost use Rattle.cn_texts.specs.Grants.ListText.{grants_text};
ghost use Rattle.cn_spec.specs.Step.{counts_after, shares, shares_after};
ghost use Rattle.cn_tables.specs.Network.{Network, IsNetwork};
ghost use Rattle.cn_ledger.specs.declared.command.Command.{Command};
ghost use Rattle.cn_texts.specs.Reading.Bounds.{bounds_of};
ghost use Rattle.cn_nets.specs.Net.{Description, entries_of};
ghost use Rattle.cn_cli.specs.declared.options.Form.{Form};
ghost use Rattle.cn_cli.specs.declared.options.Form.TheVariants.{Grants};
ghost use Rattle.cn_renamer.specs.Headline.{IsRunInOrder, IsRunOf, IsServed};
ghost use Rattle.cn_renamer.specs.Replay.{IsReplayOf, IsReplayOfCommands, IsReplayText};
ghost use Rattle.cn_renamer.specs.Show.{IsWiringOf};
ghost use Rattle.cn_report.specs.TightRecords.{AreTightRecords, checked_epoch, names_in, served_epoch};

use cn_spec::laws::first_shares_are_shares;

/// The records of a text determine its batch: two batches of them have the same epochs.
pub fn batch_is_one()
    ensures { (bounds : Bounds) (records : List Record) (one other : List BatchEpoch)
        → IsBatch bounds records one → IsBatch bounds records other
        → map plain_epoch one ≡ map plain_epoch other }
{}

/// The grant list of tight epochs, read again, is a tight list, by each limit of its grants that they keep:
/// [`crate::named_grants_within`] finds no flaw in what [`crate::write_grants`] wrote of them. If each epoch has some
/// client, a check reports of each its number, its number of clients, and as many names for each exit as its share: how
/// many are `i` modulo the width.
pub fn written_grants_are_tight()
    ensures tight { (most : ℕ) (records : List EpochRecord) → most ≤ MOST_NAMED → AreTightRecords most records
        → IsTightList most (records_of (grants_text records)) }
    ensures printed { (most width : ℕ) (records : List EpochRecord) → most ≤ MOST_NAMED
        → AreTightRecords most records
        → AllByRecursion (λ r. 0 < r.clients) records
        → printed_epochs width (records_of (grants_text records)) ≡ map (checked_epoch width) records }
{}

/// On one network commands have one text; so have commands, and the bytes of a schedule, on a network given by its kind
/// and width.
pub fn a_replay_has_one_text()
    ensures on_a_network { (network : Network) (commands : List Command) (text other : List ℕ)
        → IsNetwork network
        → IsReplayText network commands text → IsReplayText network commands other → text ≡ other }
    ensures of_commands { (net : Description) (commands : List Command) (text other : List ℕ)
        → IsReplayOfCommands net commands text → IsReplayOfCommands net commands other
        → text ≡ other }
    ensures of_bytes { (net : Description) (bytes text other : List ℕ)
        → IsReplayOf net bytes text → IsReplayOf net bytes other → text ≡ other }
{}

/// A network given by its kind and width has one text of its wiring.
pub fn a_wiring_has_one_text()
    ensures { (net : Description) (text other : List ℕ) → IsWiringOf net text → IsWiringOf net other
        → text ≡ other }
{}

/// Without carry each exit of each epoch of a run has its share of the epoch's clients for its count.
pub fn counts_are_shares()
    ensures { (w : ℕ) (epoch : BatchEpoch) (r : EpochRecord) → IsServed w 0 epoch r
        → r.counts.items ≡ shares (length epoch.clients.items) w }
{
    first_shares_are_shares();
}

/// A run whose names follow the order of the batch has one text: by one worker with one client in hand
/// [`cn_renamer::serve`] writes a function of the bytes that it reads, the network, the form, and whether counters are
/// carried.
pub fn a_run_in_order_has_one_text()
    ensures { (net : Description) (form : Form) (carry large : Bool) (bytes text other : List ℕ)
        → IsRunInOrder net form carry large bytes text → IsRunInOrder net form carry large bytes other
        → text ≡ other }
{
    batch_is_one();
}

/// What a run writes in the grants form, with carry or without, is a list that a check takes for tight: of a large
/// batch one that a check of a large list does. And a check by any width w reports the epochs of the batch, with as
/// many names `n` of `n mod w = i` as the share of exit i. Of the k names of an epoch that comes after m clients as
/// many have `(m + n) mod w = i` as the share of exit i in m + k clients minus that in m: with carry this is the exit's
/// count.
pub fn written_grants_are_accepted()
    ensures tight { (net : Description) (carry large : Bool) (bytes text : List ℕ)
        → IsRunOf net Grants carry large bytes text
        → IsTightList (bounds_of large 0).records (records_of text) }
    ensures printed { (net : Description) (carry large : Bool) (bytes text : List ℕ)
        → IsRunOf net Grants carry large bytes text
        → (epochs : List BatchEpoch)
        × IsBatch (bounds_of large (entries_of net.kind net.width)) (records_of bytes) epochs
        × ((w : ℕ) → printed_epochs w (records_of text) ≡ map (served_epoch w) epochs) }
    ensures after { (net : Description) (carry large : Bool) (bytes text : List ℕ)
        → IsRunOf net Grants carry large bytes text
        → (w m epoch : ℕ) → let names = names_in epoch (records_of text) in
        counts_after m w names ≡ shares_after m (length names) w }
{}
