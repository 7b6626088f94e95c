//! What an epoch gave out.

/// What an epoch gave out: the counts of its exits, and who holds which name.
#[derive(Debug, Drop, PartialEq, Eq)]
pub struct EpochRecord {
    /// The epoch's number: of a turn how many ended before it, of a run that of the batch.
    pub number: u64,
    /// How many clients entered.
    pub clients: u64,
    /// How many clients of the epoch left by each exit, from exit 0 up.
    pub counts: Vec<u64>,
    /// Who holds each name, from name 0 up.
    pub holders: Vec<u64>,
}
