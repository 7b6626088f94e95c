//! Within what a batch and a list of grants keep.

ghost use Rattle.std.specs.Prelude.{◌≡◌, ◌<◌, ◌≤◌};
ghost use Rattle.cn_spec.specs.declared.limits.TheConstants.{MOST_NAMED};
ghost use Rattle.cn_texts.specs.Reading.Bounds.{AreBounds, bounds_of};

use cn_spec::limits::{MOST_CLIENTS, MOST_NAMED, MOST_RECORDS};

/// Within what a batch keeps: how many entries its network has, and how many clients an epoch and how many records the
/// batch has at most, the header aside.
#[derive(Clone, Copy, Debug, PartialEq, Eq)]
pub struct Bounds {
    /// How many entries the network has.
    pub entries: u32,
    /// The most clients of an epoch.
    pub clients: u64,
    /// The most records of the batch.
    pub records: u64,
}

impl Bounds {
    /// Those of a batch for a network with so many entries, which is large or not. A large one and each of its epochs
    /// have at most [`MOST_NAMED`] clients, another [`MOST_RECORDS`] and [`MOST_CLIENTS`]. A list of grants comes to no
    /// network, and its bounds are those of 0 entries.
    pub fn of(large: bool, entries: u32) -> Bounds
        ensures bounds { result ≡ bounds_of large entries }
        ensures fit { 0 < entries → AreBounds result }
        ensures few { result.records ≤ MOST_NAMED }
    {
        if large {
            Bounds {
                entries,
                clients: MOST_NAMED,
                records: MOST_NAMED,
            }
        } else {
            Bounds {
                entries,
                clients: MOST_CLIENTS,
                records: MOST_RECORDS,
            }
        }
    }
}
