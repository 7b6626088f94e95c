//! What can be wrong with an input: the causes that fault lines name, in the order in which they are looked for. Help
//! shows these tables, and the manual page has them too, which `checks/pages/examples` compares.

use cn_spec::limits::{MOST_CLIENTS, MOST_NAMED, MOST_RECORDS};
use std::alloc::{AllocError, Global};

/// Of a batch.
pub(crate) fn batch_causes(alloc: Global) -> Result<String, AllocError> {
    format!(in alloc;
        "\
Causes; of several the first is given:

  Read            the input cannot be read: a folder, closed, not
                  blocking, or its device fails
  Header          record 0 is not `epoch,client,entry` or `epoch,client`
  FieldCount      the record has not as many fields as the header
  EpochNumber     the epoch is no number below 2^64 in 1 to 20 digits
  ClientNumber    the client is no such number
  EntryNumber     the entry is no such number
  EpochBackwards  the epoch is below that of the record before
  EntryRange      no such entry: 0 to W-1 are allowed, of a tree only 0
  Duplicate       the client is in this epoch already
  EpochFull       the epoch has {MOST_CLIENTS} clients already, or {MOST_NAMED} with
                  `--large`
  BatchFull       the batch has {MOST_RECORDS} records already, or {MOST_NAMED} with
                  `--large`"
    )
}

/// Of a schedule.
pub(crate) fn schedule_causes(alloc: Global) -> Result<String, AllocError> {
    format!(in alloc;
        "\
Causes; of several the first is given:

  Read            the input cannot be read: a folder, closed, not
                  blocking, or its device fails
  Header          record 0 is not `op,client,wire`
  FieldCount      the record has not three fields
  Op              the first field is not enter, step or turn
  ClientNumber    the client is no number below 2^64 in 1 to 20 digits, or
                  stands in a turn
  WireNumber      the wire is no such number, or stands in a step or a turn
  ScheduleFull    the schedule has {MOST_RECORDS} records already"
    )
}

/// Of a grant list.
pub(crate) fn grant_causes(alloc: Global) -> Result<String, AllocError> {
    format!(in alloc;
        "\
Causes; of several the first is given:

  Read             the input cannot be read: a folder, closed, not
                   blocking, or its device fails
  Form             record 0 is not `epoch,client,name`; or the record is not
                   three numbers below 2^64 in 1 to 20 digits, or its epoch
                   is below that of the record before;
                   or the list has {MOST_RECORDS} records already, or {MOST_NAMED}
                   with `--large`
  DuplicateClient  the client has a name in this epoch already
  DuplicateName    the name is given in this epoch already
  Gap              nobody in the epoch has the name, which is below its number
                   of grants"
    )
}
