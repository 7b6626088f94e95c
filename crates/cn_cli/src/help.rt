//! What the help says of the formats of each subcommand, its limits and its statuses.

use crate::causes::{batch_causes, grant_causes, schedule_causes};
use cn_nets::Widths;
use cn_spec::limits::{MOST_CLIENTS, MOST_HAND, MOST_NAMED, MOST_RECORDS, MOST_WORKERS};
use std::alloc::{AllocError, Global};

/// The texts of help with the limits of the service, which the command line borrows.
#[derive(Drop)]
pub(crate) struct HelpTexts {
    /// Of subcommands whose help has limits.
    pub(crate) run: String,
    pub(crate) replay: String,
    pub(crate) check: String,
    /// Of the options of subcommands.
    pub(crate) width: String,
    pub(crate) divisor: String,
    pub(crate) workers: String,
    pub(crate) hand: String,
}

impl HelpTexts {
    /// All of them.
    pub(crate) fn new(alloc: Global) -> Result<HelpTexts, AllocError> {
        Ok(HelpTexts {
            run: run_help(alloc)?,
            replay: replay_help(alloc)?,
            check: check_help(alloc)?,
            width: format!(in alloc; "The width of the network: {}", Widths)?,
            divisor: format!(in alloc; "By what the names are divided for the counts: {}", Widths)?,
            workers: format!(in alloc;
                "How many workers share out the clients: 1 to {MOST_WORKERS}"
            )?,
            hand: format!(in alloc;
                "How many clients each worker walks at a time: 1 to {MOST_HAND}"
            )?,
        })
    }
}

/// Of the whole program.
pub(crate) const RENAMER: &str = "\
Input is CSV on standard input, under one of these headers:

  epoch,client,entry  a batch: run reads it
  epoch,client        a batch whose entries follow by rule: run reads it
  epoch,client,name   a grant list: run --form grants prints it, check reads it
  op,client,wire      a schedule: replay reads it

A batch, and a report of it:

    $ printf 'epoch,client\\n1,17\\n1,5\\n' |
        renamer run --network tree --width 2
    network tree width 2 balancers 1 depth 1
    epoch 1 clients 2
    exit 0 count 1
    exit 1 count 1
    name 0 client 17
    name 1 client 5
    end epochs 1 grants 2

The help of each command shows an input and what is printed for it.

Status:
  0  done
  1  the input is refused
  2  the command line is refused
  3  not finished: no memory, no arguments or random numbers from the system,
     or a write failed
  4  the grant list is not tight";

/// The long help of `run`, with the names of causes.
fn run_help(alloc: Global) -> Result<String, AllocError> {
    let causes = batch_causes(alloc)?;
    format!(in alloc;
        "\
Input: a batch, as CSV on standard input. After the header, each record is a
client: the epoch that it is in, its identity, and the entry that it comes to.
All are numbers below 2^64 in decimal digits. The records of an epoch stand
together, and the numbers of epochs rise. Entries are 0 to W-1, and a tree has
only entry 0. An epoch has at most {MOST_CLIENTS} clients, and a batch at most
{MOST_RECORDS} records besides the header; with `--large` each {MOST_NAMED}.
Under the header `epoch,client` a record has no entry: client C comes to entry C
modulo the number of entries.

    epoch,client,entry
    1,17,3
    1,5,3
    1,99,3
    1,23,3
    1,42,3
{RUN_OUTPUT}
{causes}

{RUN_STATUS}"
    )
}

const RUN_OUTPUT: &str = "
Output for it of `renamer run --network bitonic --width 4`, a report:

    network bitonic width 4 balancers 6 depth 3
    epoch 1 clients 5
    exit 0 count 2
    exit 1 count 1
    exit 2 count 1
    exit 3 count 1
    name 0 client 17
    name 1 client 5
    name 2 client 99
    name 3 client 23
    name 4 client 42
    end epochs 1 grants 5

Output with `--form grants`, a grant list for `renamer check`:

    epoch,client,name
    1,17,0
    1,5,1
    1,99,2
    1,23,3
    1,42,4

One worker walks each epoch, and several workers walk epochs side by side, as
many workers as the clients repay. A worker brings in its next clients until it
has H tokens in hand, walks them all out, and goes on so. The batch and H settle
the output, whatever K is. With one token in hand (the default) names follow the
order of the batch.

With `--carry` epochs run one after another, by one worker, and the network's
counters are not cleared between them. The k clients of an epoch after m earlier
ones have the names 0 to k-1 as ever, and each exit has its share of m + k
clients less its share of m.

With `--together` epochs run one after another, with `--carry` or without, and
all K workers walk each at once, on one network. Counts and names are the same,
but with several workers it is their steps that settle who has which name. This
is for seeing, testing and measuring threads on one network: it mostly takes
more processor time than one worker does.

A run prints nothing before its last epoch has ended. Then either form is
written in pieces.

A batch is refused at its first wrong record, by a line on standard error:

    renamer: record 2: Duplicate

Records count from 0: the header is record 0. An empty line has no number.
";

const RUN_STATUS: &str = "\
Status:
  0  done
  1  the batch is refused
  2  the command line is refused
  3  not finished: no memory, no arguments or random numbers from the system,
     or a write failed";

/// The long help of `replay`, with the names of causes.
fn replay_help(alloc: Global) -> Result<String, AllocError> {
    let causes = schedule_causes(alloc)?;
    format!(in alloc;
        "\
Input: a schedule, as CSV on standard input. After the header, each record is a
command; client C and wire U are numbers below 2^64 in decimal digits.

  enter,C,U  brings client C in on entry U
  step,C,    takes client C past its next balancer, or out with a name
  turn,,     ends the epoch, if nobody is inside

An epoch has at most {MOST_CLIENTS} clients, and a schedule at most {MOST_RECORDS}
records besides the header.

    op,client,wire
    enter,7,0
    turn,,
    step,7,
    step,7,
    turn,,
{REPLAY_OUTPUT}
{causes}

{REPLAY_STATUS}"
    )
}

const REPLAY_OUTPUT: &str = "
Output for it of `renamer replay --network bitonic --width 2`:

    network bitonic width 2 balancers 1 depth 1
    enter 7 wire 0
    refused turn NotQuiet 1
    pass 7 balancer 0 number 0 wire 2
    leave 7 exit 0 visit 0 name 0
    turn epoch 0 clients 1
    exit 0 count 1
    exit 1 count 0
    name 0 client 7
    end epoch 1 entered 0 inside 0

A command that is refused changes nothing, and the output says why:

  NoSuchEntry  an enter on a wire that is no entry
  AlreadyIn    an enter of a client that has entered in this epoch
  EpochFull    an enter into an epoch that has all the clients it may have
  Stranger     a step of a client that has not entered in this epoch
  HasName M    a step of a client that is out, and has name M
  NotQuiet S   a turn while S clients are inside

A replay prints nothing before its last command is answered. A schedule is
refused at its first wrong record, by a line on standard error:

    renamer: record 2: Op

Records count from 0: the header is record 0. An empty line has no number.
";

const REPLAY_STATUS: &str = "\
Status:
  0  done, also if commands are refused
  1  the schedule is refused
  2  the command line is refused
  3  not finished: no memory, no arguments or random numbers from the system,
     or a write failed";

/// The long help of `check`, with the names of causes.
fn check_help(alloc: Global) -> Result<String, AllocError> {
    let causes = grant_causes(alloc)?;
    format!(in alloc;
        "\
Input: a grant list, as CSV on standard input. After the header, each record is
a grant: an epoch, a client of it, and the name that this client has. All are
numbers below 2^64 in decimal digits. The records of an epoch stand together,
and the numbers of epochs rise. A list has at most {MOST_RECORDS} records besides
the header; with `--large` {MOST_NAMED}. It is tight if in each epoch no client
and no name stands twice, and the k grants have the names 0 to k-1.

    epoch,client,name
    1,17,0
    1,5,1
    1,99,2
    1,23,3
    1,42,4
{CHECK_OUTPUT}
{causes}

{CHECK_STATUS}"
    )
}

const CHECK_OUTPUT: &str = "
Output for it of `renamer check --width 4`; the counts say how many names of
the epoch have the remainders 0, 1, 2 and 3 when divided by the width, also of
a list that `renamer run --carry` printed:

    epoch 1 clients 5 counts 2 1 1 1
    tight epochs 1 grants 5

A list that is not tight has no output, and one such line on standard error:

    renamer: flaw: DuplicateClient record 2
    renamer: flaw: DuplicateName record 3
    renamer: flaw: Gap epoch 1 name 2

A list is refused at its first record that is no grant in its place:

    renamer: record 2: Form

Records count from 0: the header is record 0. An empty line has no number.
";

const CHECK_STATUS: &str = "\
Status:
  0  the list is tight
  1  the list is refused
  2  the command line is refused
  3  not finished: no memory, no arguments from the system, or a write failed
  4  the list is not tight";

/// Of the subcommand `show`.
pub(crate) const SHOW: &str = "\
No input is read. Output of `renamer show --network tree --width 4`:

    network tree width 4 balancers 3 depth 2
    wire 0 balancer 0
    wire 1 balancer 1
    wire 2 balancer 2
    wire 3 exit 0
    wire 4 exit 2
    wire 5 exit 1
    wire 6 exit 3
    end wires 7

The first wires are the entries: W of them, or one of a tree. After them come
the two outputs of balancer 0, then those of balancer 1, and so on.

Status:
  0  done
  2  the command line is refused
  3  not finished: no memory, no arguments from the system, or a write failed";
