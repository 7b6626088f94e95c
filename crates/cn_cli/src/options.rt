//! What a run is asked for beside its batch.

ghost use Rattle.std.specs.Prelude.{◌≡◌, ◌↔◌, IfOk, IsErrOf, false, true};
ghost use Rattle.cn_cli.specs.Choices.{form_word};
ghost use Rattle.cn_spec.specs.Workers.{HandFits, WorkersFit};
ghost use Rattle.cn_cli.specs.Options.{SettingsFit, Settings};

use cn_nets::Net;
use cn_spec::limits::{MOST_HAND, MOST_WORKERS};
use std::marker::Model;
use thiserror::Error;

/// What a run writes.
#[derive(Clone, Copy, Debug, PartialEq, Eq)]
pub enum Form {
    /// The report: of each epoch its counts, and who has which name.
    Report,
    /// The grant list.
    Grants,
}

impl Form {
    /// The word for it on the command line.
    pub(crate) fn word(self) -> &'static str
        ensures { result.now ≡ form_word self }
    {
        match self {
            Form::Report => "report",
            Form::Grants => "grants",
        }
    }
}

/// What a run is asked for beside its batch: a network, how many workers share out the clients, how
/// many tokens each of them has in hand at most, what is written, whether the network's counters are
/// carried from epoch to epoch, whether the batch may be a large one, and whether the workers walk each epoch together.
/// To contracts it is these seven, and both numbers are within their limits.
#[derive(Clone, Copy, Debug, PartialEq, Eq)]
pub struct Options {
    net: Net,
    workers: u32,
    hand: u32,
    form: Form,
    carry: bool,
    large: bool,
    together: bool,
}

impl Model for Options {
    ghost use Rattle.cn_cli.specs.Options.{SettingsFit, Settings};

    ghost Value = { Settings };

    ghost view = { λ options. record {
      net = options.net;
      workers = options.workers;
      hand = options.hand;
      form = options.form;
      carry = options.carry;
      large = options.large;
      together = options.together;
    } };

    ghost invariant = { λ options. SettingsFit (record {
      net = options.net;
      workers = options.workers;
      hand = options.hand;
      form = options.form;
      carry = options.carry;
      large = options.large;
      together = options.together;
    }) };

    ghost inverse = { λ settings. record {
      net = settings.net;
      workers = settings.workers;
      hand = settings.hand;
      form = settings.form;
      carry = settings.carry;
      large = settings.large;
      together = settings.together;
    } };
}

/// Why no run is asked for so.
#[derive(Clone, Copy, Debug, PartialEq, Eq, Error)]
pub enum OptionFault {
    /// There are no workers, or more than [`MOST_WORKERS`].
    #[error("renamer: no such number of workers; allowed: 1 to {most}", most = MOST_WORKERS)]
    Workers,
    /// A worker would have no token in hand, or more than [`MOST_HAND`].
    #[error("renamer: no such hand; allowed: 1 to {most}", most = MOST_HAND)]
    Hand,
}

impl OptionFault {
    /// The status with which the program ends: 2.
    pub fn status(&self) -> u8
        ensures { result ≡ 2 }
    {
        2
    }
}

impl Options {
    /// A run on this network, by so many workers with so many tokens in hand each, which writes this
    /// form. It carries no counters, its batch is not a large one, and one worker walks each epoch.
    ///
    /// # Errors
    /// `OptionFault::Workers` if `workers` is not from 1 to [`MOST_WORKERS`]; else `OptionFault::Hand` if `hand` is not
    /// from 1 to [`MOST_HAND`].
    pub fn new(net: Net, workers: u32, hand: u32, form: Form) -> Result<Options, OptionFault>
        ensures ok { IfOk result (λ options. options
            ≡ record {
              net = net;
              workers = workers;
              hand = hand;
              form = form;
              carry = false;
              large = false;
              together = false;
            }) }
        ensures workers { IsErrOf result OptionFault.Workers ↔ (¬ WorkersFit workers) }
        ensures hand { IsErrOf result OptionFault.Hand ↔ (WorkersFit workers × (¬ HandFits hand)) }
    {
        // Its width shows that the network is built.
        let _width = net.width();
        if workers < 1 || workers > MOST_WORKERS {
            Err(OptionFault::Workers)
        } else if hand < 1 || hand > MOST_HAND {
            Err(OptionFault::Hand)
        } else {
            Ok(Options {
                net,
                workers,
                hand,
                form,
                carry: false,
                large: false,
                together: false,
            })
        }
    }

    /// The network.
    pub fn net(&self) -> Net
        ensures net { result ≡ self.now.net }
        ensures within { SettingsFit self.now }
    {
        self.net
    }

    /// How many workers share out the clients.
    pub fn workers(&self) -> u32
        ensures workers { result ≡ self.now.workers }
        ensures within { SettingsFit self.now }
    {
        self.workers
    }

    /// How many tokens each worker has in hand at most.
    pub fn hand(&self) -> u32
        ensures hand { result ≡ self.now.hand }
        ensures within { SettingsFit self.now }
    {
        self.hand
    }

    /// What is written.
    pub fn form(&self) -> Form
        ensures { result ≡ self.now.form }
    {
        self.form
    }

    /// The same run, which carries the network's counters from epoch to epoch.
    pub fn carried(self) -> Options
        ensures { result ≡ record self { carry = true } }
    {
        Options {
            carry: true,
            ..self
        }
    }

    /// Whether the network's counters are carried from epoch to epoch.
    pub fn carries(&self) -> bool
        ensures { result ≡ self.now.carry }
    {
        self.carry
    }

    /// The same run, whose batch may be a large one.
    pub fn enlarged(self) -> Options
        ensures { result ≡ record self { large = true } }
    {
        Options {
            large: true,
            ..self
        }
    }

    /// Whether the batch may be a large one.
    pub fn is_large(&self) -> bool
        ensures { result ≡ self.now.large }
    {
        self.large
    }

    /// The same run, whose workers walk each epoch together, on one network.
    pub fn walked_together(self) -> Options
        ensures { result ≡ record self { together = true } }
    {
        Options {
            together: true,
            ..self
        }
    }

    /// Whether the workers walk each epoch together. If they do not, one worker walks each epoch.
    pub fn walks_together(&self) -> bool
        ensures { result ≡ self.now.together }
    {
        self.together
    }
}
