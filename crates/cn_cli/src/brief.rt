//! The program and its jobs in brief: how each is called, what it does, and what `-h` ends with.

/// The version of the program. It is that of the file `VERSION`.
pub(crate) const VERSION: &str = "1.0.0";

/// What the help of the program, or of a job, says beside its options.
#[derive(Clone, Copy)]
pub(crate) struct Brief {
    /// How it is called.
    pub(crate) usage: &'static str,
    /// What it does.
    pub(crate) about: &'static str,
    /// What its short help ends with.
    pub(crate) end: &'static str,
}

pub(crate) const RENAMER: Brief = Brief {
    usage: "renamer <COMMAND> [OPTIONS] < FILE",
    about: "Numbers the clients of each epoch from 0 to k-1, by counting networks",
    end: "\
A batch of two clients, who get the names 0 and 1:

    $ printf 'epoch,client\\n1,17\\n1,5\\n' |
        renamer run --network tree --width 2

`renamer COMMAND -h` lists the options of a command. `--help` has its formats,
an example with its output, and the statuses.",
};

pub(crate) const RUN: Brief = Brief {
    usage: "renamer run --network <N> --width <W> [OPTIONS] < FILE",
    about: "Reads a batch, gives the clients of each epoch their names, and prints them",
    end: "\
The file is CSV with the header `epoch,client,entry` or `epoch,client`. `--help`
has the formats, an example with its output, and the statuses.",
};

pub(crate) const REPLAY: Brief = Brief {
    usage: "renamer replay --network <N> --width <W> < FILE",
    about: "Reads a schedule of enters, steps and turns, and prints what each is answered",
    end: "\
The file is CSV with the header `op,client,wire`. `--help` has the formats, an
example with its output, and the statuses.",
};

pub(crate) const CHECK: Brief = Brief {
    usage: "renamer check --width <W> [OPTIONS] < FILE",
    about: "Reads a list of grants, and says whether its names are tight: 0 to k-1 in each epoch, each once",
    end: "\
The file is CSV with the header `epoch,client,name`. `--help` has the formats,
an example with its output, and the statuses.",
};

pub(crate) const SHOW: Brief = Brief {
    usage: "renamer show --network <N> --width <W>",
    about: "Prints where each wire of a network ends",
    end: "No input is read. `--help` has an example with its output, and the statuses.",
};
