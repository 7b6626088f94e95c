//! What the program is asked for: the command line, and the options of a run.
#![tactic(auto)]

mod brief;
mod causes;
mod choices;
mod command_line;
mod help;
mod hint;
mod options;
mod words;

pub use options::{Form, OptionFault, Options};
pub use words::{Job, WordsFault, parse_words};
