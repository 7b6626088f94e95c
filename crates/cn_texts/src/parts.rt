//! The parts of the texts, of which others are put together, as a report of records that have their counts: each puts
//! its bytes after those that were put before ([`crate::Pieces`]). And what a record of a text spells, of which laws
//! speak.

pub use crate::grants::Granted;
pub use crate::grants::text::{send_header, send_names};
pub use crate::grants::tight::{send_tight_end, send_tight_head};
pub use crate::reading::{Arrival, Heading};
pub use crate::writing::line::{send_heading, send_number};
pub use crate::writing::outcome::{send_exits, send_holders};
pub use crate::writing::report::{send_epoch_line, send_report_end};
