//! Grant lists: what is read and what is written of them, and the text of one that is tight.

mod epochs;
mod list;
mod occurrences;
mod record;
pub(crate) mod text;
pub(crate) mod tight;

pub use epochs::NamedEpoch;
pub use list::named_grants_within;
pub use record::{Flaw, Granted};
pub use text::write_grants;
pub use tight::write_tight;
