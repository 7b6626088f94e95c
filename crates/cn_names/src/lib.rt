//! A finite map from clients to their standings: a token on its way, or a name.
#![tactic(auto)]

mod names;
mod standing;

pub use names::{ByNameFault, Names, NamesFault};
pub use standing::Standing;
