//! The balancer, of which counting networks are made (Aspnes, Herlihy, Shavit 1994, section 2.1).
//!
//! Tokens come to a balancer by two inputs, and leave it on two outputs by turns.
#![tactic(auto)]

mod balancer;
mod outputs;

pub use balancer::{Balancer, Pass};
pub use outputs::{departures, output_of};
