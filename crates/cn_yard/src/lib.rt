//! A yard: per wire a list of tokens from first to last, and a number of free records.
#![tactic(auto)]

mod dealing;
mod lines;
mod marks;
mod moves;
mod records;
mod token;
mod yard;

pub use token::Token;
pub use yard::Yard;
