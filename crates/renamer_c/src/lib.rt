//! The floor for programs in C, C++ and Rust.
#![tactic(auto)]

mod answer;
mod asking;
mod closing;
mod granting;
mod joining;
mod naming;
mod opening;
mod reading;
mod stepping;
mod taking;
