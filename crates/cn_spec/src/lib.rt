//! The arithmetic of counting networks: halves, shares, names, what the bitonic and the periodic network and the
//! counting tree make of counts, and the limits of the service.
//!
//! The definitions stand in specs/. Their laws are the contracts of the functions of [`laws`].
#![tactic(auto)]

pub mod laws;
pub mod limits;
