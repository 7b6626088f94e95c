//! The callers of the pages that say so, word for word, each in a module of its own; and all public names, by the crates
//! that offer them.
#![tactic(auto)]

pub mod of_balancer;
pub mod of_bitonic;
pub mod of_cli;
pub mod of_core;
pub mod of_epoch;
pub mod of_exit;
pub mod of_floor;
pub mod of_ledger;
pub mod of_lists;
pub mod of_names;
pub mod of_nets;
pub mod of_periodic;
pub mod of_renamer;
pub mod of_report;
pub mod of_spec;
pub mod of_texts;
pub mod of_tree;
pub mod of_wiring;
pub mod of_yard;
pub mod public_names;
