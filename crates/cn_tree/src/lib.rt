//! The counting tree (Shavit, Zemach 1996, section 2).
//!
//! Output 0 of its root feeds the tree that gives the even exits, and output 1 the tree that gives the odd ones;
//! [`tree`] builds the whole tree of a width.
#![tactic(auto)]

mod counting_tree;

pub use counting_tree::tree;
