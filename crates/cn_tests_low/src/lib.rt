//! Tests of the crates below the core: worked rows, tables of networks wire by wire, limits at their last good and
//! first bad value, and that memory that is there is used. They show what no clause can name.
#![tactic(auto)]

#[cfg(test)]
mod balancers;
#[cfg(test)]
mod drafts;
#[cfg(test)]
mod exits;
#[cfg(test)]
mod names;
#[cfg(test)]
mod network_sizes;
#[cfg(test)]
mod networks;
#[cfg(test)]
mod small_lists;
#[cfg(test)]
mod wirings;
#[cfg(test)]
mod yards;
