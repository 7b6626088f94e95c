//! Tests of callers of a floor: those of cn_clients, in threads, a floor that a struct keeps, and naming by one call.
//! They show what no clause can name.
#![tactic(auto)]

#[cfg(test)]
mod clients;
#[cfg(test)]
mod held;
#[cfg(test)]
mod named;
#[cfg(test)]
mod slots;
