//! Tests of the core and of epochs: worked rows by single calls and by runs, lists of some thousand clients, an epoch
//! at its limit, and one that is walked out in reverse. They show what no clause can name.
#![tactic(auto)]

#[cfg(test)]
mod calls;
#[cfg(test)]
mod carried_twice;
#[cfg(test)]
mod epoch_calls;
#[cfg(test)]
mod full_core;
#[cfg(test)]
mod holders;
#[cfg(test)]
mod many_clients;
#[cfg(test)]
mod overtaking;
#[cfg(test)]
mod reverse_walkout;
#[cfg(test)]
mod two_wide;
