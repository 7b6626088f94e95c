//! Tests of the floor: worked rows on one lane, on two and in sweeps, runs of epochs, carried words, every refusal,
//! room and quota at their limits, and that lanes and floors cross threads. They show what no clause can name.
#![tactic(auto)]

#[cfg(test)]
mod ample_memory;
#[cfg(test)]
mod asking;
#[cfg(test)]
mod carried;
#[cfg(test)]
mod crews;
#[cfg(test)]
mod dropped_lanes;
#[cfg(test)]
mod epochs;
#[cfg(test)]
mod epochs_after;
#[cfg(test)]
mod lists;
#[cfg(test)]
mod missing_lane;
#[cfg(test)]
mod one_lane;
#[cfg(test)]
mod one_worker;
#[cfg(test)]
mod own_threads;
#[cfg(test)]
mod refusals;
#[cfg(test)]
mod runners;
#[cfg(test)]
mod stalls;
#[cfg(test)]
mod sweeps;
#[cfg(test)]
mod takers;
#[cfg(test)]
mod threads;
#[cfg(test)]
mod two_lanes;
#[cfg(test)]
mod walks;
#[cfg(test)]
mod widest;
#[cfg(test)]
mod workers_after;
