//! The worked rows of the service that cross its crates, as tests: they show texts to the byte, what no clause can
//! name, and that memory that is there is used.
#![tactic(auto)]

#[cfg(test)]
mod at_a_gate;
#[cfg(test)]
mod batches;
#[cfg(test)]
mod carried;
#[cfg(test)]
mod checking;
#[cfg(test)]
mod command_lines;
#[cfg(test)]
mod cuts;
#[cfg(test)]
mod emitting;
#[cfg(test)]
mod failing;
#[cfg(test)]
mod fault_lines;
#[cfg(test)]
mod grants;
#[cfg(test)]
mod grants_form;
#[cfg(test)]
mod hostile;
#[cfg(test)]
mod job_texts;
#[cfg(test)]
mod listing;
#[cfg(test)]
mod meeting;
#[cfg(test)]
mod performing;
#[cfg(test)]
mod rendering;
#[cfg(test)]
mod replaying;
#[cfg(test)]
mod reports;
#[cfg(test)]
mod schedules;
#[cfg(test)]
mod serving;
#[cfg(test)]
mod showing;
#[cfg(test)]
mod three_epochs;
#[cfg(test)]
mod waiting;
#[cfg(test)]
mod words;
#[cfg(test)]
mod writers;
