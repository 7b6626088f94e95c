//! Networks of balancers as tables: where each wire ends, and which tables count.
//!
//! A [`Wiring`] is a table of wire ends. A [`Counting`] is a wiring that counts: its exits have the step property for
//! every input (Aspnes, Herlihy, Shavit 1994, section 2.2).
#![tactic(auto)]

mod counting;
mod end;
mod fault;
mod kind;
mod wiring;

pub use counting::Counting;
pub use end::End;
pub use fault::WiringFault;
pub use kind::Kind;
pub use wiring::Wiring;
