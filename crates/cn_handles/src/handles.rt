//! What handles have, and what is done with it.

pub(crate) mod box_pointer;
pub(crate) mod client;
pub(crate) mod closing;
pub(crate) mod floor_record;
pub(crate) mod grants;
pub(crate) mod handle;
pub(crate) mod held;
pub(crate) mod held_lane;
pub(crate) mod held_taker;
pub(crate) mod joining;
pub(crate) mod moved;
pub(crate) mod naming;
pub(crate) mod opening;
pub(crate) mod question;
pub(crate) mod reading;
pub(crate) mod refusal;
