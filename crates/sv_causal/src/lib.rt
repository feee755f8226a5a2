//! Causal delivery: whether a packet may be applied at a site yet, and the packets that came too early.
#![tactic(auto)]

mod inboxes;
mod readiness;

pub use inboxes::Inbox;
pub use readiness::{Readiness, first_missing, ready};
