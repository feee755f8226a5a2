//! What is known of an application before any run is right: laws alone.
#![tactic(auto)]

mod laws;

pub use laws::{decided_once, first_threat_once, frugal_covers, frugal_decides, frugal_is_right};
