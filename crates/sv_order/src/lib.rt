//! The one order of red operations: a slot for each, from 0.
#![tactic(auto)]

mod grants;
mod orders;

pub use grants::Granted;
pub use orders::RedOrder;
