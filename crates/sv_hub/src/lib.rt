//! One value that threads take in turn. Its name stays, and its past only grows.
#![tactic(auto)]

mod histories;
mod hubs;
mod passes;
mod turns;
mod views;

pub use histories::History;
pub use hubs::Hub;
pub use passes::Pass;
pub use turns::Turn;
