//! The greatest differences that the checks of a table leave to its columns.
#![tactic(auto)]

mod asked;
mod gains;
mod noted;
mod systems;

pub use gains::{Gain, Gains};
pub use systems::{side, system_of};
