//! What is left of the atoms of a path by its facts, with certificates.
#![tactic(auto)]

mod judged;
mod laws;
mod leaving;

pub use laws::{dropped_hold, false_rows_say, left_exactly, left_once};
pub use leaving::simplify;
