//! Whether a reason threatens a change, spelled in code as it is meant: slow and direct, over lists. For a check, rows
//! and choices of winning are tried one after the other, on numbers that aren't farther from zero than a reach.
#![tactic(auto)]

mod checks;
mod guesses;
mod laws;
mod plain;
mod rows;
mod rules;
mod threats;
mod writes;

pub use laws::within_is_threatened;
pub use threats::is_threatened;
