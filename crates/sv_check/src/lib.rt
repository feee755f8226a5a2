//! Invariants of initial rows, and of the rows after changes.
#![tactic(auto)]

mod after;
mod broken;
mod changes;
mod clashes;
mod initial;
mod keys;
mod laws;
mod least;
mod rules;
mod verdicts;

pub use after::check_after;
pub use initial::check_all;
pub use laws::stores_start;
pub use verdicts::Verdict;
