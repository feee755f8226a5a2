//! The units of a transaction, and all paths of a unit.
#![tactic(auto)]

mod answers;
mod bodies;
mod laws;
mod listing;
mod tests;

pub use answers::{MOST_PATHS, Path, PathStop};
pub use bodies::{Unit, split, units};
pub use laws::{all_paths_are_one_list, paths_are_unit_paths, units_are_few};
pub use listing::paths;
