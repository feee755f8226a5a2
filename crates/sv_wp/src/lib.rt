//! The atoms of a change in forms, and what they say of the concrete changes that it stands for.
#![tactic(auto)]

mod cases;
mod gains;
mod held;
mod laws;
mod listing;
mod questions;
mod writes;

pub use gains::{GainTeller, TableGains};
pub use laws::{
    atoms_are_exact, atoms_decide, atoms_name, check_tests_decide, child_decides, list_decides,
    parent_decides, plain_decides, unique_decides,
};
pub use listing::{atoms, atoms_by};
