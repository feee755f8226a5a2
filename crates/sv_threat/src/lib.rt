//! Labels of concrete changes: which of them another site's operation could make break an invariant, and why.
#![tactic(auto)]

mod cases;
mod first;
mod found;
mod label;
mod labels;
mod laws;
mod moves;
mod rules;
mod ways;

pub use label::Label;
pub use labels::label_now;
pub use laws::cases_decide;
pub use moves::{Case, Move};
