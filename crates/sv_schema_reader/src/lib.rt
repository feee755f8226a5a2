//! Reads the tables of a document: what is read is what the grammar says, and a refusal stands at the first token that
//! no rule allows or that passes a limit.
#![tactic(auto)]

mod checks;
mod columns;
mod invariants;
mod laws;
mod parts;
mod reading;
mod tables;

pub use laws::refused_once;
pub use parts::{Order, Side};
pub use reading::read_schema;
