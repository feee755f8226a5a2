//! Runs transactions on rows that are asked for as they are needed.
#![tactic(auto)]

mod changes;
mod inserts;
mod keys;
mod loops;
mod made;
mod needs;
mod runs;
mod scopes;
mod settings;
mod slots;
mod statements;
mod states;
mod turns;
mod txns;
mod values;
mod writes;

pub use sv_effect::{Outcome, Ran};
pub use txns::{run_noted, run_txn};
