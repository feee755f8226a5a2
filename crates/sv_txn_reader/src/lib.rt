//! Reads the transactions of a document: what is read is what the grammar says, and a refusal stands at the first token
//! that no rule allows or that passes a limit.
#![tactic(auto)]

mod beginnings;
mod blocks;
mod conditions;
mod counts;
mod graded;
mod heads;
mod laws;
mod reading;
mod statements;
mod terms;
mod txns;
mod values;

pub use counts::Counts;
pub use laws::refused_once;
pub use reading::read_txns;
