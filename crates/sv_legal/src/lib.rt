//! Judges whether a given history is legal: slow and direct, entry by entry, on the tables that the entries before it give,
//! each row of which is computed anew from all operations.
#![tactic(auto)]

mod answers;
mod befores;
mod counts;
mod fitting;
mod histories;
mod lists;
mod same;

pub use histories::is_legal;
