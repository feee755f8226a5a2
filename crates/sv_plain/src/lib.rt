//! The tables of a cut by the query that defines them, spelled in code: slow and direct, over lists, with each row computed
//! anew when it is asked for.
#![tactic(auto)]

mod cells;
mod changes;
mod rows;
mod sources;
mod tables;

pub use sources::PlainRows;
pub use tables::row_at;
