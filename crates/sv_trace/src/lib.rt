//! What traces and changes are like, whatever the rows answer.
#![tactic(auto)]

mod laws;

pub use laws::{changes_have_entries, runs_are_shaped, runs_make_their_tables};
