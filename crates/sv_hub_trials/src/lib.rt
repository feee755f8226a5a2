//! A book behind a hub, into which threads write in turn.
#![tactic(auto)]

mod books;
#[cfg(test)]
mod writer_tests;
mod writers;

pub use books::{Book, Line};
pub use writers::{alternating_writers, four_writers, write_in_both};
