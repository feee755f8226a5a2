//! Reads documents, checks, compiles and replays them, and writes what comes of them.
#![tactic(auto)]

mod answers;
mod checks;
mod compiles;
mod documents;
mod laws;
mod replays;
mod statuses;
mod texts;
mod tops;
mod words;

pub use laws::one_answer;
pub use tops::{plain, top};
pub use words::Words;
