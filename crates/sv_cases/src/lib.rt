//! Cases as data, for the programs of trials: documents, a command on each, and the lines that are wanted of it.
//!
//! A case is the lines of a document, a line `--- COMMAND`, the lines that are wanted, and a line that begins with `===`,
//! behind which a title may stand. With the command `front` the lines before it are put in front of each document behind
//! it, and with `back` they are put behind each; these two want no lines.
#![tactic(auto)]

mod cases;

pub use cases::{Case, Cases};
