//! Reads the tokens of a document from left to right: words, marks, names, numbers and texts, or the fault of the first
//! token that no rule allows.
#![tactic(auto)]

mod faults;
mod places;
mod readers;

pub use faults::{ReadFault, ReadStop};
pub use places::{refusal_of, spot_of};
pub use readers::{Reader, name_of};
