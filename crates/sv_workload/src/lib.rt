//! Reads the initial rows of a document and what is to be done with it, or says where and why it is refused. And workloads
//! that a generator draws.
#![tactic(auto)]

mod call_marks;
mod calls;
mod checked;
mod inits;
mod laws;
mod line_marks;
mod lines;
mod longs;
mod makes;
mod parts;
mod reading;
mod replays;
mod rows;
mod sessions;
mod settings;
mod shops;
mod so_far;
mod values;
mod written;

pub use laws::refused_once;
pub use makes::made;
pub use parts::{Parts, Step, Work};
pub use reading::read_parts;
pub use shops::shop;
pub use written::{Call, Color, Given, PartHead, Row, Setting, Verb};
