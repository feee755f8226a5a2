//! Applications and documents as the reader gives them, and what is refused.
#![tactic(auto)]

mod acts;
mod apps;
mod draws;
mod gots;
mod instances;
pub mod limits;
mod names;
mod parts;
mod places;
mod reasons;
mod refusals;
mod requests;
mod schemas;
mod txns;
mod words;

pub use acts::Act;
pub use apps::{App, Ident, is_named};
pub use draws::{FIRST_OF_ALL, draws_differ, first_key, is_fresh};
pub use gots::Got;
pub use instances::{Instance, Source};
pub use names::{Declared, Known, Meaning};
pub use parts::{Parts, each, if_else, parts_of, rows};
pub use places::Place;
pub use reasons::Reason;
pub use refusals::{Code, Refusal, Stop};
pub use requests::{Arg, InitRow, Request};
pub use schemas::{Check, Column, Inv, InvBody, Kind, Merge, Table, Ty, is_key};
pub use txns::{Cond, Expr, Rel, Stmt, Txn, spot_of};
pub use words::is_reserved;
