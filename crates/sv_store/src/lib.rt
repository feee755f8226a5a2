//! Stores: each site's rows, as lists of rows in the order of their places.
#![tactic(auto)]

mod rows;
mod sources;
mod stores;

pub use rows::{KeptRow, init_row, new_row};
pub use stores::ListStore;
