//! Regions, values in one space each of which stays where it was placed, and stores whose rows lie in one region.
#![tactic(auto)]

mod pools;
mod regions;
mod sources;

pub use pools::PoolStore;
pub use regions::{Region, Slot};
