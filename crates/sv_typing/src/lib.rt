//! Decides which tables and transactions are accepted, and says of the others where and why they are refused.
#![tactic(auto)]

mod acceptance;
mod changes;
mod checks;
mod columns;
mod copies;
mod cycles;
mod declared;
mod expressions;
mod faults;
mod fills;
mod firsts;
mod invariants;
mod laws;
mod lookups;
mod named;
mod numbers;
mod references;
mod scopes;
mod seconds;
mod statements;
mod terms;
mod txn_numbers;
mod txns;
mod types;
mod values;

pub use acceptance::accept;
pub use laws::{
    columns_by_place, names_by_place, never_both, refused_once, tables_by_place, txns_by_place,
};
