//! What operations change: changes of rows, the tables that they make, and the tables of a cut; and sources of rows.
#![tactic(auto)]

mod asks;
mod cells;
mod changes;
mod keys;
mod laws;
mod left;
mod noted;
mod ops;
mod outcomes;
mod reads;
mod rows;
mod seen;
mod values;
mod writes;

pub use asks::{ask_after, ask_next, ask_row};
pub use cells::{Cell, Row};
pub use changes::apply_row;
pub use keys::{present_after, present_keys, put_key};
pub use laws::{
    any_sequence, fitting_kept, greatest_is, newer_wins, one_more, unthreatened_commute,
};
pub use left::{LeftRow, copy_values, is_place, left_at, look};
pub use noted::{Noted, Reads};
pub use ops::{Need, Op, RowEffect, Write};
pub use outcomes::{Outcome, Ran};
pub use reads::{Ask, Halt, Read, Seen, Told};
pub use rows::{RowStore, Rows};
pub use sv_app::Got;
pub use values::{column, got_of, key_values, prepend, put_got, zero_of, zeros};
pub use writes::make_writes;
