//! Linear forms over the symbols of a path, what a path does in forms, and tests on them.
#![tactic(auto)]

mod effects;
mod facts;
mod forms;
mod laws;
mod left;
mod stops;
mod sums;
mod tests;
mod values;

pub use effects::{Shape, SymEffect, SymVal, SymWrite};
pub use facts::{Apart, difference_of, facts_of};
pub use forms::Form;
pub use laws::{differences_subtract, facts_say, multiples_scale, sums_add};
pub use left::{Dropped, KeptAtom, Left};
pub use stops::FormStop;
pub use sums::{add, number, scale, sub, symbol};
pub use tests::{Atom, Test};
pub use values::{holds, value};
