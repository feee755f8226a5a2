//! The dictionary of an application.
#![tactic(auto)]

mod answers;
mod changes;
mod compiling;
mod laws;
mod listing;
mod settings;
mod templates;

pub use compiling::compile;
pub use laws::{atoms_once, frugal_once};
pub use listing::{MOST_ATOMS, MOST_TEMPLATES};
