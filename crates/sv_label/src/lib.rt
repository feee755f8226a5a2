//! What is known of each path before any run, and the label that it decides for a run.
#![tactic(auto)]

mod decisions;
mod dictionaries;
mod failures;
mod laws;
mod templates;

pub use decisions::decide;
pub use dictionaries::Dictionary;
pub use laws::finds_added;
pub use templates::Template;
