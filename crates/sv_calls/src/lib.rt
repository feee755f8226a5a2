//! Documents of trials: an application, initial rows and the call of a transaction. And labels as texts.
#![tactic(auto)]

mod documents;
mod fitting;
mod texts;
mod troubles;

pub use documents::{Trial, application, store, trial_of};
pub use fitting::check_request;
pub use texts::{label_text, put, put_choices, put_text};
pub use troubles::Trouble;
