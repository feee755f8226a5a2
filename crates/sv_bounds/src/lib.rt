//! Systems of differences `x - y <= most` over whole numbers: values that meet them or a cycle that shows there are none, and greatest differences.
#![tactic(auto)]

mod answers;
mod descents;
mod laws;
mod rounds;
mod settling;
mod systems;
mod walks;
mod widths;

pub use answers::{above, solve};
pub use laws::{answers_exclude, widths_exclude};
pub use systems::{Answer, Diff, MOST_BOUND, MOST_ROWS, MOST_VARS, System, Widest};
pub use widths::greatest;
