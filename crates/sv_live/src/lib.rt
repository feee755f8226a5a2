//! Requests that threads answer on one world behind a hub, and packets that they take to its sites; and the workers that
//! serve all sessions of a document.
#![tactic(auto)]

mod answers;
mod attempts;
mod crews;
mod deliveries;
mod dues;
mod fetching;
mod gates;
mod offices;
mod requests;
mod serving;
mod tells;
mod turns;

pub use answers::{Attempt, Receipt};
pub use attempts::attempt;
pub use deliveries::deliver_some;
pub use gates::{Gate, OpenGate};
pub use requests::request;
pub use serving::serve;
