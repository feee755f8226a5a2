//! A mailbox for each site, through which packets go from site to site: some are lost, put twice or held back.
#![tactic(auto)]

mod chaos;
mod logs;
mod mailboxes;
mod posts;

pub use chaos::{Fate, Plan, fate_of, plan_of};
pub use logs::Event;
pub use posts::{Post, PostPass};
