//! Legal histories: which entries follow each other, and the laws that keep every site's tables valid; answers that are
//! prepared on rows that are asked for; the world with its events; and operations that are applied to a store.
#![tactic(auto)]

mod answers;
mod applying;
mod docs;
mod entries;
mod events;
mod fetches;
mod laws;
mod media;
mod numbers;
mod prepared;
mod publications;
mod rows;
mod sessions;
mod sheets;
mod sites;
mod world;

pub use answers::{Commit, Delivered, Gone, Ordered};
pub use applying::apply_all;
pub use docs::{Doc, Item};
pub use entries::{Entry, Reply, Which};
pub use laws::{
    any_sequence, blues_are_safe, blues_lead, commit_once, cuts_closed, cuts_valid, delivery_once,
    equal_cuts, go_once, grown_stay, judged_once, kept_stay, lacked_unmade, legal_by_places,
    needs_hold, one_more, order_once, others_leave, places_stand, places_valid, prepared_is_safe,
    published_merges, settle_once, tables_stand,
};
pub use media::Medium;
pub use prepared::{Prepared, prepare};
pub use rows::SiteRows;
pub use sheets::Sheet;
pub use sites::SiteState;
pub use sv_threat::Label;
pub use world::World;
