//! Histories of a world, and the same with a damage: the first are judged legal, and the others aren't.
#![tactic(auto)]

mod copies;
mod damages;
mod documents;
mod histories;
