//! Trials of paths, of linear forms, of what facts leave of atoms, of causal delivery and of the order of red operations.
#![tactic(auto)]

#[cfg(test)]
mod forms;
#[cfg(test)]
mod inboxes;
#[cfg(test)]
mod kept;
#[cfg(test)]
mod paths;
#[cfg(test)]
mod readiness;
#[cfg(test)]
mod slots;
