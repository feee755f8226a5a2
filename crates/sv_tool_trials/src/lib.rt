//! Trials of the top call on memory: with a fault at each read and each write, and on documents that are broken or reach
//! past a limit.
#![tactic(auto)]

#[cfg(test)]
mod commands;
#[cfg(test)]
mod documents;
#[cfg(test)]
mod faults;
#[cfg(test)]
mod hostile;
