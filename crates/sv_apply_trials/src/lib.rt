//! Operations that runs make are applied to stores of both kinds, and both answer what is worked out by hand.
#![tactic(auto)]

mod answers;
mod numbers;
mod operations;
