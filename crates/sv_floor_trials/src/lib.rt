//! Trials of the floor: values, bytes in and out, tokens, and systems of differences.
#![tactic(auto)]

#[cfg(test)]
mod bytes;
#[cfg(test)]
mod differences;
#[cfg(test)]
mod tokens;
#[cfg(test)]
mod values;
