//! Cuts a document into tokens, each with its place.
#![tactic(auto)]

mod gaps;
mod lexers;
mod lexing;
mod marks;
mod numbers;
mod pieces;
mod runs;
mod spots;
mod stops;
mod tokens;

pub use lexing::lex;
pub use marks::Mark;
pub use spots::spot_of;
pub use stops::LexStop;
pub use tokens::{Token, TokenKind};
