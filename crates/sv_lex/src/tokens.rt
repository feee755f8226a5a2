use crate::marks::Mark;
use sv_value::{Name, Spot, Text};

/// What a token is.
#[derive(Clone, Copy, Debug, PartialEq, Eq)]
pub enum TokenKind {
    Name(Name),
    Number(i64),
    Text(Text),
    Mark(Mark),
}

/// A token: its bytes are those of the document from the place `from` up to the place `to`, counted from 0, and `spot`
/// is the line and the column of its first byte.
#[derive(Clone, Copy, Debug, PartialEq, Eq)]
pub struct Token {
    pub kind: TokenKind,
    pub from: u32,
    pub to: u32,
    pub spot: Spot,
}
