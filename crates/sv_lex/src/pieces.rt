ghost use Rattle.std.specs.Prelude.{◌≡◌, ◌+◌, ◌<◌, ◌≤◌, ◌∷◌, IsTrue, length, drop, take_while};
ghost use Rattle.sv_value.specs.Names.{is_digit, is_name_byte, begins_with_letter};
ghost use Rattle.sv_value.specs.Texts.{is_text_byte};
ghost use Rattle.sv_lex.specs.Lexers.{Finds, FindsIn, token_in};
ghost use Rattle.sv_lex.specs.Marks.{longest_mark};
ghost use Rattle.sv_lex.specs.Tokens.{name_piece, number_piece, text_piece, mark_piece, token_at};

use crate::marks::longest_mark;
use crate::numbers::number_of;
use crate::runs::{is_digit, is_letter, name_run, number_run, text_run};
use crate::stops::LexStop;
use crate::tokens::TokenKind;
use sv_value::{Name, Text};

/// What begins at a place: a token, and how many bytes it has.
#[derive(Clone, Copy, Debug, PartialEq, Eq)]
pub struct Found {
    pub kind: TokenKind,
    pub len: usize,
}

/// The name that the bytes begin with.
#[tactic(auto, using(crate::proofs::RunLaws::runs))]
fn name_at(at: u32, bytes: &[u8]) -> Result<Found, LexStop>
    requires { IsTrue (begins_with_letter bytes.now) }
    ensures { Finds result (name_piece at (take_while is_name_byte bytes.now)) }
{
    let name = name_run(bytes);
    match Name::new(name) {
        Some(found) => Ok(Found {
            kind: TokenKind::Name(found),
            len: name.len(),
        }),
        None => Err(LexStop::LongName { at }),
    }
}

/// The number that the bytes begin with.
#[tactic(auto, using(crate::proofs::RunLaws::runs))]
fn number_at(at: u32, bytes: &[u8]) -> Result<Found, LexStop>
    ensures { Finds result (number_piece at (take_while is_digit bytes.now)) }
{
    let digits = number_run(bytes);
    match number_of(digits) {
        Some(number) => Ok(Found {
            kind: TokenKind::Number(number),
            len: digits.len(),
        }),
        None => Err(LexStop::LongNumber { at }),
    }
}

/// The text whose first quote stands before the bytes.
#[tactic(auto, using(crate::proofs::RunLaws::runs))]
fn text_at(at: u32, behind: &[u8]) -> Result<Found, LexStop>
    requires { at + length behind.now < 67108864 }
    ensures { Finds result (text_piece at (take_while is_text_byte behind.now) (drop (length (take_while is_text_byte behind.now)) behind.now)) }
{
    let text = text_run(behind);
    let Some(found) = Text::new(text) else {
        return Err(LexStop::LongText { at });
    };
    match &behind[text.len()..] {
        [b'\'', ..] => Ok(Found {
            kind: TokenKind::Text(found),
            len: text.len() + 2,
        }),
        _ => Err(LexStop::BadByte {
            at: at + 1 + text.len() as u32,
        }),
    }
}

/// The mark that the bytes begin with.
fn mark_at(at: u32, bytes: &[u8]) -> Result<Found, LexStop>
    ensures { Finds result (mark_piece at (longest_mark bytes.now)) }
{
    match longest_mark(bytes) {
        Some(mark) => Ok(Found {
            kind: TokenKind::Mark(mark),
            len: mark.bytes().len(),
        }),
        None => Err(LexStop::BadByte { at }),
    }
}

/// The token that begins at the place `at` with this byte of those behind the place.
#[tactic(auto, unfolding(crate::specs::Tokens::token_at))]
fn token_at(at: u32, bytes: &[u8], first: u8, behind: &[u8]) -> Result<Found, LexStop>
    requires parts { bytes.now ≡ first ∷ behind.now }
    requires short { at + length bytes.now ≤ 67108864 }
    ensures { Finds result (token_at at first behind.now) }
{
    if is_letter(first) {
        name_at(at, bytes)
    } else if is_digit(first) {
        number_at(at, bytes)
    } else if first == b'\'' {
        text_at(at, behind)
    } else {
        mark_at(at, bytes)
    }
}

/// The token that the bytes behind the place `at` begin with, unless there are none.
pub fn token_in(at: u32, bytes: &[u8]) -> Result<Option<Found>, LexStop>
    requires { at + length bytes.now ≤ 67108864 }
    ensures { FindsIn result (token_in at bytes.now) }
{
    match bytes {
        [] => Ok(None),
        [first, behind @ ..] => Ok(Some(token_at(at, bytes, *first, behind)?)),
    }
}
