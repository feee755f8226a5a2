ghost use Rattle.std.specs.Prelude.{◌≡◌};
ghost use Rattle.sv_reader.specs.Reading.{is_mark, name_of};

use crate::faults::{ReadFault, ReadStop};
use sv_app::{Code, Ident, is_reserved};
use sv_lex::{Mark, Token, TokenKind};
use sv_value::{Spot, Text};

/// Reads tokens from left to right: `rest` are those that are left.
#[derive(Drop)]
pub struct Reader<'a> {
    pub rest: &'a [Token],
}

fn is_mark(wanted: Mark, found: Mark) -> bool
    ensures { result ≡ is_mark wanted found }
{
    found.bytes() == wanted.bytes()
}

/// The name that a token is, unless it is a reserved word.
pub fn name_of(token: &Token) -> Option<Ident>
    ensures { result ≡ name_of token.now }
{
    match &token.kind {
        TokenKind::Name(name) if !is_reserved(name.bytes()) => Some(Ident {
            name: *name,
            spot: token.spot,
            num: 0,
        }),
        _ => None,
    }
}

impl Reader<'_> {
    ghost use Rattle.std.specs.Prelude.{length};
    ghost use Rattle.sv_app.specs.declared.refusals.Code.TheVariants.{Syntax, Many};
    ghost use Rattle.sv_lex.specs.declared.tokens.TokenKind.TheVariants.{Name as IsName, Mark as OfMark};
    ghost use Rattle.sv_reader.specs.Reading.{Reads, is_next, is_name, kind_at, name_at, int_at, text_of, token_at, is_text};

    /// The fault of a token that no rule allows here.
    pub fn misplaced(&self) -> ReadFault
        ensures { result ≡ record { code = Syntax; left = length self.now.rest.now } }
    {
        ReadFault {
            code: Code::Syntax,
            left: self.rest.len(),
        }
    }

    /// The fault of an element that passes a limit and begins here.
    pub fn too_many(&self) -> ReadFault
        ensures { result ≡ record { code = Many; left = length self.now.rest.now } }
    {
        ReadFault {
            code: Code::Many,
            left: self.rest.len(),
        }
    }

    /// Whether the next token is this word.
    pub fn is_word(&self, wanted: &[u8]) -> bool
        ensures { result ≡ is_next (IsName wanted.now) self.now.rest.now }
    {
        match self.rest {
            [token, ..] => match &token.kind {
                TokenKind::Name(name) => name.bytes() == wanted,
                _ => false,
            },
            [] => false,
        }
    }

    /// Whether the next token is this mark.
    pub fn is_mark(&self, wanted: Mark) -> bool
        ensures { result ≡ is_next (OfMark wanted) self.now.rest.now }
    {
        match self.rest {
            [token, ..] => match &token.kind {
                TokenKind::Mark(found) => is_mark(wanted, *found),
                _ => false,
            },
            [] => false,
        }
    }

    /// Whether the next token is a name.
    pub fn is_name(&self) -> bool
        ensures { result ≡ is_name self.now.rest.now }
    {
        match self.rest {
            [token, ..] => name_of(token).is_some(),
            [] => false,
        }
    }

    /// Whether the next token is a text.
    pub fn is_text(&self) -> bool
        ensures { result ≡ is_text self.now.rest.now }
    {
        match self.rest {
            [token, ..] => match &token.kind {
                TokenKind::Text(_) => true,
                _ => false,
            },
            [] => false,
        }
    }

    /// Reads this word, and says where it stands.
    pub fn word(&mut self, wanted: &[u8]) -> Result<Spot, ReadStop>
        ensures { Reads (λ spot. spot) result self.new.rest.now (kind_at (IsName wanted.now) self.old.rest.now) }
    {
        if self.is_word(wanted) {
            if let [token, rest @ ..] = self.rest {
                let spot = token.spot;
                self.rest = rest;
                return Ok(spot);
            }
        }
        Err(ReadStop::Faulty(self.misplaced()))
    }

    /// Reads this mark, and says where it stands.
    pub fn mark(&mut self, wanted: Mark) -> Result<Spot, ReadStop>
        ensures { Reads (λ spot. spot) result self.new.rest.now (kind_at (OfMark wanted) self.old.rest.now) }
    {
        if self.is_mark(wanted) {
            if let [token, rest @ ..] = self.rest {
                let spot = token.spot;
                self.rest = rest;
                return Ok(spot);
            }
        }
        Err(ReadStop::Faulty(self.misplaced()))
    }

    /// Reads a name.
    pub fn name(&mut self) -> Result<Ident, ReadStop>
        ensures { Reads (λ ident. ident) result self.new.rest.now (name_at self.old.rest.now) }
    {
        if let [token, rest @ ..] = self.rest {
            if let Some(ident) = name_of(token) {
                self.rest = rest;
                return Ok(ident);
            }
        }
        Err(ReadStop::Faulty(self.misplaced()))
    }

    /// Reads a number.
    pub fn number(&mut self) -> Result<i64, ReadStop>
        ensures { Reads (λ n. n) result self.new.rest.now (int_at self.old.rest.now) }
    {
        if let [token, rest @ ..] = self.rest {
            if let TokenKind::Number(found) = &token.kind {
                let number = *found;
                self.rest = rest;
                return Ok(number);
            }
        }
        Err(ReadStop::Faulty(self.misplaced()))
    }

    /// Reads a text.
    pub fn text(&mut self) -> Result<Text, ReadStop>
        ensures { Reads (λ text. text) result self.new.rest.now (token_at text_of self.old.rest.now) }
    {
        if let [token, rest @ ..] = self.rest {
            if let TokenKind::Text(found) = &token.kind {
                let text = *found;
                self.rest = rest;
                return Ok(text);
            }
        }
        Err(ReadStop::Faulty(self.misplaced()))
    }
}
