ghost use Rattle.std.specs.Prelude.{◌≡◌, ◌+◌, ◌<◌, ◌≤◌, None, length, drop, IfOk, IfSome};
ghost use Rattle.sv_lex.specs.Lexers.{Gives, gap_in, tokens_at};
ghost use Rattle.sv_lex.specs.Spots.{spot_at};

use crate::gaps::gap_in;
use crate::pieces::token_in;
use crate::spots::moved;
use crate::stops::LexStop;
use crate::tokens::Token;
use sv_value::Spot;

/// Reads the tokens of a document from its beginning on: those before the place `at` are read.
#[derive(Drop)]
pub struct Lexer<'a> {
    pub bytes: &'a [u8],
    pub at: usize,
    pub spot: Spot,
    ghost short: { length bytes.now ≤ 67108864 },
    ghost within: { at ≤ length bytes.now },
    ghost placed: { spot ≡ spot_at bytes.now at },
}

impl<'a> Lexer<'a> {
    /// At the beginning of the document.
    pub fn new(bytes: &'a [u8]) -> Lexer<'a>
        requires { length bytes.now ≤ 67108864 }
        ensures bytes { result.bytes.now ≡ bytes.now }
        ensures at { result.at ≡ 0 }
    {
        Lexer {
            bytes,
            at: 0,
            spot: Spot { line: 1, col: 1 },
        }
    }

    /// The bytes that are left.
    fn rest(&self) -> &[u8]
        ensures { result.now ≡ drop self.now.at self.now.bytes.now }
    {
        &self.bytes[self.at..]
    }

    /// Goes past so many bytes.
    fn pass(&mut self, count: usize)
        requires { self.old.at + count ≤ length self.old.bytes.now }
        ensures bytes { self.new.bytes.now ≡ self.old.bytes.now }
        ensures at { self.new.at ≡ self.old.at + count }
    {
        let at = self.at + count;
        *self = Lexer {
            bytes: self.bytes,
            at,
            spot: moved(self.bytes, self.at, self.spot, at),
        };
    }

    /// Goes past white space and comments.
    fn skip_gaps(&mut self)
        ensures bytes { self.new.bytes.now ≡ self.old.bytes.now }
        ensures same { tokens_at self.new.bytes.now self.new.at ≡ tokens_at self.old.bytes.now self.old.at }
        ensures none { gap_in (drop self.new.at self.new.bytes.now) ≡ None }
        ensures later { self.old.at ≤ self.new.at }
    {
        while let Some(count) = gap_in(self.rest()) {
            self.pass(count);
        }
    }

    /// The next token, if there is one.
    pub fn next_token(&mut self) -> Result<Option<Token>, LexStop>
        ensures bytes { self.new.bytes.now ≡ self.old.bytes.now }
        ensures gives { Gives result (tokens_at self.old.bytes.now self.old.at) (tokens_at self.new.bytes.now self.new.at) }
        ensures later { IfOk result (λ found. IfSome found (λ _. self.old.at < self.new.at)) }
    {
        self.skip_gaps();
        let Some(found) = token_in(self.at as u32, self.rest())? else {
            return Ok(None);
        };
        let token = Token {
            kind: found.kind,
            from: self.at as u32,
            to: (self.at + found.len) as u32,
            spot: self.spot,
        };
        self.pass(found.len);
        Ok(Some(token))
    }
}
