ghost use Rattle.std.specs.Prelude.{◌≡◌, ◌≤◌, Ok, Err, length, IfOk, IfErr, IfSome};
ghost use Rattle.sv_lex.specs.Lexers.{fault_of};
ghost use Rattle.sv_lex.specs.Standing.{AreAll, IsFirst};
ghost use Rattle.sv_lex.specs.Tokens.{lexed};

use crate::lexers::Lexer;
use crate::stops::LexStop;
use crate::tokens::{Token, TokenKind};
use std::alloc::Global;

/// The tokens of a document, in order, or its first fault.
#[tactic(auto, using(crate::proofs::FrontLaws::front, crate::proofs::StandingLaws::standing))]
pub fn lex(alloc: Global, bytes: &[u8]) -> Result<Vec<Token>, LexStop>
    requires { length bytes.now ≤ 67108864 }
    ensures tokens { IfOk result (λ tokens. lexed bytes.now ≡ Ok tokens.items) }
    // each is the document's own bytes, they stand in order, and between them is only white space and comments
    ensures stand { IfOk result (λ tokens. AreAll bytes.now tokens.items) }
    ensures fault { IfErr result (λ stop. IfSome (fault_of stop) (λ fault. lexed bytes.now ≡ Err fault)) }
    // before it stand only whole tokens, white space and comments
    ensures first { IfErr result (λ stop. IfSome (fault_of stop) (λ fault. IsFirst bytes.now fault)) }
{
    // The check wants to see the type that is inside a token.
    let _kind: Option<TokenKind> = None;
    let mut lexer = Lexer::new(bytes);
    let mut tokens = Vec::new(alloc);
    while let Some(token) = lexer.next_token()? {
        tokens.push(token)?;
    }
    Ok(tokens)
}
