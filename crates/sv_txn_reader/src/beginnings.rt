ghost use Rattle.std.specs.Prelude.{◌≡◌};
ghost use Rattle.sv_reader.specs.Reading.{by_word};
ghost use Rattle.sv_txn_reader.specs.Reading.{head_named, head_at, is_loop, may_begin};

use crate::heads::Head;
use sv_app::is_reserved;
use sv_lex::{Token, TokenKind};
use sv_reader::Reader;

fn head_named(word: &[u8]) -> Option<Head>
    ensures { result ≡ head_named word.now }
{
    if word == b"let".as_slice() {
        Some(Head::Let)
    } else if word == b"get".as_slice() {
        Some(Head::Get)
    } else if word == b"if".as_slice() {
        Some(Head::If)
    } else if word == b"for".as_slice() {
        Some(Head::For)
    } else if word == b"each".as_slice() {
        Some(Head::Each)
    } else if word == b"insert".as_slice() {
        Some(Head::Insert)
    } else if word == b"fresh".as_slice() {
        Some(Head::Fresh)
    } else if word == b"update".as_slice() {
        Some(Head::Update)
    } else if word == b"remove".as_slice() {
        Some(Head::Remove)
    } else if word == b"abort".as_slice() {
        Some(Head::Abort)
    } else if word == b"reply".as_slice() {
        Some(Head::Reply)
    } else if is_reserved(word) {
        None
    } else {
        Some(Head::Assign)
    }
}

fn head_of(token: &Token) -> Option<Head>
    ensures { result ≡ by_word head_named token.now.kind }
{
    match &token.kind {
        TokenKind::Name(name) => head_named(name.bytes()),
        _ => None,
    }
}

/// What statement begins with the next token.
pub fn head(reader: &Reader<'_>) -> Option<Head>
    ensures { result ≡ head_at reader.now.rest.now }
{
    match reader.rest {
        [token, ..] => head_of(token),
        [] => None,
    }
}

fn is_loop(head: Head) -> bool
    ensures { result ≡ is_loop head }
{
    match head {
        Head::For | Head::Each => true,
        _ => false,
    }
}

/// Whether a statement with this head may begin, where `looped` tells that it would stand in a loop.
pub fn may_begin(looped: bool, head: Option<Head>) -> bool
    ensures { result ≡ may_begin looped head }
{
    match head {
        Some(head) => !(looped && is_loop(head)),
        None => false,
    }
}
