ghost use Rattle.std.specs.Prelude.{◌≡◌};
ghost use Rattle.sv_reader.specs.Reading.{by_word, Reads, token_at};
ghost use Rattle.sv_schema_reader.specs.Reading.{kind_named, type_named, merge_named, table_kind_at, column_type_at, merge_kind_at, column_at, key_at};

use sv_app::{Column, Ident, Kind, Merge, Ty};
use sv_lex::{Mark, Token, TokenKind};
use sv_reader::{ReadStop, Reader};

/// The two names of a key, or its only one.
#[derive(Clone, Copy, Debug)]
pub struct KeyNames {
    pub first: Ident,
    pub second: Option<Ident>,
}

fn kind_named(word: &[u8]) -> Option<Kind>
    ensures { result ≡ kind_named word.now }
{
    if word == b"AOSET".as_slice() {
        Some(Kind::Aoset)
    } else if word == b"UOSET".as_slice() {
        Some(Kind::Uoset)
    } else if word == b"AUSET".as_slice() {
        Some(Kind::Auset)
    } else if word == b"ARSET".as_slice() {
        Some(Kind::Arset)
    } else {
        None
    }
}

fn type_named(word: &[u8]) -> Option<Ty>
    ensures { result ≡ type_named word.now }
{
    if word == b"int".as_slice() {
        Some(Ty::Int)
    } else if word == b"text".as_slice() {
        Some(Ty::Text)
    } else {
        None
    }
}

fn merge_named(word: &[u8]) -> Option<Merge>
    ensures { result ≡ merge_named word.now }
{
    if word == b"LWW".as_slice() {
        Some(Merge::Lww)
    } else if word == b"NUMDELTA".as_slice() {
        Some(Merge::NumDelta)
    } else if word == b"FRESH".as_slice() {
        Some(Merge::Fresh)
    } else {
        None
    }
}

fn kind_of(token: &Token) -> Option<Kind>
    ensures { result ≡ by_word kind_named token.now.kind }
{
    match &token.kind {
        TokenKind::Name(name) => kind_named(name.bytes()),
        _ => None,
    }
}

fn type_of(token: &Token) -> Option<Ty>
    ensures { result ≡ by_word type_named token.now.kind }
{
    match &token.kind {
        TokenKind::Name(name) => type_named(name.bytes()),
        _ => None,
    }
}

fn merge_of(token: &Token) -> Option<Merge>
    ensures { result ≡ by_word merge_named token.now.kind }
{
    match &token.kind {
        TokenKind::Name(name) => merge_named(name.bytes()),
        _ => None,
    }
}

fn kind_word(reader: &mut Reader<'_>) -> Result<Kind, ReadStop>
    ensures { Reads (λ kind. kind) result reader.new.rest.now (token_at (λ token. by_word kind_named token.kind) reader.old.rest.now) }
{
    if let [token, rest @ ..] = reader.rest {
        if let Some(kind) = kind_of(token) {
            reader.rest = rest;
            return Ok(kind);
        }
    }
    Err(ReadStop::Faulty(reader.misplaced()))
}

fn merge_word(reader: &mut Reader<'_>) -> Result<Merge, ReadStop>
    ensures { Reads (λ merge. merge) result reader.new.rest.now (token_at (λ token. by_word merge_named token.kind) reader.old.rest.now) }
{
    if let [token, rest @ ..] = reader.rest {
        if let Some(merge) = merge_of(token) {
            reader.rest = rest;
            return Ok(merge);
        }
    }
    Err(ReadStop::Faulty(reader.misplaced()))
}

/// Reads the kind of a table, if one is written.
#[tactic(auto, unfolding(crate::specs::Reading::table_kind_at))]
pub fn table_kind(reader: &mut Reader<'_>) -> Result<Kind, ReadStop>
    ensures { Reads (λ kind. kind) result reader.new.rest.now (table_kind_at reader.old.rest.now) }
{
    if reader.is_mark(Mark::At) {
        reader.mark(Mark::At)?;
        return kind_word(reader);
    }
    Ok(Kind::Plain)
}

fn column_type(reader: &mut Reader<'_>) -> Result<Ty, ReadStop>
    ensures { Reads (λ ty. ty) result reader.new.rest.now (column_type_at reader.old.rest.now) }
{
    if let [token, rest @ ..] = reader.rest {
        if let Some(ty) = type_of(token) {
            reader.rest = rest;
            return Ok(ty);
        }
    }
    Err(ReadStop::Faulty(reader.misplaced()))
}

#[tactic(auto, unfolding(crate::specs::Reading::merge_kind_at))]
fn merge_kind(reader: &mut Reader<'_>) -> Result<Merge, ReadStop>
    ensures { Reads (λ merge. merge) result reader.new.rest.now (merge_kind_at reader.old.rest.now) }
{
    if reader.is_mark(Mark::At) {
        reader.mark(Mark::At)?;
        return merge_word(reader);
    }
    Ok(Merge::Plain)
}

/// Reads a column.
#[tactic(auto, unfolding(crate::specs::Reading::column_at))]
pub fn column(reader: &mut Reader<'_>) -> Result<Column, ReadStop>
    ensures { Reads (λ column. column) result reader.new.rest.now (column_at reader.old.rest.now) }
{
    let name = reader.name()?;
    let ty = column_type(reader)?;
    let merge = merge_kind(reader)?;
    Ok(Column { name, ty, merge })
}

/// Reads a primary key.
#[tactic(auto, unfolding(crate::specs::Reading::key_at))]
pub fn key(reader: &mut Reader<'_>) -> Result<KeyNames, ReadStop>
    ensures { Reads (λ key. (key.first, key.second)) result reader.new.rest.now (key_at reader.old.rest.now) }
{
    reader.word(b"primary")?;
    reader.word(b"key")?;
    reader.mark(Mark::LeftParen)?;
    let first = reader.name()?;
    if reader.is_mark(Mark::Comma) {
        reader.mark(Mark::Comma)?;
        let second = reader.name()?;
        reader.mark(Mark::RightParen)?;
        return Ok(KeyNames {
            first,
            second: Some(second),
        });
    }
    reader.mark(Mark::RightParen)?;
    Ok(KeyNames {
        first,
        second: None,
    })
}
