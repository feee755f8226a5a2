ghost use Rattle.std.specs.Prelude.{◌≡◌, OnOk, []};
ghost use Rattle.sv_reader.specs.Reading.{Reads, list_at};
ghost use Rattle.sv_workload.specs.Reading.{natural_of, natural_at, count_at, integer_at, value_at, value_step, row_at};

use crate::written::Row;
use std::alloc::Global;
use sv_lex::{Mark, Token, TokenKind};
use sv_reader::{ReadStop, Reader};
use sv_value::{List, Val};

/// The number that a token is.
pub fn natural_of(token: &Token) -> Option<i64>
    ensures { result ≡ natural_of token.now.kind }
{
    match &token.kind {
        TokenKind::Number(found) if *found >= 0 => Some(*found),
        _ => None,
    }
}

/// Reads a number.
fn natural(reader: &mut Reader<'_>) -> Result<i64, ReadStop>
    ensures { Reads (λ n. n) result reader.new.rest.now (natural_at reader.old.rest.now) }
{
    if let [token, rest @ ..] = reader.rest {
        if let Some(number) = natural_of(token) {
            reader.rest = rest;
            return Ok(number);
        }
    }
    Err(ReadStop::Faulty(reader.misplaced()))
}

/// Reads a number that counts.
pub fn count(reader: &mut Reader<'_>) -> Result<u64, ReadStop>
    ensures { Reads (λ n. n) result reader.new.rest.now (count_at reader.old.rest.now) }
{
    let number = natural(reader)?;
    Ok(number.unsigned_abs())
}

/// Reads a number with or without a sign.
#[tactic(auto, unfolding(crate::specs::Reading::integer_at))]
pub fn integer(reader: &mut Reader<'_>) -> Result<i64, ReadStop>
    ensures { Reads (λ n. n) result reader.new.rest.now (integer_at reader.old.rest.now) }
{
    if reader.is_mark(Mark::Minus) {
        reader.mark(Mark::Minus)?;
        let number = natural(reader)?;
        return Ok(-number);
    }
    natural(reader)
}

/// Reads an integer or a text.
#[tactic(auto, unfolding(crate::specs::Reading::value_at))]
pub fn value(reader: &mut Reader<'_>) -> Result<Val, ReadStop>
    ensures { Reads (λ value. value) result reader.new.rest.now (value_at reader.old.rest.now) }
{
    if reader.is_text() {
        return Ok(Val::Text(reader.text()?));
    }
    Ok(Val::Int(integer(reader)?))
}

#[tactic(auto, unfolding(crate::specs::Reading::value_step))]
fn add_value(reader: &mut Reader<'_>, values: &mut List<Val>) -> Result<(), ReadStop>
    ensures { Reads (λ _. values.new) result reader.new.rest.now (value_step values.old reader.old.rest.now) }
{
    let next = value(reader)?;
    values.push(next)?;
    Ok(())
}

/// Reads the values of a row, up to its parenthesis.
#[tactic(auto, unfolding(sv_reader::specs::Reading::list_at), using(crate::proofs::CommaLaws::values))]
fn values(alloc: Global, reader: &mut Reader<'_>) -> Result<List<Val>, ReadStop>
    ensures { Reads (λ values. values) result reader.new.rest.now (list_at value_step [] reader.old.rest.now) }
{
    let mut values = List::new(alloc);
    add_value(reader, &mut values)?;
    while reader.is_mark(Mark::Comma) {
        reader.mark(Mark::Comma)?;
        add_value(reader, &mut values)?;
    }
    reader.mark(Mark::RightParen)?;
    Ok(values)
}

/// Reads a row.
#[tactic(auto, unfolding(crate::specs::Reading::row_at))]
pub fn row(alloc: Global, reader: &mut Reader<'_>) -> Result<Row, ReadStop>
    ensures { Reads (λ row. row) result reader.new.rest.now (row_at reader.old.rest.now) }
{
    let table = reader.name()?;
    reader.mark(Mark::LeftParen)?;
    let values = values(alloc, reader)?;
    reader.mark(Mark::Semi)?;
    Ok(Row { table, values })
}
