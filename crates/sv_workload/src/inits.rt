ghost use Rattle.std.specs.Prelude.{◌≡◌, ◌≤◌, ◌<◌, length, slice_get, MatchOption, true, []};
ghost use Rattle.std.specs.Prelude.{None as none};
ghost use Rattle.sv_app.specs.Schema.{schema_of};
ghost use Rattle.sv_lex.specs.declared.marks.Mark.TheVariants.{Percents};
ghost use Rattle.sv_lex.specs.declared.tokens.TokenKind.TheVariants.{Name as IsName, Mark as IsMark};
ghost use Rattle.sv_reader.specs.declared.faults.ReadStop.TheVariants.{Faulty};
ghost use Rattle.sv_reader.specs.Reading.{Reads, is_name, is_kind};
ghost use Rattle.sv_workload.specs.Reading.{table_meant, as_item, row_from, row_step, rows_from, begins_init, init_from};
ghost use Rattle.sv_workload.specs.Rows.{init_row};

use crate::rows::{crowded, init_row, table_place, whole_code};
use crate::so_far::RowsSoFar;
use crate::values::row;
use std::alloc::Global;
use sv_app::{Code, InitRow, Table};
use sv_lex::{Mark, Token, TokenKind};
use sv_reader::{ReadFault, ReadStop, Reader, name_of};
use sv_value::List;

/// The fault of an element that begins where so many tokens were left.
fn fault_at(code: Code, left: usize) -> ReadStop
    ensures { result ≡ Faulty (record { code = code; left = left }) }
{
    ReadStop::Faulty(ReadFault { code, left })
}

/// The place of the table that the first token names.
fn table_meant(tables: &[Table], tokens: &[Token]) -> Option<usize>
    ensures { MatchOption result (table_meant (schema_of tables.now) tokens.now ≡ none) (λ place. (place < length tables.now) × (table_meant (schema_of tables.now) tokens.now ≡ slice_get (schema_of tables.now) place)) }
{
    match tokens {
        [token, ..] => match name_of(token) {
            Some(name) => table_place(tables, &name),
            None => None,
        },
        [] => None,
    }
}

/// Reads the row of the table that stands at this place, behind these rows.
#[tactic(auto, unfolding(crate::specs::Reading::row_from))]
fn row_of(
    alloc: Global,
    reader: &mut Reader<'_>,
    tables: &[Table],
    rows: &RowsSoFar,
    place: usize,
) -> Result<InitRow, ReadStop>
    requires few { length tables.now ≤ 16 }
    requires within { place < length tables.now }
    requires meant { table_meant (schema_of tables.now) reader.old.rest.now ≡ slice_get (schema_of tables.now) place }
    ensures { Reads (λ row. row) result reader.new.rest.now (as_item (init_row (schema_of tables.now)) (row_from (schema_of tables.now) rows.now.rows reader.old.rest.now)) }
{
    let start = reader.rest.len();
    match row(alloc, reader) {
        Ok(written) => {
            let next = init_row(tables, written);
            match whole_code(&tables[place], rows, &next) {
                Some(code) => Err(fault_at(code, start)),
                None => Ok(next),
            }
        }
        Err(ReadStop::Faulty(fault)) => match crowded(rows) {
            Some(code) => Err(fault_at(code, start)),
            None => Err(ReadStop::Faulty(fault)),
        },
        Err(ReadStop::NoMemory) => Err(ReadStop::NoMemory),
    }
}

/// Reads the row that begins here, behind these rows.
#[tactic(auto, unfolding(crate::specs::Reading::row_from))]
fn next_row(
    alloc: Global,
    reader: &mut Reader<'_>,
    tables: &[Table],
    rows: &RowsSoFar,
) -> Result<InitRow, ReadStop>
    requires few { length tables.now ≤ 16 }
    ensures { Reads (λ row. row) result reader.new.rest.now (as_item (init_row (schema_of tables.now)) (row_from (schema_of tables.now) rows.now.rows reader.old.rest.now)) }
{
    match table_meant(tables, reader.rest) {
        Some(place) => row_of(alloc, reader, tables, rows, place),
        None => Err(fault_at(Code::Unknown, reader.rest.len())),
    }
}

/// Reads all rows that stand here.
#[tactic(auto, using(crate::proofs::TurnLaws::rows))]
fn rows(alloc: Global, reader: &mut Reader<'_>, tables: &[Table]) -> Result<List<InitRow>, ReadStop>
    requires few { length tables.now ≤ 16 }
    ensures { Reads (λ rows. rows) result reader.new.rest.now (rows_from (schema_of tables.now) [] reader.old.rest.now) }
{
    let mut rows = RowsSoFar::none(alloc);
    while reader.is_name() {
        let next = next_row(alloc, reader, tables, &rows)?;
        rows = rows.and(next)?;
    }
    Ok(rows.into_rows())
}

fn is_percents(token: &Token) -> bool
    ensures { result ≡ is_kind (IsMark Percents) token.now.kind }
{
    match &token.kind {
        TokenKind::Mark(mark) => mark.bytes() == Mark::Percents.bytes(),
        _ => false,
    }
}

pub fn is_word(token: &Token, word: &[u8]) -> bool
    ensures { result ≡ is_kind (IsName word.now) token.now.kind }
{
    match &token.kind {
        TokenKind::Name(name) => name.bytes() == word,
        _ => false,
    }
}

/// Whether initial rows begin here.
fn begins_init(tokens: &[Token]) -> bool
    ensures { result ≡ begins_init tokens.now }
{
    match tokens {
        [mark, word, ..] => is_percents(mark) && is_word(word, b"init"),
        _ => false,
    }
}

/// Reads the initial rows that stand here, if any.
#[tactic(auto, unfolding(crate::specs::Reading::init_from))]
pub fn init(
    alloc: Global,
    reader: &mut Reader<'_>,
    tables: &[Table],
) -> Result<List<InitRow>, ReadStop>
    requires few { length tables.now ≤ 16 }
    ensures { Reads (λ rows. rows) result reader.new.rest.now (init_from (schema_of tables.now) reader.old.rest.now) }
{
    if begins_init(reader.rest) {
        reader.rest = &reader.rest[2..];
        return rows(alloc, reader, tables);
    }
    Ok(List::new(alloc))
}
