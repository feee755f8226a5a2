ghost use Rattle.std.specs.Prelude.{◌≡◌, ◌<◌, ◌≤◌, length, slice_get, IfSome, MatchOption};
ghost use Rattle.std.specs.Prelude.{None as none};
ghost use Rattle.sv_app.specs.Fitting.{number_in};
ghost use Rattle.sv_app.specs.Lookups.{place_of, table_of, table_names};
ghost use Rattle.sv_app.specs.Schema.{declaration_of, schema_of};
ghost use Rattle.sv_app.specs.Slots.{item};
ghost use Rattle.sv_effect.specs.RunChanges.{key_in};
ghost use Rattle.sv_effect.specs.RunValues.{nothing};
ghost use Rattle.sv_workload.specs.Reading.{has_type, values_fit, row_fault, crowded, reserved, whole_code};
ghost use Rattle.sv_workload.specs.Rows.{init_row};

use crate::so_far::RowsSoFar;
use crate::written::Row;
use sv_app::limits::MOST_INIT_ROWS;
use sv_app::{Code, Column, FIRST_OF_ALL, Ident, InitRow, Table, Ty, is_fresh, is_named};
use sv_value::{Key, Val};

/// The place of the first table of that name.
pub fn table_place(tables: &[Table], name: &Ident) -> Option<usize>
    ensures place { result ≡ place_of name.now (table_names (schema_of tables.now)) }
    ensures within { IfSome result (λ place. place < length tables.now) }
    ensures table { MatchOption result (table_of (schema_of tables.now) name.now ≡ none) (λ place. table_of (schema_of tables.now) name.now ≡ slice_get (schema_of tables.now) place) }
{
    match tables {
        [table, rest @ ..] => {
            if is_named(&table.name, name) {
                return Some(0);
            }
            match table_place(rest, name) {
                Some(place) => Some(place + 1),
                None => None,
            }
        }
        [] => None,
    }
}

fn has_type(ty: Ty, value: &Val) -> bool
    ensures { result ≡ has_type ty value.now }
{
    match (ty, value) {
        (Ty::Int, Val::Int(_)) => true,
        (Ty::Text, Val::Text(_)) => true,
        _ => false,
    }
}

/// Whether there is a value of its type for each column.
fn values_fit(columns: &[Column], values: &[Val]) -> bool
    ensures { result ≡ values_fit columns.now values.now }
{
    match columns {
        [] => values.is_empty(),
        [column, more @ ..] => match values {
            [value, others @ ..] => has_type(column.ty, value) && values_fit(more, others),
            [] => false,
        },
    }
}

fn value_of(values: &[Val], column: &Ident) -> Val
    ensures { result ≡ item nothing values.now column.now.num }
{
    match values.get(column.num as usize) {
        Some(value) => *value,
        None => Val::Int(0),
    }
}

/// The key of a row whose table isn't known.
fn no_key() -> Key
    ensures { result ≡ record { first = nothing; second = none } }
{
    Key {
        first: Val::Int(0),
        second: None,
    }
}

/// The key of a row with these values.
fn key_of(table: &Table, values: &[Val]) -> Key
    ensures { result ≡ key_in (declaration_of table.now).key values.now }
{
    match table.key.as_slice() {
        [] => no_key(),
        [first] => Key {
            first: value_of(values, first),
            second: None,
        },
        [first, second, ..] => Key {
            first: value_of(values, first),
            second: Some(value_of(values, second)),
        },
    }
}

/// The initial row that a written row stands for.
pub fn init_row(tables: &[Table], row: Row) -> InitRow
    requires few { length tables.now ≤ 16 }
    ensures { result ≡ init_row (schema_of tables.now) row }
{
    let (table, key) = match table_place(tables, &row.table) {
        Some(place) => (place, key_of(&tables[place], row.values.items())),
        None => (0, no_key()),
    };
    InitRow {
        table: table as u16,
        key,
        spot: row.table.spot,
        values: row.values,
    }
}

/// What is wrong with the values and the place of a row of the table, behind these rows.
fn row_fault(table: &Table, rows: &RowsSoFar, row: &InitRow) -> Option<Code>
    ensures { result ≡ row_fault (declaration_of table.now) rows.now.rows row.now }
{
    if row.values.len() != table.columns.len() {
        return Some(Code::Typing);
    }
    if rows.has_place_of(row) {
        return Some(Code::Twice);
    }
    if values_fit(&table.columns, row.values.items()) {
        return None;
    }
    Some(Code::Typing)
}

/// Whether no row may stand behind these.
pub fn crowded(rows: &RowsSoFar) -> Option<Code>
    ensures { result ≡ crowded rows.now.rows }
{
    if rows.rows.len() >= MOST_INIT_ROWS {
        return Some(Code::Many);
    }
    None
}

fn number_in(value: &Val) -> i64
    ensures { result ≡ number_in value.now }
{
    match value {
        Val::Int(number) => *number,
        Val::Text(_) => 0,
    }
}

/// Whether the row has a key that its table draws.
fn reserved(table: &Table, row: &InitRow) -> Option<Code>
    ensures { result ≡ reserved (declaration_of table.now) row.now }
{
    if is_fresh(table) && number_in(&row.key.first) >= FIRST_OF_ALL {
        return Some(Code::Reserved);
    }
    None
}

/// What is wrong with a whole row of the table, behind these rows.
pub fn whole_code(table: &Table, rows: &RowsSoFar, row: &InitRow) -> Option<Code>
    ensures { result ≡ whole_code (declaration_of table.now) rows.now.rows row.now }
{
    if let Some(code) = row_fault(table, rows, row) {
        return Some(code);
    }
    if let Some(code) = crowded(rows) {
        return Some(code);
    }
    reserved(table, row)
}
