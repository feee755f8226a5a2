//! Whether a change is plain: its sites must make it in one order.

ghost use Rattle.std.specs.Prelude.{◌≡◌};
ghost use Rattle.sv_app.specs.Kinds.{is_unmerged};
ghost use Rattle.sv_app.specs.Schema.{schema_of};
ghost use Rattle.sv_effect.specs.Applied.{columns_in, annotated_in, place_of};
ghost use Rattle.sv_effect.specs.RowChange.{turn_of};
ghost use Rattle.sv_effect.specs.RunChanges.{effect_of};
ghost use Rattle.sv_effect.specs.Threatened.{is_plain_change, is_plain_column, turns, writes_plain};

use sv_app::{Act, App, Column, Kind, Merge};
use sv_effect::{RowEffect, Write};

fn is_unmerged(merge: Merge) -> bool
    ensures { result ≡ is_unmerged merge }
{
    match merge {
        Merge::Plain | Merge::Fresh => true,
        Merge::Lww | Merge::NumDelta => false,
    }
}

/// Whether the column of this number is a plain one.
fn is_plain_column(columns: &[Column], number: u16) -> bool
    ensures { result ≡ is_plain_column columns.now number }
{
    match columns {
        [] => false,
        [column, rest @ ..] => {
            if number == 0 {
                is_unmerged(column.merge)
            } else {
                is_plain_column(rest, number - 1)
            }
        }
    }
}

/// Whether one of the columns that are written is plain.
fn writes_plain(columns: &[Column], writes: &[(u16, Write)]) -> bool
    ensures { result ≡ writes_plain columns.now writes.now }
{
    match writes {
        [] => false,
        [(number, _), rest @ ..] => {
            is_plain_column(columns, *number) || writes_plain(columns, rest)
        }
    }
}

/// Whether a row becomes present, or no longer is.
fn turns(act: Act) -> bool
    ensures { result ≡ turns (turn_of act) }
{
    match act {
        Act::Insert | Act::Fresh | Act::Remove => true,
        Act::Update => false,
    }
}

/// The columns of the change's table; none where it isn't declared.
fn columns_in<'a>(app: &'a App, change: &RowEffect) -> &'a [Column]
    ensures { result.now ≡ columns_in (schema_of app.now.tables.items) (place_of change.now) }
{
    match app.tables.get(change.table as usize) {
        Some(table) => table.columns.as_slice(),
        None => &[],
    }
}

/// Whether the change's table is annotated.
fn annotated_in(app: &App, change: &RowEffect) -> bool
    ensures { result ≡ annotated_in (schema_of app.now.tables.items) (place_of change.now) }
{
    match app.tables.get(change.table as usize) {
        Some(table) => table.kind != Kind::Plain,
        None => false,
    }
}

/// Whether the change writes a plain column, or inserts into or removes from an unannotated table.
pub fn is_plain_change(app: &App, change: &RowEffect) -> bool
    ensures { result ≡ is_plain_change (schema_of app.now.tables.items) (effect_of change.now) }
{
    writes_plain(columns_in(app, change), change.writes.as_slice())
        || (turns(change.act) && !annotated_in(app, change))
}
