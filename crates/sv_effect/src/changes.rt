ghost use Rattle.std.specs.Prelude.{◌≡◌, slice_get};
ghost use Rattle.sv_app.specs.Schema.{declaration_of};
ghost use Rattle.sv_effect.specs.StampedTables.{Stamped, row_of};
ghost use Rattle.sv_effect.specs.RowChange.{written, made, each, turned, marked, changed, is_annotated};
ghost use Rattle.sv_effect.specs.Fits.{CellsFit, ChangeFits, CountsFit};
ghost use Rattle.sv_effect.specs.Suits.{Suits, SuitsAt, with_cell, AllSuit};

use crate::cells::{Cell, Row};
use crate::ops::{RowEffect, Write};
use arrayvec::ArrayVec;
use sv_app::{Act, Kind, Table};
use sv_value::{Stamp, Val};

/// Whether rows of such a table are inserted and removed by the greatest stamp.
fn is_annotated(kind: Kind) -> bool
    ensures { result ≡ is_annotated kind }
{
    kind != Kind::Plain
}

/// The value of the greater stamp.
fn set_last(old: Val, before: Stamp, val: Val, stamp: Stamp) -> Cell
    ensures { result ≡ written stamp (Write.Set val) (Cell.Last old before) }
{
    if before.cmp(&stamp).is_lt() {
        Cell::Last { val, stamp }
    } else {
        Cell::Last {
            val: old,
            stamp: before,
        }
    }
}

/// The cell after the write.
fn write_cell(cell: Cell, write: Write, stamp: Stamp) -> Cell
    requires { Suits write cell }
    ensures { result ≡ written stamp write cell }
{
    match (cell, write) {
        (Cell::Count(sum), Write::Delta(delta)) => Cell::Count(sum + delta as i128),
        (
            Cell::Last {
                val: old,
                stamp: before,
            },
            Write::Set(val),
        ) => set_last(old, before, val, stamp),
        (Cell::Plain(_), Write::Set(val)) => Cell::Plain(val),
        (cell, _) => cell,
    }
}

/// One write, made to the cell of its column.
fn write_at(cells: &mut ArrayVec<Cell, 16>, column: u16, write: Write, stamp: Stamp)
    requires { SuitsAt write (slice_get cells.old.items column) }
    ensures { cells.new.items ≡ with_cell (written stamp write) column cells.old.items }
{
    let place = column as usize;
    cells[place] = write_cell(cells[place], write, stamp);
}

/// The writes, one after the other.
fn write_all(cells: &mut ArrayVec<Cell, 16>, writes: &[(u16, Write)], stamp: Stamp)
    requires { AllSuit stamp cells.old.items writes.now }
    ensures { cells.new.items ≡ each (λ column. made stamp column writes.now) 0 cells.old.items }
{
    for (column, write) in writes {
        write_at(cells, *column, *write, stamp);
    }
}

fn turn_mark(row: &mut Row, annotated: bool, present: bool, stamp: Stamp)
    ensures cells { row.new.cells.items ≡ row.old.cells.items }
    ensures mark { (row_of row.new).mark ≡ turned annotated (row_of row.old).mark record { value = present; stamp = stamp } }
{
    if !annotated || row.stamp.cmp(&stamp).is_lt() {
        row.mark = present;
        row.stamp = stamp;
    }
}

/// Makes one change of the row: each write changes the cell of its column, where among values that are set the one of
/// the greater stamp stays, and an insert or a remove turns the mark, by the greater stamp in a table with an
/// annotation and always in one without. The row and the change are of the table, and each count that is left lies
/// between -2^100 and 2^100. The row is of the table afterwards.
pub fn apply_row(row: &mut Row, table: &Table, change: &RowEffect, stamp: Stamp)
    requires row { CellsFit (declaration_of table.now).columns row.old.cells.items }
    requires change { ChangeFits (declaration_of table.now) change.now }
    requires counts { CountsFit (changed (is_annotated table.now.kind) stamp change.now (row_of row.old)).cells }
    ensures changed { row_of row.new ≡ changed (is_annotated table.now.kind) stamp change.now (row_of row.old) }
    ensures fits { CellsFit (declaration_of table.now).columns row.new.cells.items }
{
    let annotated = is_annotated(table.kind);
    write_all(&mut row.cells, change.writes.as_slice(), stamp);
    match change.act {
        Act::Insert | Act::Fresh => turn_mark(row, annotated, true, stamp),
        Act::Update => {}
        Act::Remove => turn_mark(row, annotated, false, stamp),
    }
}
