ghost use Rattle.std.specs.Prelude.{◌≡◌, ◌≤◌, ◌∷◌, [], true, length, slice_get};
ghost use Rattle.sv_app.specs.Schema.{declaration_of};
ghost use Rattle.sv_effect.specs.StampedTables.{row_of, zero_stamp};
ghost use Rattle.sv_effect.specs.RowChange.{cell_from, cells_from, changed, from_key, is_annotated, key_values, row_from, zero_row};
ghost use Rattle.sv_effect.specs.Fits.{CellsFit, ChangeFits, CountsFit};
ghost use Rattle.sv_effect.specs.TablesOfCut.{init_place};
ghost use Rattle.sv_store.specs.Named.{is_named, zero_cells};

use arrayvec::ArrayVec;
use sv_app::{Column, Ident, InitRow, Merge, Place, Table};
use sv_effect::{Cell, Row, RowEffect, apply_row, zero_of};
use sv_value::{Key, Stamp, Val};

/// A row that is kept, and where it stands.
#[derive(Debug, Drop)]
pub struct KeptRow {
    pub place: Place,
    pub row: Row,
}

/// The stamp of what was there from the start.
fn zero_stamp() -> Stamp
    ensures { result ≡ zero_stamp }
{
    Stamp {
        time: 0,
        site: 0,
        place: 0,
    }
}

/// The cell of a column that has a value from the start.
fn cell_from(merge: Merge, val: Val) -> Cell
    ensures value { result ≡ cell_from merge val }
    ensures count { CountsFit (result ∷ []) }
{
    match (merge, val) {
        (Merge::Plain | Merge::Fresh, val) => Cell::Plain(val),
        (Merge::Lww, val) => Cell::Last {
            val,
            stamp: zero_stamp(),
        },
        (Merge::NumDelta, Val::Int(sum)) => Cell::Count(sum as i128),
        (Merge::NumDelta, Val::Text(_)) => Cell::Count(0),
    }
}

/// The cells of a row that has these values from the start.
fn cells_from(columns: &[Column], values: &[Val]) -> ArrayVec<Cell, 16>
    requires few { length columns.now ≤ 16 }
    requires full { length values.now ≡ length columns.now }
    ensures cells { result.items ≡ cells_from columns.now values.now }
    ensures counts { CountsFit result.items }
{
    let mut cells = ArrayVec::new();
    for (number, column) in columns.iter().enumerate() {
        cells.push(cell_from(column.merge, values[number]));
    }
    cells
}

/// Whether the name that stands there is that of the column.
fn names_column(names: &[Ident], place: usize, column: usize) -> bool
    ensures { result ≡ is_named (slice_get names.now place) column }
{
    match names.get(place) {
        Some(name) => name.num as usize == column,
        None => false,
    }
}

/// The value that the key gives the column, or zero.
fn from_key(names: &[Ident], key: &Key, column: usize, zero_value: Val) -> Val
    ensures { result ≡ from_key names.now (key_values key.now) column zero_value }
{
    if names_column(names, 0, column) {
        return key.first;
    }
    match key.second {
        Some(second) => {
            if names_column(names, 1, column) {
                second
            } else {
                zero_value
            }
        }
        None => zero_value,
    }
}

/// The cells of a row of that key that nothing was written to.
fn zero_cells(columns: &[Column], names: &[Ident], key: &Key) -> ArrayVec<Cell, 16>
    requires { length columns.now ≤ 16 }
    ensures { result.items ≡ zero_cells names.now key.now 0 columns.now }
{
    let mut cells = ArrayVec::new();
    for (number, column) in columns.iter().enumerate() {
        let val = from_key(names, key, number, zero_of(column.ty));
        cells.push(cell_from(column.merge, val));
    }
    cells
}

/// The row that changes of a row that isn't kept start from.
fn zero_row(table: &Table, key: &Key) -> Row
    requires { length (declaration_of table.now).columns ≤ 16 }
    ensures { row_of result ≡ zero_row (declaration_of table.now) key.now }
{
    Row {
        cells: zero_cells(table.columns.as_slice(), table.key.as_slice(), key),
        mark: false,
        stamp: zero_stamp(),
    }
}

/// The row that a change leaves where none was kept. The change is of the table, which has at most 16 columns, as a row
/// of zeros is, and each count that it leaves lies between -2^100 and 2^100.
pub fn new_row(table: &Table, effect: &RowEffect, stamp: Stamp) -> Row
    requires few { length (declaration_of table.now).columns ≤ 16 }
    requires change { ChangeFits (declaration_of table.now) effect.now }
    requires row { CellsFit (declaration_of table.now).columns (zero_row (declaration_of table.now) effect.now.key).cells }
    requires counts { CountsFit (changed (is_annotated table.now.kind) stamp effect.now (zero_row (declaration_of table.now) effect.now.key)).cells }
    ensures { row_of result ≡ changed (is_annotated table.now.kind) stamp effect.now (zero_row (declaration_of table.now) effect.now.key) }
{
    let mut row = zero_row(table, &effect.key);
    apply_row(&mut row, table, effect, stamp);
    row
}

/// A row that is there from the start. It has a value for each column of its table, at most 16.
pub fn init_row(table: &Table, row: &InitRow) -> KeptRow
    requires few { length (declaration_of table.now).columns ≤ 16 }
    requires full { length row.now.values ≡ length (declaration_of table.now).columns }
    ensures place { result.place ≡ init_place row.now }
    ensures row { row_of result.row ≡ row_from (declaration_of table.now).columns row.now.values true }
    ensures counts { CountsFit result.row.cells.items }
{
    KeptRow {
        place: Place {
            table: row.table,
            key: row.key,
        },
        row: Row {
            cells: cells_from(table.columns.as_slice(), row.values.items()),
            mark: true,
            stamp: zero_stamp(),
        },
    }
}
