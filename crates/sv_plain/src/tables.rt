//! The row at a place, of the operations that a cut holds: the query of the definition.

ghost use Rattle.std.specs.Prelude.{◌≡◌, ◌+◌, ◌<◌, ◌≤◌, ◌^◌, ◌∷◌, [], map, length, IfOk};
ghost use Rattle.std.specs.Option.{option_map};
ghost use Rattle.sv_value.specs.Cuts.{counts};
ghost use Rattle.sv_value.specs.declared.values.Key.{Key as KeyValue};
ghost use Rattle.sv_app.specs.Schema.{declaration_of, schema_of};
ghost use Rattle.sv_effect.specs.StampedTables.{row_of};
ghost use Rattle.sv_effect.specs.RowChange.{key_values, from_key, values_from, zero_values};
ghost use Rattle.sv_effect.specs.Applied.{Change, annotated_in, columns_in, zeros_in};
ghost use Rattle.sv_effect.specs.Cut.{held};
ghost use Rattle.sv_effect.specs.Fits.{CountsFit};
ghost use Rattle.sv_effect.specs.TablesOfCut.{
  Family,
  init_place,
  changes_at,
  initial,
  values_or,
  is_there,
  turns_of,
  writes_to,
  cell_by,
  cells_by,
  mark_by,
  row_by,
  row_at,
};
ghost use Rattle.sv_plain.specs.Held.{medium_of, mark_of};
ghost use Rattle.sv_plain.specs.Few.{FewChanges};
ghost use Rattle.sv_plain.specs.Gathers.{Gathers};
ghost use Rattle.sv_plain.specs.Narrow.{AreNarrow};

use crate::cells::{HeldMark, count_of, greatest_mark, greatest_set, last_mark, last_set};
use crate::changes::{Gathered, all_changes, red_changes, writes_to};
use arrayvec::ArrayVec;
use std::alloc::Global;
use sv_app::{App, Column, Ident, InitRow, Kind, Merge, Place, Table};
use sv_effect::{Cell, Op, Row, is_place, key_values, prepend, zero_of};
use sv_value::{Cut, Key, List, NoMemory, Val};

/// What the cut holds of the row at the place.
fn gather<'a>(
    alloc: Global,
    published: &'a [Vec<Op>],
    cut: &Cut,
    place: &Place,
) -> Result<Gathered<'a>, NoMemory>
    requires { FewChanges (map (λ ops. ops.items) published.now) }
    ensures value { IfOk result (λ gathered. Gathers (changes_at place.now (held (medium_of (map (λ ops. ops.items)
        published.now)) (counts cut.now))) gathered) }
    ensures few { IfOk result (λ gathered. length gathered.all.items ≤ 65536) }
{
    let reds = red_changes(alloc, published, cut, place)?;
    let all = all_changes(alloc, published, cut, place)?;
    Ok(Gathered { reds, all })
}

/// Where an initial row stands.
pub fn init_place(row: &InitRow) -> Place
    ensures { result ≡ init_place row.now }
{
    Place {
        table: row.table,
        key: row.key,
    }
}

/// What stands at the place from the start.
pub fn initial<'a>(place: &Place, init: &'a [InitRow]) -> Option<&'a [Val]>
    ensures { option_map (λ values. values.now) result ≡ initial place.now init.now }
{
    match init {
        [] => None,
        [row, rows @ ..] => {
            if is_place(place, &init_place(row)) {
                Some(row.values.items())
            } else {
                initial(place, rows)
            }
        }
    }
}

/// Whether something stands there from the start.
fn is_there(found: &Option<&[Val]>) -> bool
    ensures { result ≡ is_there (option_map (λ values. values.now) found.now) }
{
    found.is_some()
}

/// What stands there from the start, or zeros.
fn values_or<'a>(zeros: &'a [Val], found: Option<&'a [Val]>) -> &'a [Val]
    ensures { result.now ≡ values_or zeros.now (option_map (λ values. values.now) found.entry) }
{
    match found {
        Some(values) => values,
        None => zeros,
    }
}

/// The value that the key gives a column, or zero.
fn from_key(names: &[Ident], parts: &[Val], number: usize, zero: &Val) -> Val
    ensures { result ≡ from_key names.now parts.now number zero.now }
{
    match names {
        [] => *zero,
        [name, names @ ..] => match parts {
            [] => *zero,
            [part, parts @ ..] => {
                if name.num as usize == number {
                    *part
                } else {
                    from_key(names, parts, number, zero)
                }
            }
        },
    }
}

fn values_from(
    alloc: Global,
    table: &Table,
    parts: &[Val],
    number: usize,
    columns: &[Column],
) -> Result<List<Val>, NoMemory>
    requires { number + length columns.now < 2 ^ 63 }
    ensures { IfOk result (λ values. (key : KeyValue) → key_values key ≡ parts.now → values ≡ values_from
        (declaration_of table.now) key number columns.now) }
{
    match columns {
        [] => Ok(List::new(alloc)),
        [first, rest @ ..] => {
            let later = values_from(alloc, table, parts, number + 1, rest)?;
            let val = from_key(&table.key, parts, number, &zero_of(first.ty));
            prepend(val, later)
        }
    }
}

/// The values of a row that isn't kept.
fn zero_values(alloc: Global, table: &Table, key: &Key) -> Result<List<Val>, NoMemory>
    ensures { IfOk result (λ values. values ≡ zero_values (declaration_of table.now) key.now) }
{
    let parts = key_values(alloc, key)?;
    values_from(alloc, table, parts.items(), 0, &table.columns)
}

/// The columns of the place's table; none where it isn't declared.
fn columns_in<'a>(app: &'a App, place: &Place) -> &'a [Column]
    ensures { result.now ≡ columns_in (schema_of app.now.tables.items) place.now }
{
    match app.tables.get(place.table as usize) {
        Some(table) => table.columns.as_slice(),
        None => &[],
    }
}

/// Whether rows of the place's table are inserted and removed by the greatest stamp.
fn annotated_in(app: &App, place: &Place) -> bool
    ensures { result ≡ annotated_in (schema_of app.now.tables.items) place.now }
{
    match app.tables.get(place.table as usize) {
        Some(table) => table.kind != Kind::Plain,
        None => false,
    }
}

/// The values of a row that isn't kept at the place.
fn zeros_in(alloc: Global, app: &App, place: &Place) -> Result<List<Val>, NoMemory>
    ensures { IfOk result (λ values. values ≡ zeros_in (schema_of app.now.tables.items) place.now) }
{
    match app.tables.get(place.table as usize) {
        Some(table) => zero_values(alloc, table, &place.key),
        None => Ok(List::new(alloc)),
    }
}

/// A cell by its column's number and kind, its value from the start, and the held writes to it.
fn cell_by(
    alloc: Global,
    number: usize,
    merge: Merge,
    first: &Val,
    gathered: &Gathered<'_>,
) -> Result<Cell, NoMemory>
    requires { length gathered.now.all.items ≤ 65536 }
    ensures value { IfOk result (λ cell. (cs : Family Change) → Gathers cs gathered.now → cell ≡ cell_by merge
        first.now (λ o. writes_to number (cs o))) }
    ensures narrow { IfOk result (λ cell. CountsFit (cell ∷ [])) }
{
    match merge {
        Merge::NumDelta => {
            let writes = writes_to(alloc, number, &gathered.all)?;
            Ok(Cell::Count(count_of(first, &writes)))
        }
        Merge::Lww => {
            let writes = writes_to(alloc, number, &gathered.all)?;
            let last = greatest_set(*first, &writes);
            Ok(Cell::Last {
                val: last.val,
                stamp: last.stamp,
            })
        }
        Merge::Plain | Merge::Fresh => {
            let writes = writes_to(alloc, number, &gathered.reds)?;
            Ok(Cell::Plain(last_set(*first, &writes).val))
        }
    }
}

/// A cell for each column.
fn cells_by(
    alloc: Global,
    columns: &[Column],
    values: &[Val],
    gathered: &Gathered<'_>,
) -> Result<ArrayVec<Cell, 16>, NoMemory>
    requires columns { length columns.now ≤ 16 }
    requires few { length gathered.now.all.items ≤ 65536 }
    ensures value { IfOk result (λ cells. (cs : Family Change) → Gathers cs gathered.now → cells.items ≡ cells_by 0
        columns.now values.now cs) }
    ensures narrow { IfOk result (λ cells. CountsFit cells.items) }
{
    let mut cells = ArrayVec::new();
    for number in 0..columns.len().min(values.len()) {
        let merge = columns[number].merge;
        let cell = cell_by(alloc, number, merge, &values[number], gathered)?;
        cells.push(cell);
    }
    Ok(cells)
}

/// A mark by the table's kind, whether the row is there from the start, and the held turns of it.
fn mark_by(annotated: bool, present: bool, gathered: &Gathered<'_>) -> HeldMark
    ensures { (cs : Family Change) → Gathers cs gathered.now → mark_of result ≡ mark_by annotated present (λ o.
        turns_of (cs o)) }
{
    if annotated {
        greatest_mark(present, &gathered.all)
    } else {
        last_mark(present, &gathered.reds)
    }
}

/// A row by what stands there from the start and the held changes of it.
fn row_by(
    alloc: Global,
    annotated: bool,
    columns: &[Column],
    values: &[Val],
    present: bool,
    gathered: &Gathered<'_>,
) -> Result<Row, NoMemory>
    requires columns { length columns.now ≤ 16 }
    requires few { length gathered.now.all.items ≤ 65536 }
    ensures value { IfOk result (λ row. (cs : Family Change) → Gathers cs gathered.now → row_of row ≡ row_by
        annotated columns.now values.now present cs) }
    ensures narrow { IfOk result (λ row. CountsFit row.cells.items) }
{
    let cells = cells_by(alloc, columns, values, gathered)?;
    let mark = mark_by(annotated, present, gathered);
    Ok(Row {
        cells,
        mark: mark.on,
        stamp: mark.stamp,
    })
}

/// The row at the place, of the operations that the cut holds of these lists, the reds first and then site 1.
pub fn row_at(
    alloc: Global,
    app: &App,
    init: &[InitRow],
    published: &[Vec<Op>],
    cut: &Cut,
    place: &Place,
) -> Result<Row, NoMemory>
    requires narrow { AreNarrow (schema_of app.now.tables.items) }
    requires few { FewChanges (map (λ ops. ops.items) published.now) }
    ensures narrow { IfOk result (λ row. CountsFit row.cells.items) }
    ensures value { IfOk result (λ row. row_of row ≡ row_at (schema_of app.now.tables.items) init.now (held
        (medium_of (map (λ ops. ops.items) published.now)) (counts cut.now)) place.now) }
{
    let gathered = gather(alloc, published, cut, place)?;
    let zeros = zeros_in(alloc, app, place)?;
    let found = initial(place, init);
    let present = is_there(&found);
    let values = values_or(zeros.items(), found);
    row_by(
        alloc,
        annotated_in(app, place),
        columns_in(app, place),
        values,
        present,
        &gathered,
    )
}
