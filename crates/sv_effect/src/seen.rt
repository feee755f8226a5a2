//! What is told of a row.

ghost use Rattle.std.specs.Prelude.{◌≡◌, map, List, None, Some};
ghost use Rattle.sv_app.specs.declared.places.Place.{Place as PlaceValue};
ghost use Rattle.sv_app.specs.Accepted.{AcceptedSchema};
ghost use Rattle.sv_app.specs.Schema.{Declaration};
ghost use Rattle.sv_effect.specs.StampedTables.{row_of};
ghost use Rattle.sv_effect.specs.BareTables.{value_of, bare_row};
ghost use Rattle.sv_effect.specs.Reads.{seen_of};
ghost use Rattle.sv_effect.specs.Agrees.{seen_in};
ghost use Rattle.sv_effect.specs.RowsFit.{RowIsOf, SeenFits};
ghost use Rattle.sv_effect.specs.Words.{HasWord, HaveWords};

use crate::cells::{Cell, Row};
use crate::reads::Seen;
use crate::values::got_of;
use arrayvec::ArrayVec;
use sv_app::Got;

fn value_of(cell: &Cell) -> Got
    ensures value { result ≡ value_of cell.now }
    ensures word { HasWord cell.now }
{
    match cell {
        Cell::Count(sum) => Got::Num(*sum),
        Cell::Last { val, .. } => got_of(val),
        Cell::Plain(val) => got_of(val),
    }
}

fn values_of(cells: &ArrayVec<Cell, 16>) -> ArrayVec<Got, 16>
    ensures values { result.items ≡ map value_of cells.now.items }
    ensures words { HaveWords cells.now.items }
{
    let mut values = ArrayVec::new();
    for cell in cells.as_slice() {
        values.push(value_of(cell));
    }
    values
}

impl Row {
    /// What is told of the row where it is kept.
    pub fn seen(&self) -> Seen
        ensures value { seen_of result ≡ seen_in (Some (bare_row (row_of self.now))) }
        ensures fits { (schema : List Declaration) (place : PlaceValue) → AcceptedSchema schema → RowIsOf schema place (row_of self.now) → SeenFits schema place (seen_of result) }
    {
        Seen {
            kept: true,
            present: self.mark,
            values: values_of(&self.cells),
        }
    }
}

impl Seen {
    /// What is told of a row that isn't kept.
    pub fn unkept() -> Seen
        ensures { seen_of result ≡ seen_in None }
    {
        Seen {
            kept: false,
            present: false,
            values: ArrayVec::new(),
        }
    }
}
