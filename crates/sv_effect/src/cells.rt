use arrayvec::ArrayVec;
use sv_value::{Stamp, Val};

/// What a row keeps of a column.
#[derive(Clone, Copy, Debug, PartialEq, Eq)]
pub enum Cell {
    /// The sum of a counter.
    Count(i128),
    /// The value that was written last, and when that was.
    Last { val: Val, stamp: Stamp },
    /// A value that is written in one order at every site.
    Plain(Val),
}

impl Default for Cell {
    ghost use Rattle.std.specs.Prelude.{◌≡◌, pos};
    ghost use Rattle.sv_effect.specs.declared.cells.Cell.TheVariants.{Count};

    ghost is_default = { λ cell. cell ≡ Count (pos 0) };

    fn default() -> Cell {
        Cell::Count(0)
    }
}

/// A row: a cell for each column, in order, whether the row is present, and when that was last decided. The cell of a
/// key column is plain, and has the key's value.
#[derive(Debug, Drop)]
pub struct Row {
    pub cells: ArrayVec<Cell, 16>,
    pub mark: bool,
    pub stamp: Stamp,
}
