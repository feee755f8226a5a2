use arrayvec::ArrayVec;
use sv_app::Act;
use sv_value::{Cut, Key, List, Site, Val};

/// What a change writes to a column.
#[derive(Clone, Copy, Debug, PartialEq, Eq)]
pub enum Write {
    /// Adds to a counter.
    Delta(i64),
    /// Sets the value.
    Set(Val),
}

impl Default for Write {
    ghost use Rattle.std.specs.Prelude.{◌≡◌, pos};
    ghost use Rattle.sv_effect.specs.declared.ops.Write.TheVariants.{Delta};

    ghost is_default = { λ write. write ≡ Delta (pos 0) };

    fn default() -> Write {
        Write::Delta(0)
    }
}

/// A change of one row: the row's table and key, what is done to the row, and what is written to which columns, by
/// their numbers. `instance` is the instance of the run that made it.
#[derive(Debug, Drop)]
pub struct RowEffect {
    pub table: u16,
    pub key: Key,
    pub act: Act,
    pub writes: ArrayVec<(u16, Write), 16>,
    pub instance: u32,
}

/// A row that an operation can't do without.
#[derive(Clone, Copy, Debug, PartialEq, Eq)]
pub enum Need {
    /// The row is kept.
    Kept { table: u16, key: Key },
    /// The row is present.
    Present { table: u16, key: Key },
}

/// What a request changes, as it is carried to every site: when and where it was made, the cut on which it was made,
/// its changes in the order of the run, and the rows that it needs.
#[derive(Debug, Drop)]
pub struct Op {
    pub time: u64,
    pub site: Site,
    pub deps: Cut,
    pub effects: List<RowEffect>,
    pub needs: List<Need>,
}
