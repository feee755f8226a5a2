ghost use Rattle.sv_app.specs.Schema.{schema_of};
ghost use Rattle.sv_symbolic.specs.Limits.{AreNarrow};

use std::alloc::Global;
use sv_app::{Table, Ty};

/// What a walk is made of: where its memory comes from, the tables, the types of variables and the tables of row
/// variables. No table has more than 16 columns.
#[derive(Debug, Drop)]
pub struct Setting<'a> {
    pub alloc: Global,
    pub tables: &'a [Table],
    pub types: &'a [Ty],
    pub rows: &'a [u16],
    ghost narrow: { AreNarrow (schema_of tables.now) },
}
