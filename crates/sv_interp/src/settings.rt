ghost use Rattle.std.specs.Prelude.{◌<◌, ◌≤◌, ◌≤ℤ◌, pos, length};
ghost use Rattle.sv_app.specs.Schema.{declaration_of, schema_of};
ghost use Rattle.sv_interp.specs.Limits.{AreNarrow};

use std::alloc::Global;
use sv_app::{Arg, Cond, Expr, Ident, Place, Table};
use sv_value::{Key, Val};

/// What a run is made of: where its memory comes from, the tables, the arguments, the first key that it draws, and the
/// variables of its loops in the order of the text. No table has more than 16 columns, there are fewer than 2^16 - 1
/// loops, and the first key and the 64 behind it are of 64 bits.
#[derive(Debug, Drop)]
pub struct Setting<'a> {
    pub alloc: Global,
    pub tables: &'a [Table],
    pub args: &'a [Arg],
    pub first: i64,
    pub loops: &'a [u16],
    ghost narrow: { AreNarrow (schema_of tables.now) },
    ghost few: { length loops.now < 65535 },
    ghost room: { first ≤ℤ pos 9223372036854775743 },
}

/// The row that a statement names: its table, and the expressions of its key.
#[derive(Clone, Copy, Debug)]
pub struct Target<'a> {
    pub table: Ident,
    pub key: &'a [Expr],
}

/// The row that is inserted under a drawn key: the variable that gets the key, the table, and the values of the other
/// columns.
#[derive(Clone, Copy, Debug)]
pub struct Draw<'a> {
    pub var: Ident,
    pub table: Ident,
    pub values: &'a [Expr],
}

/// A place whose row is to change, with its table, which has at most 16 columns.
#[derive(Debug, Drop)]
pub struct Spot<'a> {
    pub alloc: Global,
    pub table: &'a Table,
    pub place: Place,
    ghost narrow: { length (declaration_of table.now).columns ≤ 16 },
}

/// The rows that a loop is over: those of a table that meet a condition under the name of a variable.
#[derive(Clone, Copy, Debug)]
pub struct Selection<'a> {
    pub row: Ident,
    pub table: Ident,
    pub cond: &'a Option<Cond>,
}

/// A turn of a loop: over an item of a list, or over the row of a key; with the unit of the loop and its variable.
#[derive(Clone, Copy, Debug)]
pub enum Turn {
    Item {
        unit: u16,
        var: u16,
        val: Val,
    },
    Row {
        unit: u16,
        row: u16,
        table: u16,
        key: Key,
    },
}
