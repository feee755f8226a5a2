ghost use Rattle.std.specs.Prelude.{◌≡◌};
ghost use Rattle.sv_app.specs.Lookups.{is_key};
ghost use Rattle.sv_app.specs.Schema.{declaration_of};

use crate::apps::{Ident, is_named};
use sv_value::{Spot, Text};

/// What may be done to the rows of a table.
#[derive(Clone, Copy, Debug, PartialEq, Eq)]
pub enum Kind {
    /// No annotation.
    Plain,
    /// Rows are only added.
    Aoset,
    /// Rows are only changed.
    Uoset,
    /// Rows are added and changed.
    Auset,
    /// Rows are added, changed and removed.
    Arset,
}

/// How changes of a column that were made at different sites become one.
#[derive(Clone, Copy, Debug, PartialEq, Eq)]
pub enum Merge {
    /// No annotation.
    Plain,
    /// The last writer wins.
    Lww,
    /// Numbers are added.
    NumDelta,
    /// Each key is drawn, and no two draws are equal. A table whose key column is marked so is fresh.
    Fresh,
}

/// The type of a column or of a parameter. No column has the type of lists.
#[derive(Clone, Copy, Debug, PartialEq, Eq)]
pub enum Ty {
    Int,
    Text,
    Ints,
}

/// A column of a table.
#[derive(Clone, Copy, Debug)]
pub struct Column {
    pub name: Ident,
    pub ty: Ty,
    pub merge: Merge,
}

/// A check: `hi - lo <= most`, where a column that is missing counts as zero. `spot` is the place of its side that was
/// written first.
#[derive(Clone, Copy, Debug)]
pub struct Check {
    pub hi: Option<Ident>,
    pub lo: Option<Ident>,
    pub most: i64,
    pub spot: Spot,
}

/// What an invariant demands.
#[derive(Debug, Drop)]
pub enum InvBody {
    Check(Check),
    /// The column's text is one of these.
    List {
        col: Ident,
        texts: Vec<Text>,
    },
    /// Different present rows have different values of the column.
    Unique {
        col: Ident,
    },
    /// The column is the key `target` of a row of the table.
    Refers {
        col: Ident,
        table: Ident,
        target: Ident,
    },
}

/// An invariant. Invariants are numbered from 1 through the whole document, in order of writing; `spot` is the place of
/// its first word.
#[derive(Debug, Drop)]
pub struct Inv {
    pub number: u16,
    pub body: InvBody,
    pub spot: Spot,
}

/// A table: its key is that of the first `primary key`, and is empty where there is none. `second_key` is the first name
/// of the second `primary key`, where one is written.
#[derive(Debug, Drop)]
pub struct Table {
    pub name: Ident,
    pub kind: Kind,
    pub columns: Vec<Column>,
    pub key: Vec<Ident>,
    pub second_key: Option<Ident>,
    pub invs: Vec<Inv>,
}

/// Whether the name is one of those of the table's primary key.
pub fn is_key(table: &Table, name: &Ident) -> bool
    ensures { result ≡ is_key (declaration_of table.now) name.now }
{
    table.key.iter().any(|key| is_named(key, name))
}
