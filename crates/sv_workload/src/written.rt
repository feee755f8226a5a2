use sv_app::{Arg, Ident};
use sv_value::{List, Val};

/// What the last part begins with.
#[derive(Clone, Copy, Debug, PartialEq, Eq)]
pub enum PartHead {
    Replay,
    Run,
}

/// What a step begins with.
#[derive(Clone, Copy, Debug, PartialEq, Eq)]
pub enum Verb {
    Ask,
    Order,
    Deliver,
    Settle,
    Catch,
    Show,
    Cut,
    Move,
}

/// What a packet begins with.
#[derive(Clone, Copy, Debug, PartialEq, Eq)]
pub enum Color {
    Blue,
    Red,
}

/// What may be set for the last part.
#[derive(Clone, Copy, Debug, PartialEq, Eq)]
pub enum Setting {
    /// The number of sites.
    Sites,
    /// How many rows there may be.
    Rows,
    /// How many changes there may be.
    Changes,
}

/// What is set for the last part.
#[derive(Clone, Copy, Debug)]
pub struct Given {
    pub sites: Option<u64>,
    pub rows: Option<u64>,
    pub changes: Option<u64>,
}

/// A row as it is written: the name of its table, and its values.
#[derive(Debug, Drop)]
pub struct Row {
    pub table: Ident,
    pub values: List<Val>,
}

/// A call as it is written: the name of its transaction, and its arguments.
#[derive(Debug, Drop)]
pub struct Call {
    pub txn: Ident,
    pub args: List<Arg>,
}
