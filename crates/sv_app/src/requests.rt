use sv_value::{Key, List, Spot, Text, Val};

/// An argument of a call.
#[derive(Debug, Drop)]
pub enum Arg {
    Int(i64),
    Text(Text),
    Ints(List<i64>),
}

/// A call of a transaction, by its number, with its arguments.
#[derive(Debug, Drop)]
pub struct Request {
    pub txn: u16,
    pub args: List<Arg>,
}

/// A row that is there from the start: its table's number, its key, and a value for each column.
#[derive(Debug, Drop)]
pub struct InitRow {
    pub table: u16,
    pub key: Key,
    pub values: List<Val>,
    pub spot: Spot,
}
