use sv_value::{List, Val};

/// A part of a run: what it did in the body outside loops, or in one iteration of a loop. `choices` are the truth values
/// of the comparisons in its `if` conditions, and `tape` the values of its symbols, each in order.
#[derive(Debug, Drop)]
pub struct Instance {
    pub unit: u16,
    pub choices: List<bool>,
    pub tape: List<Val>,
}

/// Where the value of a symbol comes from, by the numbers of names.
#[derive(Clone, Copy, Debug, PartialEq, Eq)]
pub enum Source {
    Variable(u16),
    /// A column of a row that was read.
    Column { row: u16, col: u16 },
}
