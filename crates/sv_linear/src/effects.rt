use crate::forms::Form;
use sv_app::Act;
use sv_bounds::Diff;
use sv_value::{List, Text};

/// What an expression is on a path: an integer, a text that is written, or a text that a symbol stands for.
#[derive(Debug, Drop)]
pub enum SymVal {
    Num(Form),
    TextIs(Text),
    TextSym(u8),
}

/// What a change writes to a column: a number that is added, or a value that is set.
#[derive(Debug, Drop)]
pub enum SymWrite {
    Delta(Form),
    Set(SymVal),
}

/// A change that a path makes: the number of its table, what it does, and its writes by numbers of columns. Its key
/// isn't kept.
#[derive(Debug, Drop)]
pub struct SymEffect {
    pub table: u16,
    pub act: Act,
    pub writes: List<(u16, SymWrite)>,
}

/// What a path does: the facts that its choices give, its changes, and the number of its symbols.
#[derive(Debug, Drop)]
pub struct Shape {
    pub facts: List<Diff>,
    pub effects: List<SymEffect>,
    pub symbols: u8,
}
