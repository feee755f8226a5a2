use crate::tests::Atom;
use sv_value::List;

/// An atom that is left to the run. Where its form is a difference of two symbols, or one symbol or its negation, it
/// shows an assignment, 0 and then a value for each symbol, that meets the facts of the path and makes the atom false.
#[derive(Debug, Drop)]
pub struct KeptAtom {
    pub atom: Atom,
    pub shown: Option<List<i128>>,
}

/// An atom that the facts of the path make true. It stands behind so many kept ones, and has a cycle of the facts
/// followed by the row that says that the atom is false.
#[derive(Debug, Drop)]
pub struct Dropped {
    pub atom: Atom,
    pub after: u64,
    pub cycle: List<u32>,
}

/// What is left of the atoms of a path: those that are kept and those that are dropped, each in order, and behind them
/// the first that nothing meets, if there is one. What follows that one isn't listed.
#[derive(Debug, Drop)]
pub struct Left {
    pub kept: List<KeptAtom>,
    pub dropped: List<Dropped>,
    pub never: Option<Atom>,
}
