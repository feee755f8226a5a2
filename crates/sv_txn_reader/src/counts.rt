/// How many statements, loops and variables of a transaction begin before a place.
#[derive(Clone, Copy, Debug, PartialEq, Eq)]
pub struct Counts {
    pub statements: usize,
    pub loops: usize,
    pub variables: usize,
}
