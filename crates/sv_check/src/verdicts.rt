use sv_value::Key;

/// What is said of changes.
#[derive(Clone, Copy, Debug, PartialEq, Eq)]
pub enum Verdict {
    /// Every invariant holds after them.
    Keeps,
    /// The invariant of this number is broken after them: the first, and the least key at which it is.
    Breaks { inv: u16, key: Key },
}
