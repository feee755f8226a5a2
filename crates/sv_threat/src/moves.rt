/// What a change does to the number of a column.
#[derive(Clone, Copy, Debug, PartialEq, Eq)]
pub enum Move {
    /// Nothing.
    Leaves,
    /// It adds to it.
    Adds(i128),
    /// It sets it, where its write wins over those of other sites.
    Sets(i128),
}

/// A case of a check `hi - lo <= most` on one change.
#[derive(Clone, Copy, Debug, PartialEq, Eq)]
pub enum Case {
    /// No set wins.
    BothLose,
    /// The set of the greater side wins.
    HiWins,
    /// The set of the lesser side wins.
    LoWins,
    /// The sets of both sides win.
    BothWin,
    /// The row is made from zeros.
    FromNothing,
}
