/// What a change does to its row.
#[derive(Clone, Copy, Debug, PartialEq, Eq)]
pub enum Act {
    /// The row becomes present.
    Insert,
    /// A row under a key that was drawn becomes present.
    Fresh,
    /// Columns are written.
    Update,
    /// The row is no longer present.
    Remove,
}
