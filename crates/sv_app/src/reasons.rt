/// What a change is threatened by, in this order. A number is that of an invariant of the change's table, or of a
/// reference to it.
#[derive(Clone, Copy, Debug, PartialEq, Eq)]
pub enum Reason {
    /// It writes a plain column, or inserts into or removes from a table without an annotation.
    Plain,
    /// It inserts into the table of a unique column, or sets it.
    Unique(u16),
    /// It inserts into the table of a reference to rows that may be removed, or sets its column.
    Child(u16),
    /// It removes from the table that a reference refers to.
    Parent(u16),
    /// Beside other changes it may break a check.
    Check(u16),
    /// It gives a column a text that isn't of its list.
    List(u16),
}
