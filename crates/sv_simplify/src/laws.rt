//! What the definition of what is left promises.

ghost use Rattle.sv_simplify.specs.Laws.{FalseRowsSay, LeftOnce, LeftExactly, DroppedHold};

/// The row of a test's negation holds on a tape exactly where the test is false there.
pub fn false_rows_say()
    ensures { FalseRowsSay }
{}

/// Of the same facts and atoms the same atoms are kept and dropped; only certificates may differ.
pub fn left_once()
    ensures { LeftOnce }
{}

/// An atom is dropped exactly where its form is a difference, and no assignment meets the facts and makes it false.
pub fn left_exactly()
    ensures { LeftExactly }
{}

/// A dropped atom holds on each tape on which the facts hold.
pub fn dropped_hold()
    ensures { DroppedHold }
{}
