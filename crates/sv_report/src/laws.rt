//! What the definitions promise of a replay and of `compile`, as calls that do nothing: their contracts are the laws.

ghost use Rattle.std.specs.Prelude.{ℕ};
ghost use Rattle.sv_effect.specs.StampedTables.{StampedTables};
ghost use Rattle.sv_report.specs.Laws.{ReplaysAreLegal, ReplaysAreOne, SameCompiled, TextsAreOne};
ghost use Rattle.sv_report.specs.ReplayText.{rows_of};
ghost use Rattle.sv_report.specs.Shows.{AreRowsOf};

/// The rows that are shown of a table rise by key, and are exactly those that are present there.
pub fn rows_are_listed()
    ensures { (table : ℕ) (t : StampedTables) → AreRowsOf table t (rows_of table t) }
{}

/// The history that the steps of a sound document make is legal.
pub fn replays_are_legal()
    ensures { ReplaysAreLegal }
{}

/// Steps have one text on a world, and leave one state.
pub fn replays_are_one()
    ensures { ReplaysAreOne }
{}

/// A document has one text, wherever its application lies in memory.
pub fn texts_are_one()
    ensures { TextsAreOne }
{}

/// Dictionaries that are the same but for certificates have one text of `compile`.
pub fn same_compiled()
    ensures { SameCompiled }
{}
