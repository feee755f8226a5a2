//! What the tests and the atoms of a change promise.

ghost use Rattle.sv_wp.specs.Decides.{AtomsDecide};
ghost use Rattle.sv_wp.specs.Reads.{AtomsAreExact, AtomsName};
ghost use Rattle.sv_wp.specs.Laws.{
  CheckTestsDecide,
  PlainDecides,
  UniqueDecides,
  ChildDecides,
  ParentDecides,
  ListDecides,
};

/// The tests that a check asks of a change in forms all hold on a tape exactly where the check doesn't threaten the
/// concrete change.
pub fn check_tests_decide()
    ensures { CheckTestsDecide }
{}

/// What is asked of a change by plain columns and tables is met exactly where it isn't threatened by them.
pub fn plain_decides()
    ensures { PlainDecides }
{}

/// What a unique column asks is met exactly where it doesn't threaten the change.
pub fn unique_decides()
    ensures { UniqueDecides }
{}

/// What a reference asks of changes of its own table is met exactly where it doesn't threaten the change.
pub fn child_decides()
    ensures { ChildDecides }
{}

/// What a reference asks of changes of the table that it refers to is met exactly where it doesn't threaten the change.
pub fn parent_decides()
    ensures { ParentDecides }
{}

/// What a list asks is met exactly where the change sets no text outside it.
pub fn list_decides()
    ensures { ListDecides }
{}

/// The first atom that isn't met on a tape has the first reason that threatens the concrete change, and where all are met
/// none does.
pub fn atoms_decide()
    ensures { AtomsDecide }
{}

/// Atoms name only symbols that the change names.
pub fn atoms_name()
    ensures { AtomsName }
{}

/// On the tape of a run, where what is written lies between -2^64 and 2^64, an atom holds as it is read exactly where it
/// is met.
pub fn atoms_are_exact()
    ensures { AtomsAreExact }
{}
