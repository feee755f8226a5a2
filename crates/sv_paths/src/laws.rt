//! What the definitions promise, as calls that do nothing: their contracts are the laws.

ghost use Rattle.sv_paths.specs.Laws.{AllPathsAreOneList, PathsAreUnitPaths, UnitsAreFew};

/// A list of choices is a path exactly where it leads through the unit, whatever the schema: to its end with no choice
/// left, or to an `abort` with none left, where the path aborts.
pub fn paths_are_unit_paths()
    ensures { PathsAreUnitPaths }
{}

/// There is one list of all paths in their order.
pub fn all_paths_are_one_list()
    ensures { AllPathsAreOneList }
{}

/// A transaction of an accepted application has at most 16 units.
pub fn units_are_few()
    ensures { UnitsAreFew }
{}
