//! What the definitions promise, as calls that do nothing: their contracts are the laws.

ghost use Rattle.sv_threat.specs.Laws.{CasesDecide};

/// A change that fits its table and writes no plain column is threatened by a check of the table exactly where some case
/// of the check is asked and fails.
pub fn cases_decide()
    ensures { CasesDecide }
{}
