ghost use Rattle.sv_tool.specs.Laws.{OneAnswer};

/// A law: words and bytes ask for one answer.
pub fn one_answer()
    ensures { OneAnswer }
{}
