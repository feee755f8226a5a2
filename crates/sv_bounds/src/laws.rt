ghost use Rattle.sv_bounds.specs.Differences.{AnswersExclude, WidthsExclude};

/// Whatever the rows, no assignment that meets them stands beside a cycle of them.
pub fn answers_exclude()
    ensures { AnswersExclude }
{}

/// Whatever the rows, a difference that has a bound is not unbounded.
pub fn widths_exclude()
    ensures { WidthsExclude }
{}
