//! What the definitions of forms promise.

ghost use Rattle.sv_linear.specs.Laws.{SumsAdd, DifferencesSubtract, MultiplesScale, FactsSay};

/// The sum of two forms has the sum of their values.
pub fn sums_add()
    ensures { SumsAdd }
{}

/// The difference of two forms has the difference of their values.
pub fn differences_subtract()
    ensures { DifferencesSubtract }
{}

/// A multiple of a form has the multiple of its value.
pub fn multiples_scale()
    ensures { MultiplesScale }
{}

/// The facts of a comparison hold where the comparison has their truth value.
pub fn facts_say()
    ensures { FactsSay }
{}
