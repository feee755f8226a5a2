//! What the definitions promise, as a call that does nothing: its contract is the law.

ghost use Rattle.sv_schema_reader.specs.Laws.{RefusedOnce};

/// Tokens get one refusal.
pub fn refused_once()
    ensures { RefusedOnce }
{}
