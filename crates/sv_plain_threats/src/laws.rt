//! What the definition promises, as a call that does nothing: its contract is the law.

ghost use Rattle.sv_plain_threats.specs.Laws.{WithinIsThreatened};

/// A reason that threatens a change on small ranges threatens it.
pub fn within_is_threatened()
    ensures { WithinIsThreatened }
{}
