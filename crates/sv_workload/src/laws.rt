//! What the definitions promise, as a call that does nothing: its contract is the law.

ghost use Rattle.sv_workload.specs.Laws.{RefusedOnce};

/// A document gets one refusal.
pub fn refused_once()
    ensures { RefusedOnce }
{}
