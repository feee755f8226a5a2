//! What the definitions promise, as calls that do nothing: their contracts are the laws.

ghost use Rattle.sv_check.specs.Initial.{StoresStart};

/// The tables that a store starts with are those of the initial rows.
#[tactic(auto, using(crate::proofs::StartLaws::stores_start))]
pub fn stores_start()
    ensures { StoresStart }
{}
