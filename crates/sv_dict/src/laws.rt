//! What the definitions promise, as calls that do nothing: their contracts are the laws.

ghost use Rattle.sv_listing.specs.Laws.{FrugalOnce};
ghost use Rattle.sv_dict.specs.Laws.{AtomsOnce};

/// Whichever tells the greatest differences of a schema right, the same is asked of a change.
pub fn atoms_once()
    ensures { AtomsOnce }
{}

/// Of an application there is one frugal dictionary, but for certificates.
pub fn frugal_once()
    ensures { FrugalOnce }
{}
