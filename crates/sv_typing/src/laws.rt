//! What the definitions promise, as calls that do nothing: their contracts are the laws.

ghost use Rattle.sv_typing.specs.Laws.{TablesByPlace, ColumnsByPlace, TxnsByPlace, NamesByPlace, NeverBoth, RefusedOnce};

/// In an accepted schema the number of a table is its place.
#[tactic(auto, using(crate::proofs::PlaceLaws::tables_by_place))]
pub fn tables_by_place()
    ensures { TablesByPlace }
{}

/// In an accepted schema the number of a column is its place in its table.
#[tactic(auto, using(crate::proofs::PlaceLaws::columns_by_place))]
pub fn columns_by_place()
    ensures { ColumnsByPlace }
{}

/// In an accepted application the number of a transaction is its place.
#[tactic(auto, using(crate::proofs::NameLaws::txns_by_place))]
pub fn txns_by_place()
    ensures { TxnsByPlace }
{}

/// In an accepted application the number of a name that a transaction declares is its place among these.
#[tactic(auto, using(crate::proofs::NameLaws::names_by_place))]
pub fn names_by_place()
    ensures { NamesByPlace }
{}

/// What is accepted isn't refused.
pub fn never_both()
    ensures { NeverBoth }
{}

/// An application gets one refusal.
pub fn refused_once()
    ensures { RefusedOnce }
{}
