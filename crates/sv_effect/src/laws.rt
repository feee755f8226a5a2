//! What the definitions promise, as calls that do nothing: their contracts are the laws.

ghost use Rattle.sv_effect.specs.Laws.{OneMore, AnySequence, GreatestIs, FittingKept, UnthreatenedCommute, NewerWins};

/// The next operation of an origin, applied to the tables of a cut, gives the tables of the cut that has it too, of
/// whatever else the cut has and in whatever order that came. This is so where the schema allows the operations, no
/// two were made at one site at the same time, and blue ones write no plain column and neither insert into nor remove
/// from a table without an annotation.
#[tactic(auto, using(crate::proofs::Promises::one_more))]
pub fn one_more()
    ensures { OneMore }
{}

/// The operations of a cut, applied to the initial tables in any sequence in which each comes once and after those that
/// it was made on, give the tables of the cut. This is so where also the deps of each operation count just the earlier
/// ones of its own origin.
#[tactic(auto, using(crate::proofs::Promises::any_sequence))]
pub fn any_sequence()
    ensures { AnySequence }
{}

/// The value of the greatest stamp is one of those asked, and none of them has a greater stamp.
#[tactic(auto, using(crate::proofs::Promises::greatest_is))]
pub fn greatest_is()
    ensures { GreatestIs }
{}

/// An operation that writes no plain column, and neither inserts into nor removes from a table without an annotation,
/// gives equal tables before and after each operation that was made at another time or site.
#[tactic(auto, using(crate::proofs::Promises::unthreatened_commute))]
pub fn unthreatened_commute()
    ensures { UnthreatenedCommute }
{}

/// An operation that the schema allows leaves rows that have a cell of the right kind for each column.
#[tactic(auto, using(crate::proofs::Promises::fitting_kept))]
pub fn fitting_kept()
    ensures { FittingKept }
{}

/// An operation that the schema allows, applied to rows of the schema in which every stamp has an earlier time, shows
/// as its changes made in order, each write winning.
#[tactic(auto, using(crate::proofs::NewerLaws::newer_wins))]
pub fn newer_wins()
    ensures { NewerWins }
{}
