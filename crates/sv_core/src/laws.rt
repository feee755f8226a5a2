//! What the definitions promise of legal histories, as calls that do nothing: their contracts are the laws.

ghost use Rattle.sv_core.specs.Laws.{
  AnySequence,
  BluesAreSafe,
  BluesLead,
  CutsClosed,
  CutsValid,
  EqualCuts,
  GrownStay,
  JudgedOnce,
  KeptStay,
  LackedUnmade,
  LegalByPlaces,
  NeedsHold,
  OneMore,
  PlacesStand,
  PlacesValid,
  PublishedMerges,
  TablesStand,
};
ghost use Rattle.sv_core.specs.Made.{PreparedIsSafe};
ghost use Rattle.sv_core.specs.OneAnswer.{CommitOnce, DeliveryOnce, GoOnce, OrderOnce, SettleOnce};
ghost use Rattle.sv_core.specs.WorldLaws.{OthersLeave};

/// A request is answered in one way on given tables, and has one label.
pub fn judged_once()
    ensures { JudgedOnce }
{}

/// Sites that have the same operations have equal tables.
pub fn equal_cuts()
    ensures { EqualCuts }
{}

/// A history is legal exactly where each entry is the next one at its place.
pub fn legal_by_places()
    ensures { LegalByPlaces }
{}

/// The tables that a site had at a place are those of its cut there, however much is published later.
pub fn tables_stand()
    ensures { TablesStand }
{}

/// The operations of a legal history are such as the schema allows, no two were made at one site at the same time, blue
/// ones merge, and the deps of each count just the earlier ones of its own origin.
pub fn published_merges()
    ensures { PublishedMerges }
{}

/// An operation that a cut lacks, applied to the tables of the cut, gives the tables of the cut that has it too.
pub fn one_more()
    ensures { OneMore }
{}

/// The operations of a cut of a legal history, applied to the initial tables in any sequence in which each comes once
/// and after those that it was made on, give the tables of the cut.
pub fn any_sequence()
    ensures { AnySequence }
{}

/// A site has, at every place, what its operations were made on.
pub fn cuts_closed()
    ensures { CutsClosed }
{}

/// A row that a closed cut keeps is kept by each closed cut above it.
pub fn kept_stay()
    ensures { KeptStay }
{}

/// A row of a grow-only table that is present in a closed cut is present in each closed cut above it.
pub fn grown_stay()
    ensures { GrownStay }
{}

/// The needs of an operation hold on each closed cut that has what the operation was made on.
pub fn needs_hold()
    ensures { NeedsHold }
{}

/// No closed cut that lacks an operation keeps a row under a key that the operation drew.
pub fn lacked_unmade()
    ensures { LackedUnmade }
{}

/// A blue operation of a legal history is safe and commutes, whatever its time and its site.
pub fn blues_are_safe()
    ensures { BluesAreSafe }
{}

/// From a closed cut with valid tables, blue operations lead to closed cuts with valid tables.
pub fn blues_lead()
    ensures { BluesLead }
{}

/// The tables of every closed cut are valid.
pub fn cuts_valid()
    ensures { CutsValid }
{}

/// The tables of every site at every place are valid.
pub fn places_valid()
    ensures { PlacesValid }
{}

/// The rows of every site at every place are of the document's tables.
pub fn places_stand()
    ensures { PlacesStand }
{}

/// Further entries of other sites, and moves of sessions, change nothing at a site: its entries, its packets, what it has,
/// its tables and the greatest time among what it has stay as they were.
pub fn others_leave()
    ensures { OthersLeave }
{}

/// The operation of an answer that was prepared blue is safe and commutes, on all valid rows of the application that agree
/// with what was read, whatever its time, its site and its deps.
pub fn prepared_is_safe()
    ensures { PreparedIsSafe }
{}

/// What was prepared is committed with one answer, which leaves one medium.
pub fn commit_once()
    ensures { CommitOnce }
{}

/// An order has one answer, which leaves one medium.
pub fn order_once()
    ensures { OrderOnce }
{}

/// A delivery has one answer.
pub fn delivery_once()
    ensures { DeliveryOnce }
{}

/// What settles at a site is one packet or none, and it leaves one inbox and one history.
pub fn settle_once()
    ensures { SettleOnce }
{}

/// Sending a session to a site has one answer, which leaves one medium.
pub fn go_once()
    ensures { GoOnce }
{}
