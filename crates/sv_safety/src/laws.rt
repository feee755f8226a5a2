//! What the definitions promise of safe operations, as calls that do nothing: their contracts are the laws.

ghost use Rattle.sv_safety.specs.Laws.{
  BlueIsSafe,
  DrawnStay,
  GrownStays,
  InitialStand,
  KeptStays,
  NeedsStay,
  RowsStay,
  StampsStayEarlier,
};
ghost use Rattle.sv_safety.specs.Runs.{
  BlueRunsAreSafe,
  FittingRunsHold,
  InitialUndrawn,
  RequestsDrawApart,
  RunsDraw,
  RunsMakeOps,
  StandingFits,
};

/// An operation that the schema allows, that has the needs of its changes and that draws no key twice is safe if no
/// reason threatens one of its changes: it leaves valid tables valid wherever its needs hold and no row is kept under a
/// key that it drew, and commutes with the operations of other sites.
pub fn blue_is_safe()
    ensures { BlueIsSafe }
{}

/// Needs that hold stay so, whatever operation of the schema is applied.
pub fn needs_stay()
    ensures { NeedsStay }
{}

/// Stamps that are earlier than a time stay so under operations that are.
pub fn stamps_stay_earlier()
    ensures { StampsStayEarlier }
{}

/// An operation finds its rows and leaves rows of the schema, wherever its needs hold and no row is kept under a key
/// that it drew.
pub fn rows_stay()
    ensures { RowsStay }
{}

/// The tables of initial rows have rows of the schema, with the stamps of what was there from the start.
pub fn initial_stand()
    ensures { InitialStand }
{}

/// A row that is kept stays kept, whatever operation is applied.
pub fn kept_stays()
    ensures { KeptStays }
{}

/// A present row of a grow-only table stays present, whatever operation of the schema is applied.
pub fn grown_stays()
    ensures { GrownStays }
{}

/// Under keys that an operation drew no other one keeps a row where its needs hold.
pub fn drawn_stay()
    ensures { DrawnStay }
{}

/// A run draws keys among the 64 from its first key on, and none of them twice.
pub fn runs_draw()
    ensures { RunsDraw }
{}

/// The operation of a run of an accepted application, on arguments that fit and on rows of its tables, fits the
/// schema, has the needs of its changes and draws no key twice.
pub fn runs_make_ops()
    ensures { RunsMakeOps }
{}

/// The operation of such a run is safe if no reason threatens one of its changes, whatever its time, its site and its
/// deps.
pub fn blue_runs_are_safe()
    ensures { BlueRunsAreSafe }
{}

/// On the tables that it was made on, the needs of a run's operation hold, no row is kept under a key that it drew, it
/// finds its rows, and it leaves valid tables of rows of the schema. This is so if its changes fit there and its time
/// is later than all times there.
pub fn fitting_runs_hold()
    ensures { FittingRunsHold }
{}

/// Rows of the schema have cells that fit its tables, and without their stamps they are rows that runs may read.
pub fn standing_fits()
    ensures { StandingFits }
{}

/// The operations of two requests, of one session or of two of the 64, draw no key both.
pub fn requests_draw_apart()
    ensures { RequestsDrawApart }
{}

/// No initial row stands under a key that the operation of a request drew.
pub fn initial_undrawn()
    ensures { InitialUndrawn }
{}
