//! What the definitions promise, as calls that do nothing: their contracts are the laws.

ghost use Rattle.sv_trace.specs.Laws.{ChangesHaveEntries, RunsAreShaped, RunsMakeTheirTables};

/// A run of an accepted application, on arguments that fit and on rows of its tables, has a trace of shaped instances
/// and at most 64 changes, each of which fits the schema.
pub fn runs_are_shaped()
    ensures { RunsAreShaped }
{}

/// The changes of a run find their rows: each row that is updated or removed is kept, or was inserted before. Made in
/// order, they leave the tables that the run leaves.
pub fn runs_make_their_tables()
    ensures { RunsMakeTheirTables }
{}

/// In a run of an accepted application a change's instance is the number of an entry of the trace, and a statement of
/// that entry's unit makes the change.
pub fn changes_have_entries()
    ensures { ChangesHaveEntries }
{}
