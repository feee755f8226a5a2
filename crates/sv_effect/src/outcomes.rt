use crate::ops::{Need, RowEffect};
use sv_app::Instance;
use sv_value::{List, Val};

/// How a run ends.
#[derive(Debug, Drop)]
pub enum Outcome {
    /// With these replies.
    Done(List<Val>),
    /// By an `abort` with this number.
    Abort(u16),
    /// A row that it reads, updates or removes isn't present.
    NoRow,
    /// A row that it inserts is present.
    Exists,
    /// A number leaves 64 bits.
    Range,
    /// It makes more than 64 changes, or gives more than 16 replies.
    TooLarge,
}

/// What a run comes to: its outcome, its changes, the rows that these need, and its instances, that of the body first.
/// All but the outcome are empty where it isn't `Done`.
#[derive(Debug, Drop)]
pub struct Ran {
    pub outcome: Outcome,
    pub effects: List<RowEffect>,
    pub needs: List<Need>,
    pub trace: List<Instance>,
}
