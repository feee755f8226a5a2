use sv_app::Reason;

/// How a run's changes are merged with those of other sites.
#[derive(Clone, Copy, Debug, PartialEq, Eq)]
pub enum Label {
    /// There are no changes.
    Nothing,
    /// No change is threatened, so each site applies them as they come.
    Blue,
    /// A change is threatened, so the one order that all sites share is wanted. The first threat is of the change with
    /// this number within this instance of the run, from 1.
    Red {
        instance: u32,
        place: u32,
        reason: Reason,
    },
}
