use sv_app::{InitRow, Request};
use sv_value::{List, Packet, Site};

/// A step of a replay.
#[derive(Debug, Drop)]
pub enum Step {
    /// A session asks for a transaction.
    Ask { session: u16, request: Request },
    /// The pending operation of a session takes its place in the order.
    Order { session: u16 },
    /// A packet comes to a site.
    Deliver { site: Site, packet: Packet },
    /// A site applies a packet that came early.
    Settle { site: Site },
    /// A site applies all published operations that it lacks.
    Catch { site: Site },
    /// The rows that a site has of a table are shown.
    Show { site: Site, table: u16 },
    /// What a site has applied is shown.
    ShowCut { site: Site },
    /// A session goes to a site.
    Move { session: u16, site: Site },
}

/// What a document asks for: nothing, the steps of a replay, or the requests of each session.
#[derive(Debug, Drop)]
pub enum Work {
    Nothing,
    Replay(List<Step>),
    Sessions(List<List<Request>>),
}

/// What stands behind the transactions of a document: the initial rows, the number of sites, how many rows and changes
/// there may be, and the work.
#[derive(Debug, Drop)]
pub struct Parts {
    pub init: List<InitRow>,
    pub sites: u8,
    pub rows: u32,
    pub changes: u32,
    pub work: Work,
}
