use crate::prepared::Prepared;
use sv_effect::Told;
use sv_value::{Packet, Site};

/// What became of an answer that was prepared.
#[derive(Debug, Drop)]
pub enum Commit {
    /// The request is answered: its entry stands at this place of the history.
    Answered { place: u32 },
    /// The operation is red and waits for its slot, where so many stand before it.
    Pending { expected: u32 },
    /// A read isn't what the site's tables give now; `read` is its number, from 0, and `now` what they give.
    Changed { p: Prepared, read: u32, now: Told },
    /// Another request of the session is the next one, this one.
    NotNext { p: Prepared, next: u32 },
    /// An operation of the session waits for its slot: that of the request of this index.
    Waiting { p: Prepared, index: u32 },
    /// The site lacks something that the session has seen; `missing` is the first packet of that.
    Short { p: Prepared, missing: Packet },
}

/// What came of asking for the slot of a pending operation.
#[derive(Clone, Copy, Debug, PartialEq, Eq)]
pub enum Ordered {
    /// The request is answered: its entry stands at this place of the history.
    Answered { place: u32 },
    /// An operation of the site `owner` has the slot that was expected; the session may ask again.
    Behind { slot: u32, owner: Site },
    /// No operation of the session waits.
    NonePending,
}

/// What became of a packet that was delivered: applied; had before; early, since the site lacks what `missing` names;
/// or never published, where `published` counts those of its origin that are.
#[derive(Clone, Copy, Debug, PartialEq, Eq)]
pub enum Delivered {
    Applied,
    Duplicate,
    Early { missing: Packet },
    Unknown { published: u32 },
}

/// What came of sending a session to a site.
#[derive(Clone, Copy, Debug, PartialEq, Eq)]
pub enum Gone {
    /// It is there: the entry stands at this place of the history.
    Moved { place: u32 },
    /// An operation of the session waits for its slot: that of the request of this index.
    Waiting { index: u32 },
}
