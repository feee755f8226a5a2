use sv_effect::Told;
use sv_value::{Packet, Site};

/// What came of an attempt to answer a request.
#[derive(Debug, Drop)]
pub enum Attempt {
    /// The session's request of this index is answered: its entry stands at this place of the history, and published this
    /// packet.
    Answered {
        place: u32,
        index: u32,
        packet: Option<Packet>,
    },
    /// A read isn't what the site's tables give now; `read` is its number, from 0, and `now` what they give.
    Changed {
        read: u32,
        now: Told,
    },
    /// Another request of the session is the next one, this one.
    NotNext {
        next: u32,
    },
    /// An operation of the site `owner` has the slot that was expected.
    Behind {
        slot: u32,
        owner: Site,
    },
    /// The site lacks something that the session has seen; `missing` is the first packet of that.
    Short {
        missing: Packet,
    },
}

/// What a request came to.
#[derive(Clone, Copy, Debug, PartialEq, Eq)]
pub enum Receipt {
    /// The session's request of this index is answered: its entry stands at this place of the history.
    Answered { place: u32, index: u32 },
    /// All items of the session were done before; it has so many requests.
    Ended { count: u32 },
}
