use sv_app::Request;
use sv_effect::Outcome;
use sv_threat::Label;
use sv_value::{Packet, Site};

/// What there was no room for.
#[derive(Clone, Copy, Debug, PartialEq, Eq)]
pub enum Which {
    Rows,
    Changes,
}

/// What a request is answered: how its run ended; that an invariant would break, the first by number; or that there was
/// no room, where `used` counts what was used before.
#[derive(Debug, Drop)]
pub enum Reply {
    Ran(Outcome),
    Refused { inv: u16 },
    Full { which: Which, used: u32 },
}

/// An entry of the history: a request answered at a site, with the packet that it published, if it made an operation;
/// a packet of another site applied at a site; or a session that went to a site.
#[derive(Debug, Drop)]
pub enum Entry {
    Answer {
        session: u16,
        /// How many requests of the session were answered before.
        index: u32,
        request: Request,
        site: Site,
        /// How many entries stood when the request was run.
        at: u32,
        reply: Reply,
        label: Label,
        packet: Option<Packet>,
    },
    Apply {
        site: Site,
        packet: Packet,
    },
    Move {
        session: u16,
        site: Site,
    },
}
