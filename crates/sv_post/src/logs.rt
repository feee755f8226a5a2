//! What passes know of a mailbox, and what a step of one tells it. It exists in proofs alone.

use crossbeam_queue::protocol::{Lesson, Outcome, Protocol, Split};
use std::collections::LinkedList;
use sv_value::Packet;

/// What happens at a mailbox: a packet is put, or the oldest is taken.
pub enum Event {
    Put(Packet),
    Taken,
}

/// All that happened at a mailbox until the pass last looked, the newest first.
pub struct Log {
    pub seen: LinkedList<Event>,
}

/// A mailbox has one log, which all have seen a part of.
pub struct OneLog;

impl Protocol<Packet, Log> for OneLog {
    ghost use Rattle.std.specs.Prelude.{[]};
    ghost use Rattle.sv_post.specs.Logs.{IsLogged, seeing};

    ghost holds = { IsLogged };

    ghost first = { seeing [] };
}

/// Puts a packet.
pub struct Put;

impl Outcome<Packet, Log> for Put {
    ghost use Rattle.sv_post.specs.Logs.{Puts};

    ghost then = { λ before packet after. Puts before.seen packet after.seen };
}

impl Lesson<Packet, Log> for Put {
    ghost use Rattle.sv_post.specs.Logs.{Holds};

    ghost fact = { λ v. Holds v.seen };
}

/// Takes the oldest packet, or looks at what is held.
pub struct Take;

impl Outcome<Packet, Log> for Take {
    ghost use Rattle.sv_post.specs.Logs.{Takes};

    ghost then = { λ before packet after. Takes before.seen packet after.seen };
}

impl Lesson<Packet, Log> for Take {
    ghost use Rattle.sv_post.specs.Logs.{Holds};

    ghost fact = { λ v. Holds v.seen };
}

/// Two passes that have seen what the one had.
pub struct Both;

impl Split<Log> for Both {
    ghost left = { λ v. v };

    ghost right = { λ v. v };
}
