//! Copies of entries.
use std::alloc::Global;
use sv_app::{Arg, Request};
use sv_core::{Entry, Reply};
use sv_effect::Outcome;
use sv_value::{List, NoMemory};

fn copied_arg(alloc: Global, arg: &Arg) -> Result<Arg, NoMemory> {
    match arg {
        Arg::Int(number) => Ok(Arg::Int(*number)),
        Arg::Text(text) => Ok(Arg::Text(*text)),
        Arg::Ints(numbers) => Ok(Arg::Ints(numbers.copied(alloc)?)),
    }
}

pub fn copied_request(alloc: Global, request: &Request) -> Result<Request, NoMemory> {
    let mut args = List::new(alloc);
    for arg in request.args.items() {
        args.push(copied_arg(alloc, arg)?)?;
    }
    Ok(Request {
        txn: request.txn,
        args,
    })
}

fn copied_outcome(alloc: Global, outcome: &Outcome) -> Result<Outcome, NoMemory> {
    Ok(match outcome {
        Outcome::Done(values) => Outcome::Done(values.copied(alloc)?),
        Outcome::Abort(number) => Outcome::Abort(*number),
        Outcome::NoRow => Outcome::NoRow,
        Outcome::Exists => Outcome::Exists,
        Outcome::Range => Outcome::Range,
        Outcome::TooLarge => Outcome::TooLarge,
    })
}

fn copied_reply(alloc: Global, reply: &Reply) -> Result<Reply, NoMemory> {
    Ok(match reply {
        Reply::Ran(outcome) => Reply::Ran(copied_outcome(alloc, outcome)?),
        Reply::Refused { inv } => Reply::Refused { inv: *inv },
        Reply::Full { which, used } => Reply::Full {
            which: *which,
            used: *used,
        },
    })
}

pub fn copied_entry(alloc: Global, entry: &Entry) -> Result<Entry, NoMemory> {
    Ok(match entry {
        Entry::Answer {
            session,
            index,
            request,
            site,
            at,
            reply,
            label,
            packet,
        } => Entry::Answer {
            session: *session,
            index: *index,
            request: copied_request(alloc, request)?,
            site: *site,
            at: *at,
            reply: copied_reply(alloc, reply)?,
            label: *label,
            packet: *packet,
        },
        Entry::Apply { site, packet } => Entry::Apply {
            site: *site,
            packet: *packet,
        },
        Entry::Move { session, site } => Entry::Move {
            session: *session,
            site: *site,
        },
    })
}
