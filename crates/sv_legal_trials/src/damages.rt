//! A history with a damage of one entry.
use crate::copies::copied_entry;
use std::alloc::Global;
use std::test::Fail;
use sv_core::{Entry, Label, Reply, Which};
use sv_effect::Outcome;
use sv_value::{List, Packet, Site};

/// What is another of an entry. A site is meant by its number, and a packet by its origin, where 0 has the reds, and its
/// number there.
#[derive(Clone, Copy, Debug)]
pub enum Damage {
    /// The entry is missing.
    Dropped,
    /// It stands twice.
    Twice,
    Session(u16),
    Index(u32),
    Site(u8),
    At(u32),
    /// The reply is that an invariant is broken.
    Refused,
    /// The reply is that there is no room, and nothing is published.
    Full,
    /// The reply is that the run is done, with this label and packet.
    Done(Label, (u8, u32)),
    Label(Label),
    Packet((u8, u32)),
}

fn site(number: u8) -> Result<Site, Fail> {
    Ok(Site::new(number).ok_or("no site")?)
}

fn packet(named: (u8, u32)) -> Result<Packet, Fail> {
    if named.0 == 0 {
        return Ok(Packet::Red { slot: named.1 });
    }
    Ok(Packet::Blue {
        site: site(named.0)?,
        seq: named.1,
    })
}

/// An answer with the damage.
fn damaged_answer(alloc: Global, entry: Entry, damage: Damage) -> Result<Entry, Fail> {
    let Entry::Answer {
        mut session,
        mut index,
        request,
        site: mut at_site,
        mut at,
        mut reply,
        mut label,
        packet: mut named,
    } = entry
    else {
        return Err(Fail::from("no answer"));
    };
    match damage {
        Damage::Session(other) => session = other,
        Damage::Index(other) => index = other,
        Damage::Site(other) => at_site = site(other)?,
        Damage::At(other) => at = other,
        Damage::Refused => reply = Reply::Refused { inv: 1 },
        Damage::Full => {
            reply = Reply::Full {
                which: Which::Changes,
                used: 0,
            };
            label = Label::Nothing;
            named = None;
        }
        Damage::Done(other, name) => {
            reply = Reply::Ran(Outcome::Done(List::new(alloc)));
            label = other;
            named = Some(packet(name)?);
        }
        Damage::Label(other) => label = other,
        Damage::Packet(name) => named = Some(packet(name)?),
        Damage::Dropped | Damage::Twice => {}
    }
    Ok(Entry::Answer {
        session,
        index,
        request,
        site: at_site,
        at,
        reply,
        label,
        packet: named,
    })
}

/// What a site is with the damage.
fn damaged_site(number: Site, damage: Damage) -> Result<Site, Fail> {
    match damage {
        Damage::Site(other) => site(other),
        Damage::Dropped
        | Damage::Twice
        | Damage::Session(_)
        | Damage::Index(_)
        | Damage::At(_)
        | Damage::Refused
        | Damage::Full
        | Damage::Done(..)
        | Damage::Label(_)
        | Damage::Packet(_) => Ok(number),
    }
}

/// What a packet is with the damage.
fn damaged_packet(named: Packet, damage: Damage) -> Result<Packet, Fail> {
    match damage {
        Damage::Packet(other) => packet(other),
        Damage::Dropped
        | Damage::Twice
        | Damage::Session(_)
        | Damage::Index(_)
        | Damage::Site(_)
        | Damage::At(_)
        | Damage::Refused
        | Damage::Full
        | Damage::Done(..)
        | Damage::Label(_) => Ok(named),
    }
}

/// The entry with the damage.
fn damaged(alloc: Global, entry: Entry, damage: Damage) -> Result<Entry, Fail> {
    match entry {
        Entry::Answer { .. } => damaged_answer(alloc, entry, damage),
        Entry::Apply {
            site: number,
            packet: named,
        } => Ok(Entry::Apply {
            site: damaged_site(number, damage)?,
            packet: damaged_packet(named, damage)?,
        }),
        Entry::Move {
            session,
            site: number,
        } => Ok(Entry::Move {
            session,
            site: damaged_site(number, damage)?,
        }),
    }
}

/// A copy of the history with the damage of the entry at this place.
pub fn history_with(
    alloc: Global,
    history: &[Entry],
    place: usize,
    damage: Damage,
) -> Result<Vec<Entry>, Fail> {
    let mut entries = Vec::new(alloc);
    for (at, entry) in history.iter().enumerate() {
        let copy = copied_entry(alloc, entry)?;
        if at != place {
            entries.push(copy)?;
            continue;
        }
        match damage {
            Damage::Dropped => {}
            Damage::Twice => {
                entries.push(copy)?;
                entries.push(copied_entry(alloc, entry)?)?;
            }
            Damage::Session(_)
            | Damage::Index(_)
            | Damage::Site(_)
            | Damage::At(_)
            | Damage::Refused
            | Damage::Full
            | Damage::Done(..)
            | Damage::Label(_)
            | Damage::Packet(_) => entries.push(damaged(alloc, copy, damage)?)?,
        }
    }
    Ok(entries)
}
