//! What a history, oldest entry first, gives sites and sessions: counted anew along all its entries.

ghost use Rattle.std.specs.Prelude.{◌≡◌, ◌+◌, ◌<◌, ◌≤◌, ℕ, max, reverse};
ghost use Rattle.std.specs.List.{list_all};
ghost use Rattle.sv_value.specs.Cuts.{counts, more, origin};
ghost use Rattle.sv_core.specs.Document.{document_of};
ghost use Rattle.sv_core.specs.History.{
  answered,
  answers,
  cut_of,
  home,
  is_answer,
  is_move,
  is_of,
  moved,
  moves,
  seen_of,
  site_of,
};
ghost use Rattle.sv_legal.specs.Turns.{is_other};
ghost use Rattle.sv_legal.specs.Grown.{site_answered, site_behind, with_brought};

use sv_core::{Doc, Entry};
use sv_value::{Cut, Packet, Site};

fn is_answer(entry: &Entry) -> bool
    ensures { result ≡ is_answer entry.now }
{
    match entry {
        Entry::Answer { .. } => true,
        Entry::Apply { .. } | Entry::Move { .. } => false,
    }
}

fn is_move(entry: &Entry) -> bool
    ensures { result ≡ is_move entry.now }
{
    match entry {
        Entry::Move { .. } => true,
        Entry::Answer { .. } | Entry::Apply { .. } => false,
    }
}

fn is_of(wanted: u16, entry: &Entry) -> bool
    ensures { result ≡ is_of wanted entry.now }
{
    match entry {
        Entry::Answer { session, .. } | Entry::Move { session, .. } => wanted == *session,
        Entry::Apply { .. } => false,
    }
}

/// How many requests are answered.
pub fn answers(history: &[Entry]) -> usize
    ensures { result ≡ answers (reverse history.now) }
{
    history.iter().filter(|entry| is_answer(entry)).count()
}

/// How often sessions move.
pub fn moves(history: &[Entry]) -> usize
    ensures { result ≡ moves (reverse history.now) }
{
    history.iter().filter(|entry| is_move(entry)).count()
}

/// How many requests of the session are answered.
pub fn answered(history: &[Entry], session: u16) -> usize
    ensures { result ≡ answered (reverse history.now) session }
{
    history
        .iter()
        .filter(|entry| is_answer(entry) && is_of(session, entry))
        .count()
}

/// How many requests of the session are answered, and how often it moves.
pub fn done(history: &[Entry], session: u16) -> usize
    ensures { result ≡ answered (reverse history.now) session + moved (reverse history.now) session }
{
    history.iter().filter(|entry| is_of(session, entry)).count()
}

/// Whether no entry is an answer or a move of the session.
pub fn is_quiet(history: &[Entry], session: u16) -> bool
    ensures { result ≡ list_all (is_other session) history.now }
{
    history.iter().all(|entry| !is_of(session, entry))
}

/// Counts the packet.
fn add(cut: &mut Cut, packet: &Packet)
    requires { counts cut.old (origin packet.now) < 4294967295 }
    ensures { (o : ℕ) → counts cut.new o ≡ more (counts cut.old) (origin packet.now) o }
{
    match packet {
        Packet::Blue { site, .. } => cut.add_blue(*site),
        Packet::Red { .. } => cut.add_red(),
    }
}

/// Counts what the entry brings the site.
fn add_brought(cut: &mut Cut, entry: &Entry, site: Site)
    requires { (o : ℕ) → with_brought entry.now site (counts cut.old) o ≤ 4294967295 }
    ensures { (o : ℕ) → counts cut.new o ≡ with_brought entry.now site (counts cut.old) o }
{
    match entry {
        Entry::Answer {
            site: own,
            packet: Some(packet),
            ..
        } if own.number() == site.number() => add(cut, packet),
        Entry::Apply {
            site: target,
            packet,
        } if target.number() == site.number() => add(cut, packet),
        Entry::Answer { .. } | Entry::Apply { .. } | Entry::Move { .. } => {}
    }
}

/// What the site has.
pub fn cut_of(history: &[Entry], site: Site) -> Cut
    requires { (o : ℕ) → cut_of (reverse history.now) site o ≤ 4294967295 }
    ensures { (o : ℕ) → counts result o ≡ cut_of (reverse history.now) site o }
{
    let mut cut = Cut::empty();
    for entry in history {
        add_brought(&mut cut, entry, site);
    }
    cut
}

/// The number of the session's site: that of its last move, or else where it begins.
pub fn site_of(doc: &Doc, history: &[Entry], session: u16) -> u16
    requires sites { 1 ≤ doc.now.sites }
    requires session { 1 ≤ session }
    ensures { result ≡ site_of (document_of doc.now) (reverse history.now) session }
{
    let mut place = 1 + (session - 1) % doc.sites as u16;
    for entry in history {
        place = site_behind(entry, session, place);
    }
    place
}

/// Where the session is behind the entry, if it was at this site before.
fn site_behind(entry: &Entry, wanted: u16, place: u16) -> u16
    ensures { result ≡ site_behind entry.now wanted place }
{
    match entry {
        Entry::Move { session, site } => {
            if wanted == *session {
                site.number() as u16
            } else {
                place
            }
        }
        Entry::Answer { .. } | Entry::Apply { .. } => place,
    }
}

/// Raises each count to that of the other cut where that is greater.
fn raise(seen: &mut Cut, cut: &Cut)
    ensures { (o : ℕ) → counts seen.new o ≡ max (counts seen.old o) (counts cut.now o) }
{
    for place in 0..8usize {
        seen.blue[place] = seen.blue[place].max(cut.blue[place]);
    }
    seen.reds = seen.reds.max(cut.reds);
}

/// The site at which the entry answers the session; `None` where it doesn't.
fn site_answered(entry: &Entry, wanted: u16) -> Option<Site>
    ensures { result ≡ site_answered entry.now wanted }
{
    match entry {
        Entry::Answer { session, site, .. } => {
            if wanted == *session {
                Some(*site)
            } else {
                None
            }
        }
        Entry::Apply { .. } | Entry::Move { .. } => None,
    }
}

/// What the session has seen: the most of each origin that its sites had behind its answers.
pub fn seen_of(history: &[Entry], session: u16) -> Cut
    requires { (s o : ℕ) → cut_of (reverse history.now) s o ≤ 4294967295 }
    ensures { (o : ℕ) → counts result o ≡ seen_of (reverse history.now) session o }
{
    let mut seen = Cut::empty();
    for (place, entry) in history.iter().enumerate() {
        match site_answered(entry, session) {
            Some(site) => raise(&mut seen, &cut_of(&history[..place + 1], site)),
            None => {}
        }
    }
    seen
}
