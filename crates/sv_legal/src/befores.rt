//! What is known before an entry, and whether an application or a move may come next.

ghost use Rattle.std.specs.Prelude.{◌≡◌, ◌≢◌, ◌≤◌, ◌↔◌, ℕ, length, map, reverse, slice_get, option_copied, Some, IsTrue};
ghost use Rattle.std.specs.Option.{option_map};
ghost use Rattle.sv_value.specs.Cuts.{Covers, counts, number, origin};
ghost use Rattle.sv_core.specs.Document.{document_of};
ghost use Rattle.sv_core.specs.Legal.{IsSession};
ghost use Rattle.sv_core.specs.Sound.{IsSite};
ghost use Rattle.sv_core.specs.declared.docs.Item.TheVariants.{Call, Go};
ghost use Rattle.sv_legal.specs.Turns.{IsReady};

use crate::counts::{answered, answers, cut_of, done, is_quiet, moves, seen_of, site_of};
use crate::fitting::request_fits;
use crate::lists::{all_changes, all_inserts, inserts_of, op_at};
use crate::same::is_same_request;
use sv_app::Request;
use sv_core::{Doc, Entry, Item, Which};
use sv_effect::{Op, RowEffect};
use sv_value::{Cut, Packet, Site};

/// A legal history, oldest entry first, and the lists of the operations that it published, that of the reds first.
#[derive(Clone, Copy)]
pub struct Before<'a> {
    pub doc: &'a Doc,
    pub history: &'a [Entry],
    pub published: &'a [Vec<Op>],
}

/// What an answer says that it answers, where, and on what.
#[derive(Clone, Copy)]
pub struct Asked<'a> {
    pub session: u16,
    pub index: u32,
    pub request: &'a Request,
    pub site: Site,
    pub at: u32,
}

/// Whether it is a session's number.
fn is_session(session: u16) -> bool
    ensures { IsTrue result ↔ IsSession session }
{
    1 <= session && session <= 64
}

/// The item at a place; `None` where there are no more than so many.
fn item_at(items: &[Item], place: usize) -> Option<&Item>
    ensures { option_copied result ≡ slice_get items.now place }
{
    items.get(place)
}

/// Whether the document has this site.
fn is_site(doc: &Doc, site: Site) -> bool
    ensures { IsTrue result ↔ IsSite (document_of doc.now) site }
{
    site.number() <= doc.sites
}

/// Whether a site with this cut lacks the packet, and has its deps.
fn is_ready(cut: &Cut, packet: &Packet, deps: &Cut) -> bool
    ensures { IsTrue result ↔ IsReady (counts cut.now) packet.now (counts deps.now) }
{
    !cut.has(*packet) && cut.covers(deps)
}

impl Before<'_> {
    ghost use Rattle.sv_core.specs.History.{answered, answers, back_to, cut_of, item_of, items_of, moves, published, seen_of};
    ghost use Rattle.sv_core.specs.Legal.{IsApply, IsAsked, IsListed, IsMove};
    ghost use Rattle.sv_core.specs.Room.{changes_used, lack_of, rows_used};
    ghost use Rattle.sv_legal.specs.Before.{doc_of, past_of, IsTold};
    ghost use Rattle.sv_legal.specs.Turns.{IsQuietSince, IsTurn};

    /// What the site has.
    pub fn cut(&self, site: Site) -> Cut
        requires { IsTold self.now }
        ensures { (o : ℕ) → counts result o ≡ cut_of (past_of self.now) site o }
    {
        cut_of(self.history, site)
    }

    /// What the site had when so many entries stood.
    pub fn cut_at(&self, site: Site, at: usize) -> Cut
        requires told { IsTold self.now }
        requires place { at ≤ length self.now.history.now }
        ensures { (o : ℕ) → counts result o ≡ cut_of (back_to at (past_of self.now)) site o }
    {
        cut_of(&self.history[..at], site)
    }

    /// What the session had seen when so many entries stood.
    fn seen_at(&self, session: u16, at: usize) -> Cut
        requires told { IsTold self.now }
        requires place { at ≤ length self.now.history.now }
        ensures { (o : ℕ) → counts result o ≡ seen_of (back_to at (past_of self.now)) session o }
    {
        seen_of(&self.history[..at], session)
    }

    /// The items that the document lists for a session.
    fn items_of(&self, session: u16) -> &[Item]
        requires { 1 ≤ session }
        ensures { result.now ≡ items_of (doc_of self.now) session }
    {
        let place = session as usize - 1;
        let sessions = self.doc.sessions.items();
        if place < sessions.len() {
            sessions[place].items()
        } else {
            &[]
        }
    }

    /// The session's next item, if the document lists one.
    fn next_item(&self, session: u16) -> Option<&Item>
        requires { 1 ≤ session }
        ensures { option_copied result ≡ item_of (doc_of self.now) (past_of self.now) session }
    {
        item_at(self.items_of(session), done(self.history, session))
    }

    /// Whether the request is the session's next item, where the document lists sessions.
    fn is_listed_call(&self, session: u16, request: &Request) -> bool
        requires { 1 ≤ session }
        ensures { IsTrue result ↔ IsListed (doc_of self.now) (past_of self.now) session (Call request.now) }
    {
        if self.doc.sessions.is_empty() {
            return true;
        }
        match self.next_item(session) {
            Some(Item::Call(next)) => is_same_request(next, request),
            Some(Item::Go(_)) | None => false,
        }
    }

    /// Whether going to the site is the session's next item, where the document lists sessions.
    fn is_listed_go(&self, session: u16, site: Site) -> bool
        requires { 1 ≤ session }
        ensures { IsTrue result ↔ IsListed (doc_of self.now) (past_of self.now) session (Go site) }
    {
        if self.doc.sessions.is_empty() {
            return true;
        }
        match self.next_item(session) {
            Some(Item::Go(next)) => next.number() == site.number(),
            Some(Item::Call(_)) | None => false,
        }
    }

    /// Whether the session was answered nothing and didn't move since so many entries stood.
    fn is_quiet_since(&self, session: u16, at: usize) -> bool
        requires { at ≤ length self.now.history.now }
        ensures { IsTrue result ↔ IsQuietSince (past_of self.now) session at }
    {
        is_quiet(&self.history[at..], session)
    }

    /// Whether the site had all that the session had seen when so many entries stood.
    fn had_seen(&self, session: u16, site: Site, at: usize) -> bool
        requires told { IsTold self.now }
        requires place { at ≤ length self.now.history.now }
        ensures { IsTrue result ↔ Covers (cut_of (back_to at (past_of self.now)) site) (seen_of (back_to at (past_of self.now)) session) }
    {
        let seen = self.seen_at(session, at);
        self.cut_at(site, at).covers(&seen)
    }

    /// Whether it is the session's turn to ask, at the site where it is.
    fn is_turn(&self, asked: &Asked<'_>) -> bool
        requires { IsTold self.now }
        ensures { IsTrue result ↔ IsTurn (doc_of self.now) (past_of self.now) asked.now.session asked.now.index asked.now.site }
    {
        is_session(asked.session)
            && answers(self.history) < self.doc.asks as usize
            && asked.index as usize == answered(self.history, asked.session)
            && asked.site.number() as u16 == site_of(self.doc, self.history, asked.session)
    }

    /// Whether the session may ask this.
    pub fn is_asked(&self, asked: &Asked<'_>) -> bool
        requires { IsTold self.now }
        ensures asked { IsTrue result ↔ IsAsked (doc_of self.now) (past_of self.now) asked.now.session asked.now.index asked.now.request.now asked.now.site asked.now.at }
        ensures place { IsTrue result → asked.now.at ≤ length self.now.history.now }
    {
        let at = asked.at as usize;
        self.is_turn(asked)
            && request_fits(self.doc, asked.request)
            && self.is_listed_call(asked.session, asked.request)
            && at <= self.history.len()
            && self.is_quiet_since(asked.session, at)
            && self.had_seen(asked.session, asked.site, at)
    }

    /// Whether the packet of this operation may be applied at the site.
    fn applies(&self, site: Site, packet: &Packet, op: &Op) -> bool
        requires told { IsTold self.now }
        requires stands { slice_get (published (doc_of self.now) (past_of self.now) (origin packet.now)) (number packet.now) ≡ Some op.now }
        ensures { IsTrue result ↔ IsApply (doc_of self.now) (past_of self.now) site packet.now }
    {
        is_ready(&self.cut(site), packet, &op.deps) && is_site(self.doc, site)
    }

    /// Whether the packet is published, and the site lacks it and has all that it was made on.
    pub fn is_apply(&self, site: Site, packet: &Packet) -> bool
        requires { IsTold self.now }
        ensures { IsTrue result ↔ IsApply (doc_of self.now) (past_of self.now) site packet.now }
    {
        match op_at(self.published, packet) {
            Some(op) => self.applies(site, packet, op),
            None => false,
        }
    }

    /// Whether the session may go to the site.
    pub fn is_move(&self, session: u16, site: Site) -> bool
        requires { IsTold self.now }
        ensures { IsTrue result ↔ IsMove (doc_of self.now) (past_of self.now) session site }
    {
        is_session(session)
            && is_site(self.doc, site)
            && moves(self.history) < self.doc.moves as usize
            && self.is_listed_go(session, site)
    }

    /// How much of the room for rows is used.
    fn used_rows(&self) -> u32
        requires { IsTold self.now }
        ensures { result ≡ rows_used (doc_of self.now) (published (doc_of self.now) (past_of self.now)) }
    {
        (self.doc.init.len() + all_inserts(self.published)) as u32
    }

    /// How much of the room for changes is used.
    fn used_changes(&self) -> u32
        requires { IsTold self.now }
        ensures { result ≡ changes_used (published (doc_of self.now) (past_of self.now)) }
    {
        all_changes(self.published) as u32
    }

    /// What there is no room for, of these changes, and how much of it is used; `None` where there is room.
    pub fn lack(&self, effects: &[RowEffect]) -> Option<(Which, u32)>
        requires { IsTold self.now }
        ensures { result ≡ option_map (λ lack. (lack.which, lack.used)) (lack_of (doc_of self.now) (published (doc_of self.now) (past_of self.now)) effects.now) }
    {
        let rows = self.used_rows();
        if rows as usize + inserts_of(effects) > self.doc.rows as usize {
            return Some((Which::Rows, rows));
        }
        let changes = self.used_changes();
        if changes as usize + effects.len() > self.doc.changes as usize {
            return Some((Which::Changes, changes));
        }
        None
    }
}
