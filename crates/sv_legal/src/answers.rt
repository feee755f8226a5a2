//! Whether an entry may come next, and what it publishes.

ghost use Rattle.std.specs.Prelude.{◌≡◌, ◌≢◌, ◌≤◌, ◌↔◌, ℕ, length, IsTrue, IfOk};
ghost use Rattle.sv_value.specs.Cuts.{counts};
ghost use Rattle.sv_threat.specs.declared.label.Label.{Label};

use crate::befores::{Asked, Before};
use crate::lists::{latest_in, list_of};
use crate::same::is_same_reply;
use std::alloc::Global;
use sv_core::{Entry, Prepared, Reply, prepare};
use sv_effect::{Halt, Op};
use sv_plain::PlainRows;
use sv_threat::Label;
use sv_value::{NoMemory, Packet, Site};

/// What was found of an entry: it isn't the next one; it is, and publishes nothing; or it is, and publishes this operation.
#[derive(Drop)]
pub enum Finding {
    Illegal,
    Silent,
    Publishes { packet: Packet, op: Op },
}

/// What an answer shows.
#[derive(Clone, Copy)]
pub struct Shown<'a> {
    pub reply: &'a Reply,
    pub label: &'a Label,
    pub packet: &'a Option<Packet>,
}

impl Shown<'_> {
    /// Whether it shows this reply, this label and this packet.
    fn is(&self, reply: &Reply, label: &Label, packet: &Option<Packet>) -> bool
        ensures { IsTrue result ↔ ((self.now.reply.now ≡ reply.now) × (self.now.label.now ≡ label.now) × (self.now.packet.now ≡ packet.now)) }
    {
        is_same_reply(self.reply, reply) && self.label == label && self.packet == packet
    }
}

impl Before<'_> {
    ghost use Rattle.std.specs.Prelude.{None};
    ghost use Rattle.sv_core.specs.History.{back_to, cut_of, op_of, published};
    ghost use Rattle.sv_core.specs.Legal.{IsAsked, IsDue, IsNext, Shows};
    ghost use Rattle.sv_core.specs.Room.{lack_of};
    ghost use Rattle.sv_core.specs.declared.entries.Entry.TheVariants as entries;
    ghost use Rattle.sv_value.specs.declared.packets.Packet.TheVariants as packets;
    ghost use Rattle.sv_legal.specs.Before.{doc_of, past_of, IsRuled, IsTold};
    ghost use Rattle.sv_legal.specs.Findings.{IsFinding, IsPrepared, op_making};

    /// What the request is answered on the site's tables at its place: each row of them is computed anew, by the query,
    /// from all operations that the site had.
    fn prepared(&self, alloc: Global, asked: &Asked<'_>) -> Result<Prepared, NoMemory>
        requires told { IsTold self.now }
        requires ruled { IsRuled self.now }
        requires asked { IsAsked (doc_of self.now) (past_of self.now) asked.now.session asked.now.index asked.now.request.now asked.now.site asked.now.at }
        ensures { IfOk result (IsPrepared (doc_of self.now) (past_of self.now) asked.now.session asked.now.index asked.now.request.now asked.now.site asked.now.at) }
    {
        let cut = self.cut_at(asked.site, asked.at as usize);
        let mut rows = PlainRows {
            alloc,
            app: &self.doc.app,
            init: self.doc.init.items(),
            published: self.published,
            cut: &cut,
        };
        match prepare(
            alloc,
            self.doc,
            asked.session,
            asked.site,
            asked.index,
            asked.request,
            &mut rows,
        ) {
            Ok(p) => Ok(p),
            Err(Halt::NoMemory) => Err(NoMemory),
            Err(Halt::Missing(_)) => unreachable!(),
        }
    }

    /// Whether the answer shows what is due where there is room for its operation, which is published under this packet,
    /// or where there is none.
    fn is_shown(&self, p: &Prepared, due: Packet, shown: &Shown<'_>) -> bool
        requires { IsTold self.now }
        ensures { IsTrue result ↔ Shows (lack_of (doc_of self.now) (published (doc_of self.now) (past_of self.now)) p.now.effects) p.now.reply p.now.label due shown.now.reply.now shown.now.label.now shown.now.packet.now }
    {
        match self.lack(p.effects.items()) {
            Some((which, used)) => shown.is(&Reply::Full { which, used }, &Label::Nothing, &None),
            None => shown.is(&p.reply, &p.label, &Some(due)),
        }
    }

    /// The packet under which the site's next blue operation is published.
    fn next_blue(&self, site: Site) -> Packet
        requires { IsTold self.now }
        ensures { result ≡ packets.Blue site (length (published (doc_of self.now) (past_of self.now) site)) }
    {
        let seq = list_of(self.published, site.number() as usize).len() as u32;
        Packet::Blue { site, seq }
    }

    /// The packet under which the next red operation is published.
    fn next_red(&self) -> Packet
        requires { IsTold self.now }
        ensures { result ≡ packets.Red (length (published (doc_of self.now) (past_of self.now) 0)) }
    {
        let slot = list_of(self.published, 0).len() as u32;
        Packet::Red { slot }
    }

    /// Whether the answer is due at this place, and shows what is due of what was prepared for it.
    fn is_due(&self, asked: &Asked<'_>, p: &Prepared, shown: &Shown<'_>) -> bool
        requires told { IsTold self.now }
        requires place { asked.now.at ≤ length self.now.history.now }
        ensures { IsTrue result ↔ IsDue (doc_of self.now) (past_of self.now) asked.now.site asked.now.at (op_making p.now.effects) p.now.reply p.now.label shown.now.reply.now shown.now.label.now shown.now.packet.now }
    {
        let at = asked.at as usize;
        match &p.label {
            Label::Nothing => {
                at == self.history.len() && shown.is(&p.reply, &Label::Nothing, &None)
            }
            Label::Blue => {
                at == self.history.len() && self.is_shown(p, self.next_blue(asked.site), shown)
            }
            Label::Red { .. } => {
                self.has_all_reds(asked.site, at) && self.is_shown(p, self.next_red(), shown)
            }
        }
    }

    /// Whether the site had all reds when so many entries stood.
    fn has_all_reds(&self, site: Site, at: usize) -> bool
        requires told { IsTold self.now }
        requires place { at ≤ length self.now.history.now }
        ensures { IsTrue result ↔ (cut_of (back_to at (past_of self.now)) site 0 ≡ length (published (doc_of self.now) (past_of self.now) 0)) }
    {
        self.cut_at(site, at).reds as usize == list_of(self.published, 0).len()
    }

    /// The operation of the answer, which makes changes.
    fn op(&self, asked: &Asked<'_>, p: Prepared) -> Op
        requires told { IsTold self.now }
        requires place { asked.now.at ≤ length self.now.history.now }
        requires prepared { IsPrepared (doc_of self.now) (past_of self.now) asked.now.session asked.now.index asked.now.request.now asked.now.site asked.now.at p }
        requires some { p.label ≢ Label.Nothing }
        ensures { result ≡ op_of (doc_of self.now) (published (doc_of self.now) (past_of self.now)) (past_of self.now) asked.now.session asked.now.index asked.now.request.now asked.now.site asked.now.at }
    {
        let now = self.cut(asked.site);
        let deps = self.cut_at(asked.site, asked.at as usize);
        let Prepared { effects, needs, .. } = p;
        Op {
            time: latest_in(self.published, &now) + 1,
            site: asked.site,
            deps,
            effects,
            needs,
        }
    }

    /// What is found of an answer that shows what is due.
    fn found(&self, asked: &Asked<'_>, p: Prepared, shown: &Shown<'_>) -> Finding
        requires told { IsTold self.now }
        requires asked { IsAsked (doc_of self.now) (past_of self.now) asked.now.session asked.now.index asked.now.request.now asked.now.site asked.now.at }
        requires place { asked.now.at ≤ length self.now.history.now }
        requires prepared { IsPrepared (doc_of self.now) (past_of self.now) asked.now.session asked.now.index asked.now.request.now asked.now.site asked.now.at p }
        requires due { IsDue (doc_of self.now) (past_of self.now) asked.now.site asked.now.at (op_making p.effects) p.reply p.label shown.now.reply.now shown.now.label.now shown.now.packet.now }
        ensures { IsFinding (doc_of self.now) (past_of self.now) (entries.Answer asked.now.session asked.now.index asked.now.request.now asked.now.site asked.now.at shown.now.reply.now shown.now.label.now shown.now.packet.now) result }
    {
        match shown.packet {
            None => Finding::Silent,
            Some(packet) => {
                let packet = *packet;
                let op = self.op(asked, p);
                Finding::Publishes { packet, op }
            }
        }
    }

    /// What is found of an answer that may be asked.
    fn judged(
        &self,
        alloc: Global,
        asked: &Asked<'_>,
        shown: &Shown<'_>,
    ) -> Result<Finding, NoMemory>
        requires told { IsTold self.now }
        requires ruled { IsRuled self.now }
        requires asked { IsAsked (doc_of self.now) (past_of self.now) asked.now.session asked.now.index asked.now.request.now asked.now.site asked.now.at }
        requires place { asked.now.at ≤ length self.now.history.now }
        ensures { IfOk result (IsFinding (doc_of self.now) (past_of self.now) (entries.Answer asked.now.session asked.now.index asked.now.request.now asked.now.site asked.now.at shown.now.reply.now shown.now.label.now shown.now.packet.now)) }
    {
        let p = self.prepared(alloc, asked)?;
        if !self.is_due(asked, &p, shown) {
            return Ok(Finding::Illegal);
        }
        Ok(self.found(asked, p, shown))
    }

    /// What is found of an answer.
    fn answer(
        &self,
        alloc: Global,
        asked: &Asked<'_>,
        shown: &Shown<'_>,
    ) -> Result<Finding, NoMemory>
        requires told { IsTold self.now }
        requires ruled { IsRuled self.now }
        ensures { IfOk result (IsFinding (doc_of self.now) (past_of self.now) (entries.Answer asked.now.session asked.now.index asked.now.request.now asked.now.site asked.now.at shown.now.reply.now shown.now.label.now shown.now.packet.now)) }
    {
        if !self.is_asked(asked) {
            return Ok(Finding::Illegal);
        }
        self.judged(alloc, asked, shown)
    }

    /// What is found of the entry, if it comes next.
    pub fn finding(&self, alloc: Global, entry: &Entry) -> Result<Finding, NoMemory>
        requires told { IsTold self.now }
        requires ruled { IsRuled self.now }
        ensures { IfOk result (IsFinding (doc_of self.now) (past_of self.now) entry.now) }
    {
        match entry {
            Entry::Answer {
                session,
                index,
                request,
                site,
                at,
                reply,
                label,
                packet,
            } => {
                let asked = Asked {
                    session: *session,
                    index: *index,
                    request,
                    site: *site,
                    at: *at,
                };
                let shown = Shown {
                    reply,
                    label,
                    packet,
                };
                self.answer(alloc, &asked, &shown)
            }
            Entry::Apply { site, packet } => {
                if self.is_apply(*site, packet) {
                    Ok(Finding::Silent)
                } else {
                    Ok(Finding::Illegal)
                }
            }
            Entry::Move { session, site } => {
                if self.is_move(*session, *site) {
                    Ok(Finding::Silent)
                } else {
                    Ok(Finding::Illegal)
                }
            }
        }
    }
}
