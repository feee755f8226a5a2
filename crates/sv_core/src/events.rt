//! The events at a site, each on the site's state and the medium. None of them takes memory.

ghost use Rattle.std.specs.Prelude.{◌≡◌, ◌≢◌, ◌↔◌, ◌<◌, ℕ, length, None, Some, IsTrue};
ghost use Rattle.sv_value.specs.Cuts.{counts, number, origin};
ghost use Rattle.sv_effect.specs.Cut.{as_deps};
ghost use Rattle.sv_core.specs.Counts.{AreShort};
ghost use Rattle.sv_core.specs.Events.{AddsAnswer, IsCaught, IsCommit, IsDelivery, IsFirstPlace, IsOrdered, IsReadiness, IsSettled, IsUnchanged, after_delivery, inbox_after};
ghost use Rattle.sv_core.specs.History.{cut_of, published, site_of};
ghost use Rattle.sv_core.specs.Legal.{IsApply, IsSession};
ghost use Rattle.sv_core.specs.MediumState.{CanAnswer, CanCommit, packet_due};
ghost use Rattle.sv_core.specs.Mediums.{doc_of, with_entry, with_history};
ghost use Rattle.sv_core.specs.Room.{lack_of};
ghost use Rattle.sv_core.specs.Standing.{Leaves, Stands};

use crate::answers::{Commit, Delivered, Ordered};
use crate::entries::{Entry, Reply, Which};
use crate::media::Medium;
use crate::numbers::tell_short_changes;
use crate::prepared::Prepared;
use crate::rows::SiteRows;
use crate::sessions::Proposal;
use crate::sites::{SiteState, first_change};
use sv_causal::{Readiness, first_missing, ready};
use sv_effect::Op;
use sv_threat::Label;
use sv_value::{Cut, Packet, Site};

impl SiteState {
    /// The site.
    pub fn site(&self) -> Site
        ensures { result ≡ self.now.site }
    {
        self.site
    }

    /// What the site has.
    pub fn cut(&self) -> Cut
        ensures { result ≡ self.now.cut }
    {
        self.cut
    }

    /// The site's rows, as a source that knows the answer to every ask.
    pub fn rows(&self) -> SiteRows<'_>
        ensures { result.store.now ≡ self.now.rows }
    {
        SiteRows { store: &self.rows }
    }

    /// Applies a packet that may be applied.
    fn apply(&mut self, m: &mut Medium, packet: &Packet)
        requires stands { Stands (doc_of m.old) m.old.history self.old }
        requires next { IsApply (doc_of m.old) m.old.history self.old.site packet.now }
        ensures medium { m.new ≡ with_entry m.old (Entry.Apply self.old.site packet.now) }
        ensures left { Leaves (doc_of m.new) m.new.history self.old self.new }
        ensures inbox { self.new.inbox ≡ self.old.inbox }
    {
        match m.op(packet) {
            Some(op) => self.bring(packet, op),
            None => unreachable!(),
        }
        m.add_apply(self.site, *packet);
    }

    /// Takes a packet to the site: it is applied where the site has all that it was made on, and kept in the inbox where
    /// it is early.
    pub fn deliver(&mut self, m: &mut Medium, packet: Packet) -> Delivered
        requires { Stands (doc_of m.old) m.old.history self.old }
        ensures answer { IsDelivery (doc_of m.old) m.old.history self.old.site packet result }
        ensures medium { m.new ≡ with_history m.old (after_delivery result self.old.site packet m.old.history) }
        ensures left { Leaves (doc_of m.new) m.new.history self.old self.new }
        ensures inbox { self.new.inbox ≡ inbox_after result packet self.old.inbox }
    {
        match self.readiness(m, &packet) {
            None => Delivered::Unknown {
                published: m.count(&packet),
            },
            Some(Readiness::Duplicate) => Delivered::Duplicate,
            Some(Readiness::Early { missing }) => {
                self.inbox.put(packet);
                Delivered::Early { missing }
            }
            Some(Readiness::Now) => {
                self.apply(m, &packet);
                Delivered::Applied
            }
        }
    }

    /// What is to become of the packet; `None` where it isn't published.
    fn readiness(&self, m: &Medium, packet: &Packet) -> Option<Readiness>
        requires { Stands (doc_of m.now) m.now.history self.now }
        ensures { IsReadiness (doc_of m.now) m.now.history self.now.site packet.now result }
    {
        match m.op(packet) {
            Some(op) => Some(ready(&self.cut, op, *packet)),
            None => None,
        }
    }

    /// Forgets the packets of the inbox that the site has, and applies the oldest of the others that may be applied, which
    /// leaves the inbox; `None` where none may.
    pub fn settle(&mut self, m: &mut Medium) -> Option<Packet>
        requires { Stands (doc_of m.old) m.old.history self.old }
        ensures settled { IsSettled (doc_of m.old) m.old.history self.old.site self.old.inbox result self.new.inbox m.new.history }
        ensures medium { m.new ≡ with_history m.old m.new.history }
        ensures left { Leaves (doc_of m.new) m.new.history self.old self.new }
    {
        self.inbox.forget(&self.cut);
        let place = self.first_ready(m)?;
        let packet = self.inbox.remove(place)?;
        self.apply(m, &packet);
        Some(packet)
    }

    /// The place of the oldest packet of the inbox that may be applied; `None` where none may.
    fn first_ready(&self, m: &Medium) -> Option<usize>
        requires { Stands (doc_of m.now) m.now.history self.now }
        ensures { IsFirstPlace (doc_of m.now) m.now.history self.now.site self.now.inbox result }
    {
        for place in 0..self.inbox.len() {
            let packet = self.inbox.get(place)?;
            if self.is_ready(m, &packet) {
                return Some(place);
            }
        }
        None
    }

    /// Whether the site hasn't the packet.
    fn lacks(&self, packet: &Packet) -> bool
        ensures { IsTrue result ↔ (number packet.now < counts self.now.cut (origin packet.now) → ⊥) }
    {
        !self.cut.has(*packet)
    }

    /// Applies all that is published and that the site lacks, in the order of publishing; how many packets that were.
    pub fn catch_up(&mut self, m: &mut Medium) -> u32
        requires { Stands (doc_of m.old) m.old.history self.old }
        ensures caught { IsCaught m.old.history self.old.site result m.new.history }
        ensures medium { m.new ≡ with_history m.old m.new.history }
        ensures left { Leaves (doc_of m.new) m.new.history self.old self.new }
        ensures inbox { self.new.inbox ≡ self.old.inbox }
        ensures whole { (o : ℕ) → cut_of m.new.history self.old.site o ≡ length (published (doc_of m.new) m.new.history o) }
    {
        let mut count = 0;
        let many = m.packets().len();
        for place in self.caught..many {
            let packet = m.packets()[place];
            if self.lacks(&packet) {
                self.apply(m, &packet);
                count += 1;
            }
        }
        self.caught = many;
        count
    }

    /// Gives the answer that was prepared, unless something stands against it, which is answered in its place. A red
    /// operation waits for its slot.
    pub fn commit(&mut self, m: &mut Medium, p: Prepared) -> Commit
        requires stands { Stands (doc_of m.old) m.old.history self.old }
        requires site { p.site ≡ self.old.site }
        requires prepared { CanCommit m.old p }
        ensures answer { IsCommit m.old p result m.new }
        ensures left { Leaves (doc_of m.new) m.new.history self.old self.new }
        ensures inbox { self.new.inbox ≡ self.old.inbox }
    {
        let next = m.answered(p.session);
        if p.index != next {
            return Commit::NotNext { p, next };
        }
        if let Some(index) = m.pending(p.session) {
            return Commit::Waiting { p, index };
        }
        if let Some(missing) = first_missing(&self.cut, &m.seen(p.session)) {
            return Commit::Short { p, missing };
        }
        if let Some((read, now)) = first_change(&self.rows, p.reads.items()) {
            return Commit::Changed { p, read, now };
        }
        self.give(m, p)
    }

    /// What the site has, as operations carry it.
    fn deps(&self) -> Cut
        ensures { result ≡ as_deps (counts self.now.cut) }
    {
        self.cut()
    }

    /// Gives the answer that was prepared, against which nothing stands.
    fn give(&mut self, m: &mut Medium, p: Prepared) -> Commit
        requires stands { Stands (doc_of m.old) m.old.history self.old }
        requires site { p.site ≡ self.old.site }
        requires prepared { CanCommit m.old p }
        requires unchanged { IsUnchanged m.old p }
        ensures answer { IsCommit m.old p result m.new }
        ensures left { Leaves (doc_of m.new) m.new.history self.old self.new }
        ensures inbox { self.new.inbox ≡ self.old.inbox }
    {
        tell_short_changes(p.effects.items());
        let expected = self.cut.reds;
        let session = p.session;
        let proposal = Proposal {
            p,
            at: m.place(),
            deps: self.deps(),
        };
        match proposal.p.label {
            Label::Red { .. } => {
                m.propose(session, proposal);
                Commit::Pending { expected }
            }
            Label::Nothing | Label::Blue => {
                let place = self.answer(m, proposal);
                Commit::Answered { place }
            }
        }
    }

    /// Asks for the slot of the session's operation that waits: the request is answered, unless another operation has the
    /// slot that was expected.
    pub fn order(&mut self, m: &mut Medium, session: u16) -> Ordered
        requires stands { Stands (doc_of m.old) m.old.history self.old }
        requires session { IsSession session }
        requires lives { self.old.site ≡ site_of (doc_of m.old) m.old.history session }
        ensures answer { IsOrdered m.old session result m.new }
        ensures left { Leaves (doc_of m.new) m.new.history self.old self.new }
        ensures inbox { self.new.inbox ≡ self.old.inbox }
    {
        let Some(proposal) = m.withdraw(session) else {
            return Ordered::NonePending;
        };
        let slot = proposal.deps.reds;
        match m.op(&Packet::Red { slot }) {
            Some(op) => Ordered::Behind {
                slot,
                owner: op.site,
            },
            None => {
                let place = self.answer(m, proposal);
                Ordered::Answered { place }
            }
        }
    }

    /// The packet that is due to an operation with this label: the next blue one of the site, or the next red one; `None`
    /// where nothing changes.
    fn due(&self, m: &Medium, label: &Label) -> Option<Packet>
        requires { Stands (doc_of m.now) m.now.history self.now }
        ensures { result ≡ packet_due (doc_of m.now) m.now.history self.now.site label.now }
    {
        let (site, seq, slot) = (self.site, 0, 0);
        match label {
            Label::Nothing => None,
            Label::Blue => Some(Packet::Blue {
                site,
                seq: m.count(&Packet::Blue { site, seq }),
            }),
            Label::Red { .. } => Some(Packet::Red {
                slot: m.count(&Packet::Red { slot }),
            }),
        }
    }

    /// Adds the answer that is due of what was prepared; the place of its entry.
    fn answer(&mut self, m: &mut Medium, proposal: Proposal) -> u32
        requires stands { Stands (doc_of m.old) m.old.history self.old }
        requires site { proposal.p.site ≡ self.old.site }
        requires can { CanAnswer m.old proposal }
        ensures added { AddsAnswer m.old proposal.p.session proposal.p.index proposal.p.request proposal.p.site proposal.at result m.new }
        ensures left { Leaves (doc_of m.new) m.new.history self.old self.new }
        ensures inbox { self.new.inbox ≡ self.old.inbox }
    {
        let place = m.place();
        match self.due(m, &proposal.p.label) {
            None => self.reply(m, proposal),
            Some(packet) => match m.lack(proposal.p.effects.items()) {
                Some((which, used)) => self.refuse(m, proposal, which, used),
                None => self.publish(m, proposal, &packet),
            },
        }
        place
    }

    /// Adds an answer that changes nothing.
    fn reply(&mut self, m: &mut Medium, proposal: Proposal)
        requires stands { Stands (doc_of m.old) m.old.history self.old }
        requires site { proposal.p.site ≡ self.old.site }
        requires can { CanAnswer m.old proposal }
        requires nothing { proposal.p.label ≡ Label.Nothing }
        ensures added { AddsAnswer m.old proposal.p.session proposal.p.index proposal.p.request proposal.p.site proposal.at (length m.old.history) m.new }
        ensures left { Leaves (doc_of m.new) m.new.history self.old self.new }
        ensures inbox { self.new.inbox ≡ self.old.inbox }
    {
        let Proposal { p, at, .. } = proposal;
        let Prepared {
            session,
            index,
            site,
            request,
            reply,
            label,
            ..
        } = p;
        let entry = Entry::Answer {
            session,
            index,
            request,
            site,
            at,
            reply,
            label,
            packet: None,
        };
        m.reply(session, &self.cut, entry);
    }

    /// Adds an answer for which there is no room.
    fn refuse(&mut self, m: &mut Medium, proposal: Proposal, which: Which, used: u32)
        requires stands { Stands (doc_of m.old) m.old.history self.old }
        requires site { proposal.p.site ≡ self.old.site }
        requires can { CanAnswer m.old proposal }
        requires changes { proposal.p.label ≢ Label.Nothing }
        requires lack { lack_of (doc_of m.old) (published (doc_of m.old) m.old.history) proposal.p.effects ≡ Some (record { which = which; used = used }) }
        ensures added { AddsAnswer m.old proposal.p.session proposal.p.index proposal.p.request proposal.p.site proposal.at (length m.old.history) m.new }
        ensures left { Leaves (doc_of m.new) m.new.history self.old self.new }
        ensures inbox { self.new.inbox ≡ self.old.inbox }
    {
        let Proposal { p, at, .. } = proposal;
        let Prepared {
            session,
            index,
            site,
            request,
            ..
        } = p;
        let entry = Entry::Answer {
            session,
            index,
            request,
            site,
            at,
            reply: Reply::Full { which, used },
            label: Label::Nothing,
            packet: None,
        };
        m.reply(session, &self.cut, entry);
    }

    /// Publishes the operation of what was prepared under the packet, applies it here, and adds the answer.
    fn publish(&mut self, m: &mut Medium, proposal: Proposal, packet: &Packet)
        requires stands { Stands (doc_of m.old) m.old.history self.old }
        requires site { proposal.p.site ≡ self.old.site }
        requires can { CanAnswer m.old proposal }
        requires due { packet_due (doc_of m.old) m.old.history self.old.site proposal.p.label ≡ Some packet.now }
        requires room { lack_of (doc_of m.old) (published (doc_of m.old) m.old.history) proposal.p.effects ≡ None }
        requires short { AreShort (doc_of m.old) (published (doc_of m.old) m.old.history) }
        ensures added { AddsAnswer m.old proposal.p.session proposal.p.index proposal.p.request proposal.p.site proposal.at (length m.old.history) m.new }
        ensures left { Leaves (doc_of m.new) m.new.history self.old self.new }
        ensures inbox { self.new.inbox ≡ self.old.inbox }
    {
        let Proposal { p, at, deps } = proposal;
        let Prepared {
            session,
            index,
            site,
            request,
            reply,
            effects,
            needs,
            label,
            ..
        } = p;
        let op = Op {
            time: self.latest + 1,
            site,
            deps,
            effects,
            needs,
        };
        self.bring(packet, &op);
        let entry = Entry::Answer {
            session,
            index,
            request,
            site,
            at,
            reply,
            label,
            packet: Some(*packet),
        };
        m.publish(session, &self.cut, entry, packet, op);
    }

    /// Whether the packet may be applied here now, where the site lacks it.
    fn is_ready(&self, m: &Medium, packet: &Packet) -> bool
        requires { Stands (doc_of m.now) m.now.history self.now }
        ensures { IsTrue result ↔ IsApply (doc_of m.now) m.now.history self.now.site packet.now }
    {
        match self.readiness(m, packet) {
            Some(Readiness::Now) => true,
            Some(Readiness::Duplicate) => false,
            Some(Readiness::Early { .. }) => false,
            None => false,
        }
    }
}
