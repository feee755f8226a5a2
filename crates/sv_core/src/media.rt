ghost use Rattle.std.specs.Prelude.{◌≡◌, ◌≢◌, ◌+◌, ◌<◌, ◌≤◌, [], ◌∷◌, ℕ, length, replicate, reverse, map, All, None, Some, slice_get, option_copied, IfOk, IfSome, MatchOption};
ghost use Rattle.std.specs.Option.{option_map};
ghost use Rattle.sv_value.specs.Cuts.{counts, origin, number};
ghost use Rattle.sv_core.specs.Counts.{AddsShort, AreShort};
ghost use Rattle.sv_core.specs.Document.{document_of};

use crate::answers::Gone;
use crate::docs::Doc;
use crate::entries::{Entry, Which};
use crate::numbers::tell_short_rows;
use crate::publications::{Publications, inserts_of};
use crate::sessions::{Proposal, Session, fresh_sessions};
use std::alloc::Global;
use std::marker::Model;
use std::sync::Arc;
use sv_effect::{Op, RowEffect};
use sv_value::{Cut, NoMemory, Packet, Site};

/// What all sites of a document share: its history, the operations that were published, and its sessions. Contracts see
/// the document, the history, which is legal, and the operations that wait for their slots.
#[derive(Drop)]
pub struct Medium {
    doc: Arc<Doc>,
    history: Vec<Entry>,
    published: Publications,
    sessions: Vec<Session>,
}

impl Model for Medium {
    ghost use Rattle.std.specs.Prelude.{reverse};
    ghost use Rattle.std.specs.Vec.{vec_capacity};
    ghost use Rattle.sv_core.specs.Document.{document_of};
    ghost use Rattle.sv_core.specs.Mediums.{MediumView};
    ghost use Rattle.sv_core.specs.MediumState.{proposals_in, IsKept};
    ghost use Rattle.std.specs.Coded.{codes};
    ghost use Rattle.sv_core.specs.contracts.docs.Doc as docs;

    ghost Value = { MediumView };

    ghost coded = { Prim.hlevel (codes, docs.the_row.coded) };

    ghost view = { λ m. record { doc = m.doc.value; history = reverse m.history.items; proposals = proposals_in m.sessions.items } };

    ghost invariant = { λ m. IsKept m.doc.value (reverse m.history.items) m.published m.sessions.items (vec_capacity m.history) };
}

impl Medium {
    ghost use Rattle.sv_core.specs.History.{cut_of, published, answers, answered, moved, moves, site_of, seen_of};
    ghost use Rattle.sv_core.specs.Laws.{IsLawful};
    ghost use Rattle.sv_core.specs.Legal.{IsNext, IsApply, IsListed, IsSession};
    ghost use Rattle.sv_core.specs.Mediums.{AreNextCalls, doc_of, proposal_of, with_proposal, with_entry};
    ghost use Rattle.sv_core.specs.MediumState.{IsAwaited, IsPending, IsReply, Publishes, shown, site_in};
    ghost use Rattle.sv_core.specs.Packets.{packets_in};
    ghost use Rattle.sv_core.specs.Room.{lack_of};
    ghost use Rattle.sv_core.specs.Events.{IsGone};
    ghost use Rattle.sv_core.specs.Sound.{SoundDoc, IsSite};
    ghost use Rattle.sv_core.specs.declared.docs.Item.TheVariants.{Go};

    /// The medium of a sound document, to which nothing has happened. Takes all the space that its events will need.
    pub(crate) fn start(alloc: Global, doc: Arc<Doc>) -> Result<Medium, NoMemory>
        requires { SoundDoc doc.value }
        ensures { IfOk result (λ m. m ≡ record { doc = doc.value; history = []; proposals = replicate 64 None }) }
    {
        tell_short_rows(doc.init.items());
        let history = Vec::with_capacity(alloc, 9 * doc.asks as usize + doc.moves as usize)?;
        let published = Publications::start(alloc, doc.asks)?;
        let sessions = fresh_sessions(alloc, &doc)?;
        Ok(Medium {
            doc,
            history,
            published,
            sessions,
        })
    }

    /// The document. It is sound, with a frugal and right dictionary.
    pub fn doc(&self) -> &Arc<Doc>
        ensures same { result.now.value ≡ self.now.doc }
        ensures sound { SoundDoc result.now.value }
    {
        &self.doc
    }

    /// All that happened, in order.
    pub fn history(&self) -> &[Entry]
        ensures entries { result.now ≡ reverse self.now.history }
        ensures lawful { IsLawful (doc_of self.now) self.now.history }
    {
        &self.history
    }

    /// How many requests of the session were answered: the index of its next answer.
    pub fn answered(&self, session: u16) -> u32
        requires { IsSession session }
        ensures { result ≡ answered self.now.history session }
    {
        self.sessions[session as usize - 1].answered
    }

    /// How often the session moved.
    pub fn moved(&self, session: u16) -> u32
        requires { IsSession session }
        ensures { result ≡ moved self.now.history session }
    {
        self.sessions[session as usize - 1].moved
    }

    /// Where the session is.
    pub fn site_of(&self, session: u16) -> Site
        requires { IsSession session }
        ensures site { result ≡ site_of (doc_of self.now) self.now.history session }
        ensures there { IsSite (doc_of self.now) result }
    {
        self.sessions[session as usize - 1].site
    }

    /// What the session has seen.
    pub fn seen(&self, session: u16) -> Cut
        requires { IsSession session }
        ensures { (o : ℕ) → counts result o ≡ seen_of self.now.history session o }
    {
        self.sessions[session as usize - 1].seen
    }

    /// The index of the session's request whose operation waits for its slot; `None` where none waits. Each
    /// operation that waits is that of its session's next call.
    pub fn pending(&self, session: u16) -> Option<u32>
        requires { IsSession session }
        ensures index { result ≡ option_map (λ proposal. proposal.index) (proposal_of self.now session) }
        ensures nexts { AreNextCalls self.now }
    {
        match &self.sessions[session as usize - 1].proposal {
            Some(proposal) => Some(proposal.p.index),
            None => None,
        }
    }

    /// Sends the session to the site, unless an operation of it waits. Takes no memory.
    pub fn go(&mut self, session: u16, site: Site) -> Gone
        requires session { IsSession session }
        requires site { IsSite (doc_of self.old) site }
        requires awaited { moves self.old.history < (doc_of self.old).moves }
        requires listed { IsListed (doc_of self.old) self.old.history session (Go site) }
        ensures { IsGone self.old session site result self.new }
    {
        match self.pending(session) {
            Some(index) => Gone::Waiting { index },
            None => {
                let place = self.history.len() as u32;
                self.add_move(session, site);
                Gone::Moved { place }
            }
        }
    }

    /// How many entries stand: the place of the next one.
    pub(crate) fn place(&self) -> u32
        ensures place { result ≡ length self.now.history }
        ensures short { AreShort (doc_of self.now) (published (doc_of self.now) self.now.history) }
    {
        self.history.len() as u32
    }

    /// The operation of the packet; `None` where it isn't published.
    pub(crate) fn op(&self, packet: &Packet) -> Option<&Op>
        ensures op { option_copied result ≡ slice_get (published (doc_of self.now) self.now.history (origin packet.now)) (number packet.now) }
        ensures lawful { IsLawful (doc_of self.now) self.now.history }
        ensures short { AreShort (doc_of self.now) (published (doc_of self.now) self.now.history) }
    {
        self.published.get(packet)
    }

    /// How many operations of the packet's origin are published.
    pub(crate) fn count(&self, packet: &Packet) -> u32
        ensures { result ≡ length (published (doc_of self.now) self.now.history (origin packet.now)) }
    {
        self.published.count(packet)
    }

    /// The packets of all published operations, in the order of publishing.
    pub(crate) fn packets(&self) -> &[Packet]
        ensures packets { result.now ≡ packets_in self.now.history }
        ensures lawful { IsLawful (doc_of self.now) self.now.history }
    {
        self.published.order()
    }

    /// What there is no room for, of these changes, and how much of it is used; `None` where there is room.
    pub(crate) fn lack(&self, effects: &[RowEffect]) -> Option<(Which, u32)>
        requires { length effects.now ≤ 64 }
        ensures { result ≡ option_map (λ lack. (lack.which, lack.used)) (lack_of (doc_of self.now) (published (doc_of self.now) self.now.history) effects.now) }
    {
        let rows = self.doc.init.len() as u32 + self.published.inserts();
        if rows + inserts_of(effects) > self.doc.rows {
            return Some((Which::Rows, rows));
        }
        let changes = self.published.changes();
        if changes + effects.len() as u32 > self.doc.changes {
            return Some((Which::Changes, changes));
        }
        None
    }

    /// Lets the operation of an answer that was prepared wait for its slot.
    pub(crate) fn propose(&mut self, session: u16, proposal: Proposal)
        requires session { IsSession session }
        requires pending { IsPending (doc_of self.old) self.old.history session proposal }
        requires none { proposal_of self.old session ≡ None }
        requires awaited { IsAwaited self.old }
        ensures { self.new ≡ with_proposal self.old session (shown (Some proposal)) }
    {
        self.sessions[session as usize - 1].proposal = Some(proposal);
    }

    /// Takes the operation of the session that waits.
    pub(crate) fn withdraw(&mut self, session: u16) -> Option<Proposal>
        requires { IsSession session }
        ensures shown { shown result ≡ proposal_of self.old session }
        ensures pending { IfSome result (λ proposal. IsPending (doc_of self.old) self.old.history session proposal) }
        ensures awaited { IfSome result (λ proposal. IsAwaited self.new) }
        ensures gone { self.new ≡ with_proposal self.old session None }
    {
        self.sessions[session as usize - 1].proposal.take()
    }

    /// Adds an answer that publishes nothing.
    pub(crate) fn reply(&mut self, session: u16, cut: &Cut, entry: Entry)
        requires session { IsSession session }
        requires none { proposal_of self.old session ≡ None }
        requires awaited { IsAwaited self.old }
        requires next { IsNext (doc_of self.old) self.old.history entry }
        requires reply { IsReply session entry }
        requires cut { (o : ℕ) → counts cut.now o ≡ cut_of (entry ∷ self.old.history) (site_in entry) o }
        ensures { self.new ≡ with_entry self.old entry }
    {
        self.sessions[session as usize - 1].answer(cut);
        self.history.push_reserved(entry);
    }

    /// Adds an answer that publishes the operation.
    pub(crate) fn publish(&mut self, session: u16, cut: &Cut, entry: Entry, packet: &Packet, op: Op)
        requires session { IsSession session }
        requires none { proposal_of self.old session ≡ None }
        requires awaited { IsAwaited self.old }
        requires next { IsNext (doc_of self.old) self.old.history entry }
        requires news { Publishes (doc_of self.old) self.old.history session packet.now op entry }
        requires short { All AddsShort op.effects }
        requires cut { (o : ℕ) → counts cut.now o ≡ cut_of (entry ∷ self.old.history) (site_in entry) o }
        ensures { self.new ≡ with_entry self.old entry }
    {
        self.sessions[session as usize - 1].answer(cut);
        self.published.publish(packet, op);
        self.history.push_reserved(entry);
    }

    /// Adds that a packet was applied at a site.
    pub(crate) fn add_apply(&mut self, site: Site, packet: Packet)
        requires { IsApply (doc_of self.old) self.old.history site packet }
        ensures { self.new ≡ with_entry self.old (Entry.Apply site packet) }
    {
        self.history.push_reserved(Entry::Apply { site, packet });
    }

    /// Adds that the session went to the site.
    fn add_move(&mut self, session: u16, site: Site)
        requires session { IsSession session }
        requires site { IsSite (doc_of self.old) site }
        requires none { proposal_of self.old session ≡ None }
        requires awaited { moves self.old.history < (doc_of self.old).moves }
        requires listed { IsListed (doc_of self.old) self.old.history session (Go site) }
        ensures { self.new ≡ with_entry self.old (Entry.Move session site) }
    {
        let state = &mut self.sessions[session as usize - 1];
        state.moved += 1;
        state.site = site;
        self.history.push_reserved(Entry::Move { session, site });
    }
}
