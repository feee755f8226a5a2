ghost use Rattle.std.specs.Prelude.{◌≡◌, ◌+◌, ◌<◌, ◌≤◌, [], ℕ, replicate, length, reverse, false, true, None, IfOk, IfSome};
ghost use Rattle.std.specs.Option.{option_map};
ghost use Rattle.sv_value.specs.Cuts.{counts};
ghost use Rattle.sv_effect.specs.BareTables.{bare};
ghost use Rattle.sv_effect.specs.RowsFit.{TablesAreOf};
ghost use Rattle.sv_core.specs.Document.{document_of};

use crate::answers::{Commit, Delivered, Gone, Ordered};
use crate::docs::Doc;
use crate::entries::Entry;
use crate::fetches::fetch;
use crate::media::Medium;
use crate::prepared::Prepared;
use crate::rows::SiteRows;
use crate::sheets::Sheet;
use crate::sites::{SiteState, fresh_sites};
use std::alloc::Global;
use std::marker::Model;
use std::sync::Arc;
use sv_effect::Ask;
use sv_hub::History;
use sv_value::{Cut, NoMemory, Packet, Site};

/// The sites of a document under one history. Contracts see the document, the history, which is legal, the operations
/// that wait for their slots, and the packets that came to a site too early.
#[derive(Drop)]
pub struct World {
    medium: Medium,
    sites: Vec<SiteState>,
}

impl Model for World {
    ghost use Rattle.sv_core.specs.Document.{document_of};
    ghost use Rattle.sv_core.specs.Mediums.{WorldView};
    ghost use Rattle.sv_core.specs.WorldState.{AreStates, inboxes_in};
    ghost use Rattle.std.specs.Coded.{codes};
    ghost use Rattle.sv_core.specs.contracts.docs.Doc as docs;

    ghost Value = { WorldView };

    ghost coded = { Prim.hlevel (codes, docs.the_row.coded) };

    ghost view = { λ w. record { medium = w.medium; inboxes = inboxes_in w.sites.items } };

    ghost invariant = { λ w. AreStates (document_of w.medium.doc) w.medium.history w.sites.items };
}

/// Its name is its document.
impl History for World {
    type Name = Doc;

    type Item = Entry;

    ghost name = { λ w. w.medium.doc };

    ghost past = { λ w. w.medium.history };
}

impl World {
    ghost use Rattle.sv_core.specs.Events.{IsCaught, IsCommit, IsDelivery, IsGone, IsOrdered, IsSettled, after_delivery, inbox_after};
    ghost use Rattle.sv_core.specs.History.{cut_of, published, answered, moved, moves, seen_of, site_of, tables_at};
    ghost use Rattle.sv_core.specs.Laws.{IsLawful};
    ghost use Rattle.sv_core.specs.Legal.{IsListed, IsSession};
    ghost use Rattle.sv_core.specs.Mediums.{AreNextCalls, doc_of, inbox_of, proposal_of, with_history, with_inbox};
    ghost use Rattle.sv_core.specs.MediumState.{CanCommit};
    ghost use Rattle.sv_core.specs.Packets.{finished};
    ghost use Rattle.sv_core.specs.Sheets.{IsFetch, is_known};
    ghost use Rattle.sv_core.specs.Sound.{SoundDoc, IsSite};
    ghost use Rattle.sv_core.specs.WorldState.{AreStates, inboxes_in};
    ghost use Rattle.sv_core.specs.declared.docs.Item.TheVariants.{Go};

    /// The world of a sound document with its dictionary, to which nothing has happened. Takes all the space that its events will need.
    pub fn start(alloc: Global, doc: Arc<Doc>) -> Result<World, NoMemory>
        requires { SoundDoc doc.value }
        ensures { IfOk result (λ w. w ≡ record { medium = record { doc = doc.value; history = []; proposals = replicate 64 None }; inboxes = replicate doc.value.sites [] }) }
    {
        let sites = fresh_sites(alloc, &doc)?;
        let medium = Medium::start(alloc, doc)?;
        Ok(World { medium, sites })
    }

    /// The document. It is sound, with a frugal and right dictionary.
    pub fn doc(&self) -> &Arc<Doc>
        ensures same { result.now.value ≡ self.now.medium.doc }
        ensures sound { SoundDoc result.now.value }
    {
        self.medium.doc()
    }

    /// All that happened, in order.
    pub fn history(&self) -> &[Entry]
        ensures entries { result.now ≡ reverse self.now.medium.history }
        ensures lawful { IsLawful (doc_of self.now.medium) self.now.medium.history }
    {
        self.medium.history()
    }

    /// How many requests of the session were answered: the index of its next answer.
    pub fn answered(&self, session: u16) -> u32
        requires { IsSession session }
        ensures { result ≡ answered self.now.medium.history session }
    {
        self.medium.answered(session)
    }

    /// How often the session moved.
    pub fn moved(&self, session: u16) -> u32
        requires { IsSession session }
        ensures { result ≡ moved self.now.medium.history session }
    {
        self.medium.moved(session)
    }

    /// Where the session is.
    pub fn site_of(&self, session: u16) -> Site
        requires { IsSession session }
        ensures site { result ≡ site_of (doc_of self.now.medium) self.now.medium.history session }
        ensures there { IsSite (doc_of self.now.medium) result }
    {
        self.medium.site_of(session)
    }

    /// What the session has seen.
    pub fn seen(&self, session: u16) -> Cut
        requires { IsSession session }
        ensures { (o : ℕ) → counts result o ≡ seen_of self.now.medium.history session o }
    {
        self.medium.seen(session)
    }

    /// The index of the session's request whose operation waits for its slot; `None` where none waits. Each
    /// operation that waits is that of its session's next call.
    pub fn pending(&self, session: u16) -> Option<u32>
        requires { IsSession session }
        ensures index { result ≡ option_map (λ proposal. proposal.index) (proposal_of self.now.medium session) }
        ensures nexts { AreNextCalls self.now.medium }
    {
        self.medium.pending(session)
    }

    /// What the site has.
    pub fn cut(&self, site: Site) -> Cut
        requires { IsSite (doc_of self.now.medium) site }
        ensures { (o : ℕ) → counts result o ≡ cut_of self.now.medium.history site o }
    {
        self.sites[site.number() as usize - 1].cut()
    }

    /// The site's rows, as a source that knows the answer to every ask.
    pub fn site_rows(&self, site: Site) -> SiteRows<'_>
        requires { IsSite (doc_of self.now.medium) site }
        ensures tables { result.store.now.tables ≡ tables_at (doc_of self.now.medium) self.now.medium.history site }
        ensures fit { TablesAreOf (doc_of self.now.medium).schema result.store.now.tables }
    {
        self.sites[site.number() as usize - 1].rows()
    }

    /// Adds the site's answer to an ask that the sheet doesn't know; and behind an ask for a next key the rows that follow
    /// it, and which keys follow these, at most 32 rows, of what isn't known and while there is room. Each answer takes
    /// one place; the number is how many were added. Takes no memory.
    pub fn fetch(&self, site: Site, ask: &Ask, sheet: &mut Sheet) -> u32
        requires site { IsSite (doc_of self.now.medium) site }
        requires sheet { sheet.old.doc ≡ self.now.medium.doc }
        requires room { 1 ≤ sheet.old.room }
        requires unknown { is_known sheet.old.known ask.now ≡ false }
        ensures fetched { IsFetch (bare (tables_at (doc_of self.now.medium) self.now.medium.history site)) ask.now sheet.old result sheet.new }
        ensures known { is_known sheet.new.known ask.now ≡ true }
    {
        fetch(self.site_rows(site).store, ask, sheet)
    }

    /// Gives the answer that was prepared, unless something stands against it, which is answered in its place. A red
    /// operation waits for its slot. Takes no memory.
    pub fn commit(&mut self, p: Prepared) -> Commit
        requires { CanCommit self.old.medium p }
        ensures answer { IsCommit self.old.medium p result self.new.medium }
        ensures inboxes { self.new.inboxes ≡ self.old.inboxes }
    {
        let place = p.site.number() as usize - 1;
        self.sites[place].commit(&mut self.medium, p)
    }

    /// Asks for the slot of the session's operation that waits: the request is answered, unless another operation has the
    /// slot that was expected. Takes no memory.
    pub fn order(&mut self, session: u16) -> Ordered
        requires { IsSession session }
        ensures answer { IsOrdered self.old.medium session result self.new.medium }
        ensures inboxes { self.new.inboxes ≡ self.old.inboxes }
    {
        let place = self.medium.site_of(session).number() as usize - 1;
        self.sites[place].order(&mut self.medium, session)
    }

    /// Takes a packet to a site: it is applied where the site has all that it was made on, and kept in the inbox where it
    /// is early. Takes no memory.
    pub fn deliver(&mut self, site: Site, packet: Packet) -> Delivered
        requires { IsSite (doc_of self.old.medium) site }
        ensures answer { IsDelivery (doc_of self.old.medium) self.old.medium.history site packet result }
        ensures world { self.new ≡ with_inbox (record { medium = with_history self.old.medium (after_delivery result site packet self.old.medium.history); inboxes = self.old.inboxes }) site (inbox_after result packet (inbox_of self.old site)) }
    {
        let place = site.number() as usize - 1;
        self.sites[place].deliver(&mut self.medium, packet)
    }

    /// Forgets the packets of the site's inbox that it has, and applies the oldest of the others that may be applied, which
    /// leaves the inbox; `None` where none may. Takes no memory.
    pub fn settle(&mut self, site: Site) -> Option<Packet>
        requires { IsSite (doc_of self.old.medium) site }
        ensures settled { IsSettled (doc_of self.old.medium) self.old.medium.history site (inbox_of self.old site) result (inbox_of self.new site) self.new.medium.history }
        ensures world { self.new ≡ with_inbox (record { medium = with_history self.old.medium self.new.medium.history; inboxes = self.old.inboxes }) site (inbox_of self.new site) }
    {
        let place = site.number() as usize - 1;
        self.sites[place].settle(&mut self.medium)
    }

    /// Applies all that is published and that the site lacks, in the order of publishing; how many packets that were.
    /// Takes no memory.
    pub fn catch_up(&mut self, site: Site) -> u32
        requires { IsSite (doc_of self.old.medium) site }
        ensures caught { IsCaught self.old.medium.history site result self.new.medium.history }
        ensures world { self.new ≡ record { medium = with_history self.old.medium self.new.medium.history; inboxes = self.old.inboxes } }
        ensures whole { (o : ℕ) → cut_of self.new.medium.history site o ≡ length (published (doc_of self.new.medium) self.new.medium.history o) }
    {
        let place = site.number() as usize - 1;
        self.sites[place].catch_up(&mut self.medium)
    }

    /// Sends the session to the site, unless an operation of it waits. Takes no memory.
    pub fn go(&mut self, session: u16, site: Site) -> Gone
        requires session { IsSession session }
        requires site { IsSite (doc_of self.old.medium) site }
        requires awaited { moves self.old.medium.history < (doc_of self.old.medium).moves }
        requires listed { IsListed (doc_of self.old.medium) self.old.medium.history session (Go site) }
        ensures answer { IsGone self.old.medium session site result self.new.medium }
        ensures inboxes { self.new.inboxes ≡ self.old.inboxes }
    {
        self.medium.go(session, site)
    }

    /// All sites catch up, site 1 first; how many packets were applied. Takes no memory.
    pub fn finish(&mut self) -> u32
        ensures count { length self.new.medium.history ≡ length self.old.medium.history + result }
        ensures finished { self.new.medium.history ≡ finished (doc_of self.old.medium).sites self.old.medium.history }
        ensures world { self.new ≡ record { medium = with_history self.old.medium self.new.medium.history; inboxes = self.old.inboxes } }
        ensures whole { (site o : ℕ) → IsSite (doc_of self.new.medium) site → cut_of self.new.medium.history site o ≡ length (published (doc_of self.new.medium) self.new.medium.history o) }
    {
        let before = self.history().len();
        let sites = self.doc().sites;
        for place in 0..sites {
            self.catch_up(site_after(place));
        }
        (self.history().len() - before) as u32
    }

    /// The medium, and the state of each site, site 1 first.
    pub fn into_parts(self) -> (Medium, Vec<SiteState>)
        ensures medium { result.0 ≡ self.medium }
        ensures states { AreStates (doc_of self.medium) self.medium.history result.1.items }
        ensures inboxes { inboxes_in result.1.items ≡ self.inboxes }
    {
        let World { medium, sites } = self;
        (medium, sites)
    }

    /// The world of a medium and of the states of all sites of its document, in order, which stand for its history.
    pub fn of_parts(medium: Medium, sites: Vec<SiteState>) -> World
        requires { AreStates (doc_of medium) medium.history sites.items }
        ensures { result ≡ record { medium = medium; inboxes = inboxes_in sites.items } }
    {
        World { medium, sites }
    }
}

/// The site behind so many others.
fn site_after(place: u8) -> Site
    requires { place < 8 }
    ensures { result ≡ place + 1 }
{
    match Site::new(place + 1) {
        Some(site) => site,
        None => unreachable!(),
    }
}
