ghost use Rattle.std.specs.Prelude.{◌≡◌, ◌↔◌, ◌+◌, ◌<◌, ◌≤◌, ◌^◌, ℕ, length, map, IfOk, IsTrue, MatchOption};
ghost use Rattle.sv_value.specs.Cuts.{counts, more, origin};
ghost use Rattle.sv_app.specs.Schema.{schema_of};
ghost use Rattle.sv_effect.specs.Agrees.{Agrees};
ghost use Rattle.sv_effect.specs.BareTables.{bare};
ghost use Rattle.sv_effect.specs.Reads.{answer_of, read_of};
ghost use Rattle.sv_core.specs.Document.{document_of};
ghost use Rattle.sv_core.specs.Events.{IsFirstChange};
ghost use Rattle.sv_core.specs.Sound.{Sound, IsSite};
ghost use Rattle.sv_core.specs.Standing.{AreFresh, CanBring, IsBrought, IsFresh};

use crate::applying::told;
use crate::docs::Doc;
use std::alloc::Global;
use std::sync::Arc;
use sv_causal::Inbox;
use sv_effect::{Op, Read, RowStore, Told};
use sv_pool::PoolStore;
use sv_value::{Cut, NoMemory, Packet, Site};

/// What one site has: its rows, what it has of each origin, the packets of that in the order in which they came, the
/// greatest time of its operations, the packets that came too early, and how many of the first published packets it is
/// known to have.
#[derive(Drop)]
pub struct SiteState {
    pub(crate) doc: Arc<Doc>,
    pub(crate) site: Site,
    pub(crate) rows: PoolStore,
    pub(crate) cut: Cut,
    pub(crate) past: Vec<Packet>,
    pub(crate) latest: u64,
    pub(crate) inbox: Inbox,
    pub(crate) caught: usize,
}

fn add(cut: &mut Cut, packet: &Packet)
    requires { counts cut.old (origin packet.now) < 4294967295 }
    ensures { (o : ℕ) → counts cut.new o ≡ more (counts cut.old) (origin packet.now) o }
{
    match packet {
        Packet::Blue { site, .. } => cut.add_blue(*site),
        Packet::Red { .. } => cut.add_red(),
    }
}

/// Whether both say the same.
fn is_told(now: &Told, before: &Told) -> bool
    ensures { IsTrue result ↔ (answer_of now.now ≡ answer_of before.now) }
{
    now == before
}

/// The first read that isn't what the store gives, with its number, from 0, and what the store gives; `None` where all are.
pub(crate) fn first_change(rows: &PoolStore, reads: &[Read]) -> Option<(u32, Told)>
    requires { length reads.now < 2 ^ 32 }
    ensures { MatchOption result (Agrees (bare rows.now.tables) (map read_of reads.now)) (λ change. IsFirstChange (bare rows.now.tables) (map read_of reads.now) change.0 (answer_of change.1)) }
{
    for (place, read) in reads.iter().enumerate() {
        let now = told(rows, &read.ask);
        if !is_told(&now, &read.told) {
            return Some((place as u32, now));
        }
    }
    None
}

/// The site of this number with the initial rows, and nothing else.
fn fresh_site(alloc: Global, doc: &Arc<Doc>, site: Site) -> Result<SiteState, NoMemory>
    requires sound { Sound (document_of doc.now.value) }
    requires there { IsSite (document_of doc.now.value) site }
    ensures { IfOk result (λ state. IsFresh (document_of doc.now.value) site state) }
{
    let init = doc.init.items();
    let room = doc.rows - init.len() as u32;
    Ok(SiteState {
        doc: Arc::clone(doc)?,
        site,
        rows: PoolStore::start(alloc, &doc.app, init, room)?,
        cut: Cut::empty(),
        past: Vec::with_capacity(alloc, doc.asks as usize)?,
        latest: 0,
        inbox: Inbox::new(alloc)?,
        caught: 0,
    })
}

/// The sites of the document with the initial rows, and nothing else.
pub(crate) fn fresh_sites(alloc: Global, doc: &Arc<Doc>) -> Result<Vec<SiteState>, NoMemory>
    requires { Sound (document_of doc.now.value) }
    ensures { IfOk result (λ sites. AreFresh (document_of doc.now.value) doc.now.value.sites sites.items) }
{
    let mut sites = Vec::new(alloc);
    for place in 0..doc.sites {
        match Site::new(place + 1) {
            Some(site) => sites.push(fresh_site(alloc, doc, site)?)?,
            None => unreachable!(),
        }
    }
    Ok(sites)
}

impl SiteState {
    /// Brings the site an operation, whose packet this is.
    pub(crate) fn bring(&mut self, packet: &Packet, op: &Op)
        requires { CanBring (schema_of self.old.doc.value.app.tables.items) packet.now op.now self.old }
        ensures { IsBrought (schema_of self.old.doc.value.app.tables.items) packet.now op.now self.old self.new }
    {
        add(&mut self.cut, packet);
        self.past.push_reserved(*packet);
        self.latest = self.latest.max(op.time);
        self.rows.apply(&self.doc.app, op);
    }
}
