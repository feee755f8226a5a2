ghost use Rattle.std.specs.Prelude.{◌≡◌, ◌+◌, ◌<◌, ◌^◌, ℕ, max, IfOk};
ghost use Rattle.sv_value.specs.Cuts.{counts};
ghost use Rattle.sv_core.specs.Document.{document_of};
ghost use Rattle.sv_core.specs.History.{home};
ghost use Rattle.sv_core.specs.Legal.{IsSession};
ghost use Rattle.sv_core.specs.MediumState.{AreFreshSessions};
ghost use Rattle.sv_core.specs.Sound.{Sound};

use crate::docs::Doc;
use crate::prepared::Prepared;
use std::alloc::Global;
use sv_value::{Cut, NoMemory, Site};

/// An answer whose operation is red and waits for its slot: what was prepared, how many entries stood when that was run,
/// and what the site had then.
#[derive(Debug, Drop)]
pub(crate) struct Proposal {
    pub p: Prepared,
    pub at: u32,
    pub deps: Cut,
}

/// A session: how many of its requests were answered and how often it moved, where it is, what it has seen, and its
/// operation that waits, if one does.
#[derive(Debug, Drop)]
pub(crate) struct Session {
    pub answered: u32,
    pub moved: u32,
    pub site: Site,
    pub seen: Cut,
    pub proposal: Option<Proposal>,
}

/// Raises each count to that of the other cut where that is greater.
fn raise(seen: &mut Cut, cut: &Cut)
    ensures { (o : ℕ) → counts seen.new o ≡ max (counts seen.old o) (counts cut.now o) }
{
    for place in 0..8usize {
        seen.blue[place] = seen.blue[place].max(cut.blue[place]);
    }
    seen.reds = seen.reds.max(cut.reds);
}

impl Session {
    /// One more request was answered, at a site that then has this cut.
    pub fn answer(&mut self, cut: &Cut)
        requires { self.old.answered + 1 < 2 ^ 32 }
        ensures answered { self.new.answered ≡ self.old.answered + 1 }
        ensures seen { (o : ℕ) → counts self.new.seen o ≡ max (counts self.old.seen o) (counts cut.now o) }
        ensures moved { self.new.moved ≡ self.old.moved }
        ensures site { self.new.site ≡ self.old.site }
        ensures proposal { self.new.proposal ≡ self.old.proposal }
    {
        self.answered += 1;
        raise(&mut self.seen, cut);
    }
}

/// The site at which the session begins.
fn home(doc: &Doc, session: u16) -> Site
    requires sound { Sound (document_of doc.now) }
    requires session { IsSession session }
    ensures { result ≡ home (document_of doc.now) session }
{
    match Site::new((1 + (session - 1) % doc.sites as u16) as u8) {
        Some(site) => site,
        None => unreachable!(),
    }
}

/// The 64 sessions, none of which was answered.
pub(crate) fn fresh_sessions(alloc: Global, doc: &Doc) -> Result<Vec<Session>, NoMemory>
    requires { Sound (document_of doc.now) }
    ensures { IfOk result (λ sessions. AreFreshSessions (document_of doc.now) 64 sessions.items) }
{
    let mut sessions = Vec::new(alloc);
    for number in 1..65u16 {
        sessions.push(Session {
            answered: 0,
            moved: 0,
            site: home(doc, number),
            seen: Cut::empty(),
            proposal: None,
        })?;
    }
    Ok(sessions)
}
