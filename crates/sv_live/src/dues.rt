//! What a session does next.

ghost use Rattle.std.specs.Prelude.{◌≡◌, IfOk};
ghost use Rattle.sv_core.specs.Document.{document_of};
ghost use Rattle.sv_core.specs.History.{items_of};
ghost use Rattle.sv_live.specs.Dues.{IsCall, IsDue, IsNextItem};
ghost use Rattle.sv_live.specs.Receipts.{IsListedSession};

use crate::tells::{tell_lawful, tell_sound};
use std::sync::Arc;
use sv_app::Request;
use sv_core::{Doc, Item, World};
use sv_value::{NoMemory, Site};

/// A call that is a session's next item: where the session is, how many of its requests were answered before, and how
/// often it had moved.
#[derive(Drop)]
pub(crate) struct Due {
    pub(crate) doc: Arc<Doc>,
    pub(crate) site: Site,
    pub(crate) index: u32,
    pub(crate) moved: u32,
}

/// What a session does next.
#[derive(Drop)]
pub(crate) enum Next {
    /// All its items are done; so many of them were requests.
    End { count: u32 },
    /// It goes to the site.
    Leave(Site),
    /// It asks.
    Ask(Due),
}

/// The items of the session.
fn items_of(doc: &Doc, session: u16) -> &[Item]
    requires { IsListedSession (document_of doc.now) session }
    ensures { result.now ≡ items_of (document_of doc.now) session }
{
    doc.sessions.items()[session as usize - 1].items()
}

/// The request that the session asks.
pub(crate) fn request_of<'a>(doc: &'a Doc, session: u16, due: &Due) -> &'a Request
    requires session { IsListedSession (document_of doc.now) session }
    requires due { IsDue doc.now session due.now }
    ensures { IsCall (document_of doc.now) session due.now.index due.now.moved result.now }
{
    match &items_of(doc, session)[due.index as usize + due.moved as usize] {
        Item::Call(request) => request,
        Item::Go(_) => unreachable!(),
    }
}

/// What the session does next.
pub(crate) fn next_of(w: &World, session: u16) -> Result<Next, NoMemory>
    requires { IsListedSession (document_of w.now.medium.doc) session }
    ensures { IfOk result (IsNextItem w.now.medium.doc w.now.medium.history session) }
{
    tell_sound(w);
    tell_lawful(w);
    let index = w.answered(session);
    let moved = w.moved(session);
    let site = w.site_of(session);
    let doc = w.doc();
    let items = items_of(doc, session);
    let place = index as usize + moved as usize;
    if place >= items.len() {
        return Ok(Next::End { count: index });
    }
    match &items[place] {
        Item::Go(site) => Ok(Next::Leave(*site)),
        Item::Call(_) => Ok(Next::Ask(Due {
            doc: Arc::clone(doc)?,
            site,
            index,
            moved,
        })),
    }
}
