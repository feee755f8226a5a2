//! The first and the last turn of a request.

ghost use Rattle.std.specs.Prelude.{◌≡◌, IfOk};
ghost use Rattle.sv_hub.specs.Extends.{Extends};
ghost use Rattle.sv_hub.specs.Sight.{Belongs};
ghost use Rattle.sv_core.specs.Document.{document_of};
ghost use Rattle.sv_core.specs.Legal.{Legal};
ghost use Rattle.sv_live.specs.Dues.{IsDue, IsDuly, IsEntryIfAny, IsFound};
ghost use Rattle.sv_live.specs.Receipts.{IsListedSession};

use crate::answers::Attempt;
use crate::attempts::attempt;
use crate::dues::{Due, Next, next_of};
use crate::tells::{tell_lawful, tell_sound, tell_waiting};
use std::sync::Wait;
use sv_core::{Prepared, World};
use sv_hub::{Hub, Pass};
use sv_value::{NoMemory, Packet};

/// An answer of the session: the place of its entry, the index of its request, and what it published.
#[derive(Clone, Copy, Debug, PartialEq, Eq)]
pub(crate) struct Entered {
    pub(crate) place: u32,
    pub(crate) index: u32,
    pub(crate) packet: Option<Packet>,
}

/// What the session does next. Where it goes to a site, it is there afterwards.
#[tactic(auto, using(sv_core::proofs::PastLaws::growing))]
fn advance(w: &mut World, session: u16) -> Result<Next, NoMemory>
    requires { IsListedSession (document_of w.old.medium.doc) session }
    ensures found { IfOk result (IsFound w.old.medium.doc w.new.medium.history session) }
    ensures grows { Extends w.new.medium.history w.old.medium.history }
    ensures doc { w.new.medium.doc ≡ w.old.medium.doc }
    ensures legal { Legal (document_of w.new.medium.doc) w.new.medium.history }
{
    tell_lawful(w);
    tell_sound(w);
    let next = next_of(w, session)?;
    if let Next::Leave(site) = &next {
        w.go(session, *site);
        tell_lawful(w);
    }
    Ok(next)
}

/// Takes a turn, and finds what the session does next. Where it goes to a site, it goes there in that turn.
#[tactic(auto, using(sv_hub::proofs::ExtendsLaws::extending))]
pub(crate) fn begin<R: Wait>(
    rt: &R,
    hub: &Hub<World>,
    pass: Pass<World>,
    session: u16,
) -> (Pass<World>, Result<Next, NoMemory>)
    requires pass { Belongs hub.now pass }
    requires session { IsListedSession (document_of hub.now.name) session }
    ensures own { Belongs hub.now result.0 }
    ensures seen { Extends result.0.seen pass.seen }
    ensures legal { Legal (document_of hub.now.name) result.0.seen }
    ensures found { IfOk result.1 (IsFound hub.now.name result.0.seen session) }
{
    let mut turn = hub.enter(rt, pass);
    let next = advance(turn.value_mut(), session);
    (hub.leave(turn), next)
}

/// Commits what was prepared, unless the session has moved meanwhile. Where the site lacks something that the session has
/// seen, it catches up.
#[tactic(auto, using(sv_core::proofs::PastLaws::growing))]
fn commit_due(w: &mut World, session: u16, due: &Due, p: Prepared) -> Option<Entered>
    requires session { IsListedSession (document_of w.old.medium.doc) session }
    requires due { IsDue w.old.medium.doc session due.now }
    requires duly { IsDuly w.old.medium.doc session due.now p }
    ensures entered { IsEntryIfAny w.old.medium.history w.new.medium.history session result }
    ensures grows { Extends w.new.medium.history w.old.medium.history }
    ensures doc { w.new.medium.doc ≡ w.old.medium.doc }
{
    tell_lawful(w);
    tell_sound(w);
    tell_waiting(w);
    if w.site_of(session) != due.site || w.moved(session) != due.moved {
        return None;
    }
    match attempt(w, p) {
        Attempt::Answered {
            place,
            index,
            packet,
        } => Some(Entered {
            place,
            index,
            packet,
        }),
        Attempt::Short { missing: _ } => {
            w.catch_up(due.site);
            None
        }
        Attempt::Changed { read: _, now } => {
            drop(now);
            None
        }
        Attempt::NotNext { next: _ } | Attempt::Behind { slot: _, owner: _ } => None,
    }
}

/// Takes a turn, and commits what was prepared in it.
#[tactic(auto, using(sv_hub::proofs::ExtendsLaws::extending))]
pub(crate) fn finish<R: Wait>(
    rt: &R,
    hub: &Hub<World>,
    pass: Pass<World>,
    session: u16,
    due: &Due,
    p: Prepared,
) -> (Pass<World>, Option<Entered>)
    requires pass { Belongs hub.now pass }
    requires session { IsListedSession (document_of hub.now.name) session }
    requires due { IsDue hub.now.name session due.now }
    requires duly { IsDuly hub.now.name session due.now p }
    ensures own { Belongs hub.now result.0 }
    ensures seen { Extends result.0.seen pass.seen }
    ensures legal { Legal (document_of hub.now.name) result.0.seen }
    ensures entered { IsEntryIfAny pass.seen result.0.seen session result.1 }
{
    let mut turn = hub.enter(rt, pass);
    let entered = commit_due(turn.value_mut(), session, due, p);
    tell_lawful(turn.value());
    (hub.leave(turn), entered)
}
