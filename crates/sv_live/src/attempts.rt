//! What a request does in its last turn.

ghost use Rattle.std.specs.Prelude.{◌≡◌};
ghost use Rattle.sv_hub.specs.Extends.{Extends};
ghost use Rattle.sv_core.specs.Legal.{IsSession};
ghost use Rattle.sv_core.specs.MediumState.{CanCommit};
ghost use Rattle.sv_live.specs.Attempts.{IsAttempt, IsFreed, IsSlotAsked, IsWaiting};
ghost use Rattle.sv_live.specs.Receipts.{HasAnswer, IsAnswerAt};

use crate::answers::Attempt;
use crate::tells::tell_waiting;
use sv_core::{Commit, Entry, Ordered, Prepared, World};
use sv_value::Packet;

/// The index of the answer that stands at the place, and what it published.
fn answer_at(w: &World, session: u16, place: u32) -> (u32, Option<Packet>)
    requires { HasAnswer w.now.medium.history session place }
    ensures { IsAnswerAt w.now.medium.history session place result.0 result.1 }
{
    match &w.history()[place as usize] {
        Entry::Answer { index, packet, .. } => (*index, *packet),
        Entry::Apply { .. } | Entry::Move { .. } => unreachable!(),
    }
}

/// Asks for the slot of the session's operation that waits. Where another operation has it, the site catches up.
#[tactic(auto, using(crate::proofs::AttemptLaws::order_stands))]
fn ask_slot(w: &mut World, session: u16) -> Attempt
    requires session { IsSession session }
    requires waits { IsWaiting w.old.medium session }
    ensures answer { IsSlotAsked w.old.medium session result w.new.medium }
    ensures inboxes { w.new.inboxes ≡ w.old.inboxes }
{
    match w.order(session) {
        Ordered::Answered { place } => {
            let (index, packet) = answer_at(w, session, place);
            Attempt::Answered {
                place,
                index,
                packet,
            }
        }
        Ordered::Behind { slot, owner } => {
            let site = w.site_of(session);
            w.catch_up(site);
            Attempt::Behind { slot, owner }
        }
        Ordered::NonePending => unreachable!(),
    }
}

/// Commits what was prepared, and asks for the slot of the operation that waits then.
#[tactic(auto, using(crate::proofs::AttemptLaws::commit_stands, crate::proofs::AttemptLaws::session_of, crate::proofs::AttemptLaws::proposed_waits, crate::proofs::AttemptLaws::slot_asked))]
fn answer(w: &mut World, p: Prepared) -> Attempt
    requires { CanCommit w.old.medium p }
    ensures answer { IsAttempt w.old.medium p result w.new.medium }
    ensures inboxes { w.new.inboxes ≡ w.old.inboxes }
{
    tell_waiting(w);
    let session = p.session;
    match w.commit(p) {
        Commit::Answered { place } => {
            let (index, packet) = answer_at(w, session, place);
            Attempt::Answered {
                place,
                index,
                packet,
            }
        }
        Commit::Pending { expected: _ } => ask_slot(w, session),
        Commit::Waiting { p, index: _ } => {
            drop(p);
            ask_slot(w, session)
        }
        Commit::Changed { p, read, now } => {
            drop(p);
            Attempt::Changed { read, now }
        }
        Commit::NotNext { p, next } => {
            drop(p);
            Attempt::NotNext { next }
        }
        Commit::Short { p, missing } => {
            drop(p);
            Attempt::Short { missing }
        }
    }
}

/// Commits what was prepared, and asks for the slot of the session's operation that waits then, all in one turn. Where
/// another operation has the slot, the site catches up. Takes no memory.
#[tactic(auto, using(crate::proofs::AttemptLaws::attempting))]
pub fn attempt(w: &mut World, p: Prepared) -> Attempt
    requires { CanCommit w.old.medium p }
    ensures answer { IsAttempt w.old.medium p result w.new.medium }
    ensures free { IsFreed w.new.medium p.session result }
    ensures grows { Extends w.new.medium.history w.old.medium.history }
    ensures doc { w.new.medium.doc ≡ w.old.medium.doc }
    ensures inboxes { w.new.inboxes ≡ w.old.inboxes }
{
    answer(w, p)
}
