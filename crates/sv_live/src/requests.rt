//! Requests that are answered on a world behind a hub.

ghost use Rattle.std.specs.Prelude.{◌≡◌, length, IfOk, IfSome};
ghost use Rattle.sv_hub.specs.Extends.{Extends};
ghost use Rattle.sv_hub.specs.Sight.{Belongs};
ghost use Rattle.sv_post.specs.Sight.{Belongs as IsOfPost, HasSite, IsLater};
ghost use Rattle.sv_core.specs.Document.{document_of};
ghost use Rattle.sv_core.specs.Legal.{Legal};
ghost use Rattle.sv_live.specs.Dues.{IsDue, IsEntryIfAny};
ghost use Rattle.sv_live.specs.Receipts.{IsListedSession, IsReceipt, IsReceiptIfAny};

use crate::answers::Receipt;
use crate::dues::{Due, Next};
use crate::fetching::prepare_outside;
use crate::gates::{Gate, wait_admits};
use crate::turns::{Entered, begin, finish};
use std::alloc::Global;
use std::sync::Wait;
use sv_core::World;
use sv_hub::{Hub, Pass};
use sv_post::{Post, PostPass};
use sv_value::{NoMemory, Site};

/// The receipt of an answer. What it published is sent to the other sites.
fn send<R: Wait>(rt: &R, post: &Post, mail: &mut PostPass, from: Site, entered: &Entered) -> Receipt
    requires mail { IsOfPost post.now mail.old }
    requires from { HasSite post.now from }
    ensures mail { IsOfPost post.now mail.new }
    ensures later { IsLater mail.old mail.new }
    ensures receipt { result ≡ Receipt.Answered entered.now.place entered.now.index }
{
    if let Some(packet) = entered.packet {
        post.send(rt, mail, from, packet);
    }
    Receipt::Answered {
        place: entered.place,
        index: entered.index,
    }
}

/// Asks the request that is due, once: the receipt, or none where it is to be asked anew.
#[tactic(auto, using(sv_hub::proofs::ExtendsLaws::extending))]
fn ask<G: Gate, R: Wait>(
    alloc: Global,
    rt: &R,
    hub: &Hub<World>,
    pass: Pass<World>,
    session: u16,
    due: &Due,
    post: &Post,
    mail: &mut PostPass,
    gate: &G,
) -> (Pass<World>, Result<Option<Receipt>, NoMemory>)
    requires pass { Belongs hub.now pass }
    requires legal { Legal (document_of hub.now.name) pass.seen }
    requires session { IsListedSession (document_of hub.now.name) session }
    requires due { IsDue hub.now.name session due.now }
    requires mail { IsOfPost post.now mail.old }
    requires sites { length post.now ≡ hub.now.name.sites }
    ensures own { Belongs hub.now result.0 }
    ensures seen { Extends result.0.seen pass.seen }
    ensures legal { Legal (document_of hub.now.name) result.0.seen }
    ensures receipt { IfOk result.1 (IsReceiptIfAny (document_of hub.now.name) pass.seen result.0.seen session) }
    ensures mail { IsOfPost post.now mail.new }
    ensures later { IsLater mail.old mail.new }
{
    let (mine, prepared) = prepare_outside(alloc, rt, hub, pass, session, due, gate);
    let p = match prepared {
        Ok(p) => p,
        Err(none) => return (mine, Err(none)),
    };
    wait_admits(gate, &p);
    let (mine, entered) = finish(rt, hub, mine, session, due, p);
    match entered {
        Some(entered) => (mine, Ok(Some(send(rt, post, mail, due.site, &entered)))),
        None => (mine, Ok(None)),
    }
}

/// Does the session's next item, once: the receipt, or none where the session isn't answered and has not ended.
#[tactic(auto, using(sv_hub::proofs::ExtendsLaws::extending, crate::proofs::ReceiptLaws::receipt_if_any))]
fn try_request<G: Gate, R: Wait>(
    alloc: Global,
    rt: &R,
    hub: &Hub<World>,
    pass: Pass<World>,
    session: u16,
    post: &Post,
    mail: &mut PostPass,
    gate: &G,
) -> (Pass<World>, Result<Option<Receipt>, NoMemory>)
    requires pass { Belongs hub.now pass }
    requires session { IsListedSession (document_of hub.now.name) session }
    requires mail { IsOfPost post.now mail.old }
    requires sites { length post.now ≡ hub.now.name.sites }
    ensures own { Belongs hub.now result.0 }
    ensures seen { Extends result.0.seen pass.seen }
    ensures legal { Legal (document_of hub.now.name) result.0.seen }
    ensures receipt { IfOk result.1 (IsReceiptIfAny (document_of hub.now.name) pass.seen result.0.seen session) }
    ensures mail { IsOfPost post.now mail.new }
    ensures later { IsLater mail.old mail.new }
{
    let (mine, next) = begin(rt, hub, pass, session);
    match next {
        Ok(Next::End { count }) => (mine, Ok(Some(Receipt::Ended { count }))),
        Ok(Next::Leave(_)) => (mine, Ok(None)),
        Ok(Next::Ask(due)) => ask(alloc, rt, hub, mine, session, &due, post, mail, gate),
        Err(none) => (mine, Err(none)),
    }
}

/// Answers the session's next request, behind the moves that are listed before it. It is prepared without the turn, over
/// answers that are fetched one turn at a time, and committed in a turn of its own; where something stands against it, all
/// begins anew. What an answer publishes is sent to the other sites; no delivery is waited for. The pass has then seen a
/// legal history, in which the receipt stands.
///
/// # Errors
///
/// `NoMemory` where there is none outside of the last turn; then nothing of this call waits for a slot.
#[tactic(auto, using(sv_hub::proofs::ExtendsLaws::extending, crate::proofs::ReceiptLaws::receipt_earlier, sv_post::proofs::SightLaws::later_same, sv_post::proofs::SightLaws::later_trans))]
pub fn request<G: Gate, R: Wait>(
    alloc: Global,
    rt: &R,
    hub: &Hub<World>,
    pass: Pass<World>,
    session: u16,
    post: &Post,
    mail: &mut PostPass,
    gate: &G,
) -> (Pass<World>, Result<Receipt, NoMemory>)
    requires pass { Belongs hub.now pass }
    requires session { IsListedSession (document_of hub.now.name) session }
    requires mail { IsOfPost post.now mail.old }
    requires sites { length post.now ≡ hub.now.name.sites }
    ensures own { Belongs hub.now result.0 }
    ensures seen { Extends result.0.seen pass.seen }
    ensures legal { Legal (document_of hub.now.name) result.0.seen }
    ensures receipt { IfOk result.1 (IsReceipt (document_of hub.now.name) pass.seen result.0.seen session) }
    ensures mail { IsOfPost post.now mail.new }
    ensures later { IsLater mail.old mail.new }
{
    let mut mine = pass;
    for _ in rt.forever() {
        let (back, tried) = try_request(alloc, rt, hub, mine, session, post, mail, gate);
        match tried {
            Ok(Some(receipt)) => return (back, Ok(receipt)),
            Ok(None) => mine = back,
            Err(none) => return (back, Err(none)),
        }
    }
    unreachable!()
}
