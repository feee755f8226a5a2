//! The steps of a replay, each made on a world by an event of it, with its lines.

ghost use Rattle.std.specs.Prelude.{◌≡◌, ◌++◌, ◌<◌, [], ◌∷◌, OnOk, IfOk, length};
ghost use Rattle.sv_core.specs.Document.{document_of};
ghost use Rattle.sv_core.specs.History.{moves};
ghost use Rattle.sv_core.specs.Laws.{IsLawful};
ghost use Rattle.sv_core.specs.Legal.{IsSession};
ghost use Rattle.sv_core.specs.MediumState.{IsAwaited};
ghost use Rattle.sv_core.specs.Mediums.{doc_of};
ghost use Rattle.sv_core.specs.Sound.{IsSite, RequestFits};
ghost use Rattle.sv_workload.specs.declared.parts.Step.TheVariants as steps;
ghost use Rattle.sv_report.specs.ReplayText.{started};
ghost use Rattle.sv_report.specs.Steps.{CanMakeAll, IsReady, IsRuled, Replayed, Stepped, StepsFit};

use crate::replies::{
    put_caught, put_commit, put_cut, put_delivered, put_gone, put_order, put_settled,
};
use crate::shows::put_rows;
use std::alloc::Global;
use sv_app::Request;
use sv_core::{Prepared, SiteRows, World, prepare};
use sv_effect::Halt;
use sv_value::{List, NoMemory, Packet, Site};
use sv_workload::Step;

/// Reads the history, which is legal.
fn tell_lawful(w: &World)
    ensures { IsLawful (doc_of w.now.medium) w.now.medium.history }
{
    let _entries = w.history();
}

/// The answer to the next request of a session, prepared on the rows of the site where it is.
#[tactic(auto, using(crate::proofs::AskLaws::preparing))]
fn prepared(alloc: Global, w: &World, session: u16, request: &Request) -> Result<Prepared, NoMemory>
    requires who { IsSession session }
    requires fits { RequestFits (doc_of w.now.medium) request.now }
    requires unlisted { (doc_of w.now.medium).sessions ≡ [] }
    requires ruled { IsRuled w.now }
    ensures ready { IfOk result (IsReady w.now.medium) }
    ensures whose { IfOk result (λ p. p.session ≡ session) }
    ensures asked { IfOk result (λ p. p.request ≡ request.now) }
{
    tell_lawful(w);
    let site = w.site_of(session);
    let index = w.answered(session);
    let mut rows = w.site_rows(site);
    match prepare(alloc, w.doc(), session, site, index, request, &mut rows) {
        Ok(p) => Ok(p),
        Err(Halt::NoMemory) => Err(NoMemory),
        Err(Halt::Missing(_)) => unreachable!(),
    }
}

/// A session asks its next request.
#[tactic(auto, using(crate::proofs::AskLaws::asking))]
fn make_ask(
    alloc: Global,
    out: &mut Vec<u8>,
    w: &mut World,
    session: u16,
    request: &Request,
) -> Result<(), NoMemory>
    requires who { IsSession session }
    requires fits { RequestFits (doc_of w.old.medium) request.now }
    requires awaited { IsAwaited w.old.medium }
    requires unlisted { (doc_of w.old.medium).sessions ≡ [] }
    requires places { length w.old.medium.proposals ≡ 64 }
    requires ruled { IsRuled w.old }
    ensures { OnOk result (Stepped out.old.items w.old (steps.Ask session request.now) out.new.items w.new) }
{
    let p = prepared(alloc, w, session, request)?;
    let c = w.commit(p);
    put_commit(out, w, session, &c)
}

/// A session's operation asks for its slot.
#[tactic(auto, using(crate::proofs::OrderLaws::ordering))]
fn make_order(out: &mut Vec<u8>, w: &mut World, session: u16) -> Result<(), NoMemory>
    requires { IsSession session }
    ensures { OnOk result (Stepped out.old.items w.old (steps.Order session) out.new.items w.new) }
{
    let o = w.order(session);
    put_order(out, w, session, &o)
}

/// A packet comes to a site.
fn make_delivery(
    out: &mut Vec<u8>,
    w: &mut World,
    site: Site,
    packet: Packet,
) -> Result<(), NoMemory>
    requires { IsSite (doc_of w.old.medium) site }
    ensures { OnOk result (Stepped out.old.items w.old (steps.Deliver site packet) out.new.items w.new) }
{
    let d = w.deliver(site, packet);
    put_delivered(out, &d)
}

/// A site settles a packet that came early.
fn make_settling(out: &mut Vec<u8>, w: &mut World, site: Site) -> Result<(), NoMemory>
    requires { IsSite (doc_of w.old.medium) site }
    ensures { OnOk result (Stepped out.old.items w.old (steps.Settle site) out.new.items w.new) }
{
    let p = w.settle(site);
    put_settled(out, &p)
}

/// A site catches up.
fn make_catch(out: &mut Vec<u8>, w: &mut World, site: Site) -> Result<(), NoMemory>
    requires { IsSite (doc_of w.old.medium) site }
    ensures { OnOk result (Stepped out.old.items w.old (steps.Catch site) out.new.items w.new) }
{
    let count = w.catch_up(site);
    put_caught(out, count)
}

/// The rows that a site has of a table are shown.
fn make_show(
    alloc: Global,
    out: &mut Vec<u8>,
    w: &World,
    site: Site,
    table: u16,
) -> Result<(), NoMemory>
    requires site { IsSite (doc_of w.now.medium) site }
    requires table { table < length (doc_of w.now.medium).schema }
    ensures { OnOk result (Stepped out.old.items w.now (steps.Show site table) out.new.items w.now) }
{
    put_rows(alloc, out, w, site, table)
}

/// What a site has is shown.
#[tactic(auto, using(crate::proofs::CutLaws::cutting))]
fn make_cut(out: &mut Vec<u8>, w: &World, site: Site) -> Result<(), NoMemory>
    requires { IsSite (doc_of w.now.medium) site }
    ensures { OnOk result (Stepped out.old.items w.now (steps.ShowCut site) out.new.items w.now) }
{
    tell_lawful(w);
    let sites = w.doc().sites;
    let cut = w.cut(site);
    put_cut(out, sites, &cut)
}

/// A session goes to a site.
fn make_move(out: &mut Vec<u8>, w: &mut World, session: u16, site: Site) -> Result<(), NoMemory>
    requires who { IsSession session }
    requires site { IsSite (doc_of w.old.medium) site }
    requires awaited { moves w.old.medium.history < (doc_of w.old.medium).moves }
    requires unlisted { (doc_of w.old.medium).sessions ≡ [] }
    ensures { OnOk result (Stepped out.old.items w.old (steps.Move session site) out.new.items w.new) }
{
    let g = w.go(session, site);
    put_gone(out, session, site, &g)
}

/// Makes a step on the world, and appends its lines.
#[tactic(auto, using(crate::proofs::StepLaws::fitting))]
fn make_step(alloc: Global, out: &mut Vec<u8>, w: &mut World, step: Step) -> Result<(), NoMemory>
    requires can { CanMakeAll w.old (step ∷ []) }
    requires ruled { IsRuled w.old }
    ensures { OnOk result (Stepped out.old.items w.old step out.new.items w.new) }
{
    match step {
        Step::Ask { session, request } => make_ask(alloc, out, w, session, &request),
        Step::Order { session } => make_order(out, w, session),
        Step::Deliver { site, packet } => make_delivery(out, w, site, packet),
        Step::Settle { site } => make_settling(out, w, site),
        Step::Catch { site } => make_catch(out, w, site),
        Step::Show { site, table } => make_show(alloc, out, w, site, table),
        Step::ShowCut { site } => make_cut(out, w, site),
        Step::Move { session, site } => make_move(out, w, session, site),
    }
}

/// Makes the steps on a world that was just started, by its events, and appends their lines. The document's dictionary is
/// right for it.
///
/// # Errors
///
/// `NoMemory`; then only some of the steps, from the first on, were made.
#[tactic(auto, using(crate::proofs::StepLaws::stepping))]
pub fn replay_steps(
    alloc: Global,
    out: &mut Vec<u8>,
    w: &mut World,
    steps: List<Step>,
) -> Result<(), NoMemory>
    requires begun { w.old ≡ started w.old.medium.doc }
    requires fit { StepsFit (document_of w.old.medium.doc) steps }
    requires ruled { IsRuled w.old }
    ensures { OnOk result (Replayed out.old.items w.old steps out.new.items w.new) }
{
    for step in steps.into_vec() {
        make_step(alloc, out, w, step)?;
    }
    Ok(())
}
