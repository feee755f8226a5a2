ghost use Rattle.std.specs.Prelude.{◌≡◌, ◌≤◌, ◌<◌, ◌+◌, ◌-◌, ◌++◌, ◌∷◌, [], All, IfOk, IsTrue, ◌↔◌, true, length};
ghost use Rattle.std.specs.List.{Contains};
ghost use Rattle.sv_hub.specs.Extends.{Extends};
ghost use Rattle.sv_hub.specs.Sight.{Belongs};
ghost use Rattle.sv_post.specs.Sight.{Belongs as IsPassOf};
ghost use Rattle.sv_core.specs.Document.{document_of};
ghost use Rattle.sv_core.specs.Sound.{IsSite};
ghost use Rattle.sv_live.specs.Crews.{AllEnded, Answers, AreOf, HasCrews, HasEnded, HasSeen, IsDone, IsJobOf, IsPlanOf, IsWork, Gathers, duties_in, site_in};
ghost use Rattle.sv_live.specs.Receipts.{IsListedSession};
ghost use Rattle.sv_live.specs.declared.crews.Duty.TheVariants.{Requests};
ghost use Rattle.sv_live.specs.declared.crews.Worked.{Worked as WorkedValue};

use crate::answers::Receipt;
use crate::deliveries::deliver_some;
use crate::gates::Gate;
use crate::offices::{Office, Passes};
use crate::requests::request;
use std::alloc::Global;
use std::collections::VecDeque;
use std::sync::Wait;
use std::sync::atomic::Ordering;
use std::thread;
use std::thread::Threads;
use sv_core::World;
use sv_hub::Pass;
use sv_value::{NoMemory, Site};

/// How many packets a delivery worker takes in one call.
const PACKETS: u32 = 16;

/// After so many calls in a row that found its mailbox empty a delivery worker ends.
const EMPTY_ROUNDS: u32 = 1_000_000;

/// What a worker does: it answers the sessions of one of the crews of a site, where `worker` counts from 0; or it takes
/// packets to a site.
#[derive(Drop)]
pub(crate) enum Duty {
    Requests { site: Site, worker: u8 },
    Deliveries { site: Site },
}

/// A worker's duty, with passes of its own.
#[derive(Drop)]
pub(crate) struct Job {
    pub duty: Duty,
    pub passes: Passes,
}

/// What a worker gives back: its pass, and whether all its sessions ended. A delivery worker has none.
#[derive(Drop)]
pub(crate) struct Worked {
    pub pass: Pass<World>,
    pub ended: bool,
}

/// Jobs, and the passes that those of further jobs are split from.
#[derive(Drop)]
pub(crate) struct Plan {
    pub jobs: Vec<Job>,
    pub passes: Passes,
}

/// Whether the session, from 1, is one of those that the worker of the site answers.
fn is_of(office: &Office, session: u16, site: Site, worker: u8) -> bool
    requires { 1 ≤ session }
    ensures { IsTrue result ↔ Answers office.now.hub.name.sites office.now.workers (Requests site worker) session }
{
    let sites = office.sites as u16;
    let place = session - 1;
    place % sites + 1 == site.number() as u16
        && place / sites % office.workers as u16 == worker as u16
}

/// The sessions that the worker of the site answers, in order.
#[tactic(auto, using(crate::proofs::CrewLaws::gathering))]
fn sessions_of(
    alloc: Global,
    office: &Office,
    site: Site,
    worker: u8,
) -> Result<VecDeque<u16>, NoMemory>
    ensures { IfOk result (λ sessions. Gathers (document_of office.now.hub.name) office.now.workers (Requests site worker) office.now.sessions sessions.items) }
{
    let mut sessions = VecDeque::new(alloc);
    for place in 0..office.sessions {
        if is_of(office, place + 1, site, worker) {
            sessions.reserve(1)?;
            sessions.push_back_reserved(place + 1);
        }
    }
    Ok(sessions)
}

/// Answers the sessions of the worker, one request of each that has not ended in turn, until all have ended, or until
/// there is no memory.
#[tactic(auto, using(crate::proofs::CrewLaws::finishing))]
fn answer<G: Gate, R: Wait>(
    alloc: Global,
    rt: &R,
    office: &Office,
    gate: &G,
    site: Site,
    worker: u8,
    passes: Passes,
) -> Worked
    requires { AreOf office.now passes }
    ensures { IsWork office.now (Requests site worker) result }
{
    match sessions_of(alloc, office, site, worker) {
        Ok(sessions) => answer_all(alloc, rt, office, gate, passes, sessions),
        Err(NoMemory) => {
            office.stop.store(true, Ordering::SeqCst);
            Worked {
                pass: passes.world,
                ended: false,
            }
        }
    }
}

#[tactic(auto, using(crate::proofs::CrewLaws::serving, sv_hub::proofs::ExtendsLaws::extending))]
fn answer_all<G: Gate, R: Wait>(
    alloc: Global,
    rt: &R,
    office: &Office,
    gate: &G,
    passes: Passes,
    sessions: VecDeque<u16>,
) -> Worked
    requires passes { AreOf office.now passes }
    requires sessions { All (IsListedSession (document_of office.now.hub.name)) sessions.items }
    ensures own { Belongs office.now.hub result.pass }
    ensures ended { result.ended ≡ true → All (HasEnded (document_of office.now.hub.name) result.pass.seen) sessions.items }
{
    let Passes {
        world: mut pass,
        mut mail,
    } = passes;
    let mut left = sessions;
    for _ in rt.forever() {
        let Some(session) = left.pop_front() else {
            return Worked { pass, ended: true };
        };
        if office.stop.load(Ordering::SeqCst) {
            break;
        }
        let (next, receipt) = request(
            alloc,
            rt,
            &office.hub,
            pass,
            session,
            &office.post,
            &mut mail,
            gate,
        );
        pass = next;
        match receipt {
            Ok(Receipt::Answered { place: _, index: _ }) => left.push_back_reserved(session),
            Ok(Receipt::Ended { count: _ }) => {}
            Err(NoMemory) => {
                office.stop.store(true, Ordering::SeqCst);
                break;
            }
        }
    }
    Worked { pass, ended: false }
}

/// Takes packets to the site until all request workers have ended, one worker found no memory, or its mailbox was found
/// empty again and again.
fn deliver_all<R: Wait>(rt: &R, office: &Office, site: Site, passes: Passes) -> Pass<World>
    requires passes { AreOf office.now passes }
    requires site { IsSite (document_of office.now.hub.name) site }
    ensures { Belongs office.now.hub result }
{
    let Passes {
        world: mut pass,
        mut mail,
    } = passes;
    let mut empty_rounds = 0;
    for _ in rt.forever() {
        if office.is_over() || empty_rounds >= EMPTY_ROUNDS {
            break;
        }
        let (next, taken) = deliver_some(
            rt,
            &office.hub,
            pass,
            site,
            &office.post,
            &mut mail,
            PACKETS,
        );
        pass = next;
        if taken > 0 {
            empty_rounds = 0;
        } else {
            empty_rounds += 1;
            thread::yield_now();
        }
    }
    pass
}

/// Does what the job asks for.
#[tactic(auto, using(crate::proofs::CrewLaws::finishing))]
fn work<G: Gate, R: Wait>(rt: &R, gate: &G, office: &Office, job: Job) -> Worked
    requires { IsJobOf office.now job }
    ensures { IsWork office.now job.duty result }
{
    let Job { duty, passes } = job;
    match duty {
        Duty::Requests { site, worker } => {
            let worked = answer(office.alloc, rt, office, gate, site, worker, passes);
            office.ended.fetch_add(1, Ordering::SeqCst);
            worked
        }
        Duty::Deliveries { site } => Worked {
            pass: deliver_all(rt, office, site, passes),
            ended: true,
        },
    }
}

/// Two pairs of passes that have seen what the one had.
fn split(office: &Office, passes: Passes) -> (Passes, Passes)
    requires { AreOf office.now passes }
    ensures { AreOf office.now result.0 × AreOf office.now result.1 }
{
    let Passes { world, mail } = passes;
    let (one_world, other_world) = office.hub.split(world);
    let (one_mail, other_mail) = office.post.split(mail);
    let one = Passes {
        world: one_world,
        mail: one_mail,
    };
    let other = Passes {
        world: other_world,
        mail: other_mail,
    };
    (one, other)
}

/// The site behind so many others.
fn site_after(place: u8) -> Site
    requires { place < 8 }
    ensures { result ≡ place + 1 }
{
    match Site::new(place + 1) {
        Some(site) => site,
        None => unreachable!(),
    }
}

impl Plan {
    /// A job more.
    fn and(self, office: &Office, duty: Duty) -> Result<Plan, NoMemory>
        requires plan { IsPlanOf office.now self }
        requires site { IsSite (document_of office.now.hub.name) (site_in duty) }
        ensures plan { IfOk result (IsPlanOf office.now) }
        ensures duties { IfOk result (λ plan. duties_in plan.jobs.items ≡ duties_in self.jobs.items ++ duty ∷ []) }
    {
        let Plan { mut jobs, passes } = self;
        let (passes, its) = split(office, passes);
        jobs.reserve(1)?;
        jobs.push_reserved(Job { duty, passes: its });
        Ok(Plan { jobs, passes })
    }

    /// A job for each request worker of the site behind so many others, which have theirs.
    #[tactic(auto, using(crate::proofs::CrewLaws::crews))]
    fn with_crew(self, office: &Office, place: u8) -> Result<Plan, NoMemory>
        requires plan { IsPlanOf office.now self }
        requires place { place < office.now.sites }
        requires crews { HasCrews place office.now.workers (duties_in self.jobs.items) }
        ensures plan { IfOk result (IsPlanOf office.now) }
        ensures crews { IfOk result (λ plan. HasCrews (place + 1) office.now.workers (duties_in plan.jobs.items)) }
    {
        let mut plan = self;
        for worker in 0..office.workers {
            let site = site_after(place);
            plan = plan.and(office, Duty::Requests { site, worker })?;
        }
        Ok(plan)
    }

    /// A job for each site's delivery worker.
    #[tactic(auto, using(crate::proofs::CrewLaws::crews))]
    fn with_deliveries(self, office: &Office) -> Result<Plan, NoMemory>
        requires plan { IsPlanOf office.now self }
        requires crews { HasCrews office.now.sites office.now.workers (duties_in self.jobs.items) }
        ensures plan { IfOk result (IsPlanOf office.now) }
        ensures crews { IfOk result (λ plan. HasCrews office.now.sites office.now.workers (duties_in plan.jobs.items)) }
    {
        let mut plan = self;
        for place in 0..office.sites {
            let site = site_after(place);
            plan = plan.and(office, Duty::Deliveries { site })?;
        }
        Ok(plan)
    }
}

/// A job for each worker of the document, those of the request workers first.
#[tactic(auto, using(crate::proofs::CrewLaws::crews))]
fn plan_of(alloc: Global, office: &Office, passes: Passes) -> Result<Plan, NoMemory>
    requires { AreOf office.now passes }
    ensures plan { IfOk result (IsPlanOf office.now) }
    ensures crews { IfOk result (λ plan. HasCrews office.now.sites office.now.workers (duties_in plan.jobs.items)) }
{
    let mut plan = Plan {
        jobs: Vec::new(alloc),
        passes,
    };
    for place in 0..office.sites {
        plan = plan.with_crew(office, place)?;
    }
    plan.with_deliveries(office)
}

/// The pass that has seen all that the workers have. `NoMemory` where the sessions of one haven't ended, since one found
/// none.
#[tactic(auto, using(sv_hub::proofs::ExtendsLaws::extending))]
fn join_all(
    office: &Office,
    pass: Pass<World>,
    worked: Vec<Worked>,
) -> Result<Pass<World>, NoMemory>
    requires own { Belongs office.now.hub pass }
    requires others { All (λ (worked : WorkedValue). Belongs office.now.hub worked.pass) worked.items }
    ensures own { IfOk result (Belongs office.now.hub) }
    ensures seen { IfOk result (λ pass. All (HasSeen pass.seen) worked.items) }
{
    let mut joined = pass;
    for Worked { pass, ended } in worked {
        if !ended {
            return Err(NoMemory);
        }
        joined = office.hub.join(joined, pass);
    }
    Ok(joined)
}

/// Lets all workers work, each in a thread of its own; the pass that has seen all that they have. Without memory for one
/// of them all end.
pub(crate) fn run_all<G: Gate + Sync, R: Threads + Wait + Sync>(
    rt: &R,
    gate: &G,
    office: &Office,
    passes: Passes,
) -> Result<Pass<World>, NoMemory>
    requires { AreOf office.now passes }
    ensures own { IfOk result (Belongs office.now.hub) }
    ensures ended { IfOk result (λ pass. AllEnded (document_of office.now.hub.name) pass.seen) }
{
    let Plan { jobs, passes } = plan_of(office.alloc, office, passes)?;
    let worked = thread::map_vec(
        rt,
        jobs,
        &|job: Job| -> Worked
            requires { IsJobOf office.now job }
            ensures { IsWork office.entry.now job.duty result }
        { work(rt, gate, office, job) },
    )?;
    join_all(office, passes.world, worked)
}
