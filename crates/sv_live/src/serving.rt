//! All sessions of a document, served by workers in threads of their own.

ghost use Rattle.std.specs.Prelude.{◌≡◌, ◌≢◌, ◌≤◌, [], IfOk, Ok};
ghost use Rattle.sv_hub.specs.Extends.{Extends};
ghost use Rattle.sv_core.specs.Document.{document_of};
ghost use Rattle.sv_core.specs.Mediums.{doc_of};
ghost use Rattle.sv_core.specs.Sound.{SoundDoc};
ghost use Rattle.sv_live.specs.Crews.{AllEnded, AreOf};
ghost use Rattle.sv_live.specs.Serving.{IsServed, IsTold, MayTell};

use crate::crews::run_all;
use crate::gates::Gate;
use crate::offices::{Office, Passes};
use std::alloc::Global;
use std::sync::atomic::{AtomicBool, AtomicU64};
use std::sync::{Arc, Wait};
use std::thread::Threads;
use sv_core::{Doc, World};
use sv_hub::Hub;
use sv_post::Post;
use sv_value::NoMemory;

/// All sites of a world whose sessions have ended catch up.
#[tactic(auto, using(crate::proofs::ServeLaws::finish_served, sv_core::proofs::PastLaws::growing))]
fn finish(world: &mut World)
    requires listed { (doc_of world.old.medium).sessions ≢ [] }
    requires ended { AllEnded (doc_of world.old.medium) world.old.medium.history }
    ensures doc { world.new.medium.doc ≡ world.old.medium.doc }
    ensures grows { Extends world.new.medium.history world.old.medium.history }
    ensures served { IsServed world.old.medium.doc world.new }
{
    world.finish();
    let _lawful = world.history();
}

/// What is told of a world that is served.
fn tell<F: Fn(&World) -> Result<Vec<u8>, NoMemory>>(
    world: &World,
    text: &F,
) -> Result<Vec<u8>, NoMemory>
    requires text { MayTell F.Fn text.now world.now.medium.doc }
    requires served { IsServed world.now.medium.doc world.now }
    ensures { IfOk result (λ bytes. IsTold F.Fn text.now world.now.medium.doc (Ok bytes)) }
{
    text(world)
}

/// What is told of a world that was just started, where its document lists no sessions.
#[tactic(auto, using(crate::proofs::ServeLaws::none_served))]
fn tell_unasked<F: Fn(&World) -> Result<Vec<u8>, NoMemory>>(
    world: &World,
    text: &F,
) -> Result<Vec<u8>, NoMemory>
    requires text { MayTell F.Fn text.now world.now.medium.doc }
    requires unlisted { (doc_of world.now.medium).sessions ≡ [] }
    requires begun { world.now.medium.history ≡ [] }
    ensures { IfOk result (λ bytes. IsTold F.Fn text.now world.now.medium.doc (Ok bytes)) }
{
    tell(world, text)
}

/// All sites of a world whose sessions have ended catch up, and it is told of.
fn tell_ended<F: Fn(&World) -> Result<Vec<u8>, NoMemory>>(
    world: &mut World,
    text: &F,
) -> Result<Vec<u8>, NoMemory>
    requires text { MayTell F.Fn text.now world.old.medium.doc }
    requires listed { (doc_of world.old.medium).sessions ≢ [] }
    requires ended { AllEnded (doc_of world.old.medium) world.old.medium.history }
    ensures doc { world.new.medium.doc ≡ world.old.medium.doc }
    ensures grows { Extends world.new.medium.history world.old.medium.history }
    ensures told { IfOk result (λ bytes. IsTold F.Fn text.now world.old.medium.doc (Ok bytes)) }
{
    finish(world);
    tell(world, text)
}

/// The office of a started world, and passes for it.
fn open(alloc: Global, world: World, workers: u8, seed: u64) -> Result<(Office, Passes), NoMemory>
    requires workers { (1 ≤ workers) × (workers ≤ 8) }
    ensures name { IfOk result (λ opened. opened.0.hub.name ≡ world.medium.doc) }
    ensures passes { IfOk result (λ opened. AreOf opened.0 opened.1) }
{
    let _lawful = world.history();
    let sites = world.doc().sites;
    let sessions = world.doc().sessions.items().len() as u16;
    let (hub, pass) = Hub::new(alloc, world)?;
    let (post, mail) = Post::new(alloc, sites, seed)?;
    let office = Office {
        alloc,
        hub,
        post,
        sites,
        sessions,
        workers,
        ended: AtomicU64::new(0),
        stop: AtomicBool::new(false),
    };
    Ok((office, Passes { world: pass, mail }))
}

/// Serves the sessions of a document: so many workers at each site answer its sessions, each session by one worker, and one
/// worker at each site takes packets to it, each in a thread of its own. When all sessions have ended, every site catches
/// up, and the world is told of. What becomes of packets between sites is drawn from the seed.
///
/// # Errors
///
/// `NoMemory`.
#[tactic(auto, using(crate::proofs::ServeLaws::ended_later))]
pub fn serve<G: Gate + Sync, R: Threads + Wait + Sync, F: Fn(&World) -> Result<Vec<u8>, NoMemory>>(
    alloc: Global,
    rt: &R,
    doc: Arc<Doc>,
    workers: u8,
    seed: u64,
    gate: &G,
    text: &F,
) -> Result<Vec<u8>, NoMemory>
    requires sound { SoundDoc doc.value }
    requires workers { (1 ≤ workers) × (workers ≤ 8) }
    requires text { MayTell F.Fn text.now doc.value }
    ensures { IfOk result (λ bytes. IsTold F.Fn text.now doc.value (Ok bytes)) }
{
    let world = World::start(alloc, doc)?;
    if world.doc().sessions.items().is_empty() {
        return tell_unasked(&world, text);
    }
    let (office, passes) = open(alloc, world, workers, seed)?;
    let pass = run_all(rt, gate, &office, passes)?;
    let mut turn = office.hub.enter(rt, pass);
    let told = tell_ended(turn.value_mut(), text);
    office.hub.leave(turn);
    told
}
