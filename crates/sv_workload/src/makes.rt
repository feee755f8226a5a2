//! Workloads that a generator draws.

ghost use Rattle.std.specs.Prelude.{◌≡◌, ◌≤◌, ◌<◌, IfOk};
ghost use Rattle.sv_workload.specs.Made.{pick, pick_one, request_on, asking, ordering, delivering, catching, step_for, step_drawn, made as workload};

use crate::parts::Step;
use rand_core::SeedableRng;
use rand_core::utils::NextWord;
use rand_pcg::Pcg32;
use std::alloc::Global;
use sv_app::{Arg, Request};
use sv_value::{List, NoMemory, Packet, Site};

/// The numbers of the shop's transactions.
const RESTOCK: u16 = 0;

const BUY: u16 = 1;

const REPRICE: u16 = 2;

/// The generator's next word modulo `m`.
fn pick(rng: &mut Pcg32, m: u32) -> u32
    requires { 1 ≤ m }
    ensures drawn { (result, rng.new) ≡ pick m rng.old }
    ensures below { result < m }
{
    rng.next_word() % m
}

/// A number from 1 to `m`.
fn pick_one(rng: &mut Pcg32, m: u8) -> u8
    requires { 1 ≤ m }
    ensures drawn { (result, rng.new) ≡ pick_one m rng.old }
    ensures from { 1 ≤ result }
    ensures to { result ≤ m }
{
    1 + pick(rng, m as u32) as u8
}

/// One of three sites.
fn pick_site(rng: &mut Pcg32) -> Site
    ensures { (result, rng.new) ≡ pick_one 3 rng.old }
{
    match Site::new(pick_one(rng, 3)) {
        Some(site) => site,
        None => unreachable!(),
    }
}

/// A transaction on an item, with an amount.
fn request_on(alloc: Global, txn: u16, key: u8, amount: u8) -> Result<Request, NoMemory>
    ensures { IfOk result (λ request. request ≡ request_on txn key amount) }
{
    let mut args = List::new(alloc);
    args.push(Arg::Int(key as i64))?;
    args.push(Arg::Int(amount as i64))?;
    Ok(Request { txn, args })
}

/// A session asks for a transaction on an item, with an amount.
#[tactic(auto, unfolding(crate::specs::Made::asking))]
fn draw_ask(alloc: Global, rng: &mut Pcg32, txn: u16) -> Result<Step, NoMemory>
    ensures { IfOk result (λ step. (step, rng.new) ≡ asking txn rng.old) }
{
    let session = pick_one(rng, 3);
    let key = pick_one(rng, 8);
    let amount = pick_one(rng, 5);
    let request = request_on(alloc, txn, key, amount)?;
    Ok(Step::Ask {
        session: session as u16,
        request,
    })
}

/// A session's operation takes its place in the order.
#[tactic(auto, unfolding(crate::specs::Made::ordering))]
fn draw_order(rng: &mut Pcg32) -> Step
    ensures { (result, rng.new) ≡ ordering rng.old }
{
    Step::Order {
        session: pick_one(rng, 3) as u16,
    }
}

/// A blue packet comes to a site.
#[tactic(auto, unfolding(crate::specs::Made::delivering))]
fn draw_delivery(rng: &mut Pcg32) -> Step
    ensures { (result, rng.new) ≡ delivering rng.old }
{
    let site = pick_site(rng);
    let origin = pick_site(rng);
    let seq = pick(rng, 64);
    Step::Deliver {
        site,
        packet: Packet::Blue { site: origin, seq },
    }
}

/// A site catches up.
#[tactic(auto, unfolding(crate::specs::Made::catching))]
fn draw_catch(rng: &mut Pcg32) -> Step
    ensures { (result, rng.new) ≡ catching rng.old }
{
    Step::Catch {
        site: pick_site(rng),
    }
}

/// The step that a number below 8 stands for.
fn step_for(alloc: Global, rng: &mut Pcg32, number: u32) -> Result<Step, NoMemory>
    requires { number < 8 }
    ensures { IfOk result (λ step. (step, rng.new) ≡ step_for number rng.old) }
{
    match number {
        0 | 1 => draw_ask(alloc, rng, RESTOCK),
        2 => draw_ask(alloc, rng, BUY),
        3 => draw_ask(alloc, rng, REPRICE),
        4 => Ok(draw_order(rng)),
        5 | 6 => Ok(draw_delivery(rng)),
        _ => Ok(draw_catch(rng)),
    }
}

/// The next step that the generator draws.
fn draw_step(alloc: Global, rng: &mut Pcg32) -> Result<Step, NoMemory>
    ensures { IfOk result (λ step. (step, rng.new) ≡ step_drawn rng.old) }
{
    let number = pick(rng, 8);
    step_for(alloc, rng, number)
}

/// The workload of `n` steps that a seed makes, on the document of made workloads.
///
/// # Errors
///
/// `NoMemory`.
#[tactic(auto, using(crate::proofs::MadeLaws::none_drawn))]
pub fn made(alloc: Global, seed: u64, n: u32) -> Result<List<Step>, NoMemory>
    ensures { IfOk result (λ steps. steps ≡ workload seed n) }
{
    let mut rng = Pcg32::seed_from_u64(seed);
    let mut steps = List::new(alloc);
    for _ in 0..n {
        steps.push(draw_step(alloc, &mut rng)?)?;
    }
    Ok(steps)
}
