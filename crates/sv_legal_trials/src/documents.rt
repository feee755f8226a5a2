//! A world and the steps that it takes, from a text.

ghost use Rattle.std.specs.Prelude.{◌≡◌, ◌≤◌, IfOk, length};
ghost use Rattle.sv_app.specs.Accepted.{AcceptedApp};
ghost use Rattle.sv_app.specs.Schema.{schema_of};
ghost use Rattle.sv_app.specs.Trees.{transactions_of};
ghost use Rattle.sv_core.specs.Document.{document_of};
ghost use Rattle.sv_core.specs.Sound.{SoundDoc};
ghost use Rattle.sv_listing.specs.Frugal.{Frugal};
ghost use Rattle.sv_listing.specs.Right.{Right};
ghost use Rattle.sv_report.specs.Steps.{StepsFit};
ghost use Rattle.sv_workload.specs.LastRefused.{total};
ghost use Rattle.sv_workload.specs.LineReading.{step_asks};
ghost use Rattle.sv_workload.specs.PartsFit.{PartsFit, step_moves};

use std::alloc::Global;
use std::test::Fail;
use sv_app::App;
use sv_calls::application;
use sv_core::Doc;
use sv_dict::compile;
use sv_label::Dictionary;
use sv_lex::{lex, spot_of};
use sv_value::List;
use sv_workload::{Parts, Step, Work, read_parts};

/// What a world is made for, and the steps that it takes, in order.
#[derive(Drop)]
pub struct Trial {
    pub doc: Doc,
    pub steps: List<Step>,
}

fn asks_of(step: &Step) -> u32
    ensures value { result ≡ step_asks step.now }
    ensures few { result ≤ 1 }
{
    match step {
        Step::Ask { .. } => 1,
        _ => 0,
    }
}

/// How many of the steps ask.
fn asks_in(steps: &[Step]) -> u32
    requires { length steps.now ≤ 65536 }
    ensures value { result ≡ total step_asks steps.now }
    ensures few { result ≤ length steps.now }
{
    match steps {
        [] => 0,
        [step, steps @ ..] => asks_of(step) + asks_in(steps),
    }
}

fn moves_of(step: &Step) -> u32
    ensures value { result ≡ step_moves step.now }
    ensures few { result ≤ 1 }
{
    match step {
        Step::Move { .. } => 1,
        _ => 0,
    }
}

/// How many of the steps send a session to a site.
fn moves_in(steps: &[Step]) -> u32
    requires { length steps.now ≤ 65536 }
    ensures value { result ≡ total step_moves steps.now }
    ensures few { result ≤ length steps.now }
{
    match steps {
        [] => 0,
        [step, steps @ ..] => moves_of(step) + moves_in(steps),
    }
}

/// The trial of an application and its parts.
#[tactic(auto, using(crate::proofs::TrialLaws::reading))]
fn trial_of(alloc: Global, app: App, dict: Dictionary, parts: Parts) -> Result<Trial, Fail>
    requires accepted { AcceptedApp (schema_of app.tables.items) (transactions_of app.txns.items) }
    requires frugal { Frugal (schema_of app.tables.items) (transactions_of app.txns.items) dict }
    requires right { Right (schema_of app.tables.items) (transactions_of app.txns.items) dict }
    requires fit { PartsFit (schema_of app.tables.items) (transactions_of app.txns.items) parts }
    ensures sound { IfOk result (λ trial. SoundDoc trial.doc) }
    ensures fit { IfOk result (λ trial. StepsFit (document_of trial.doc) trial.steps) }
{
    let Parts {
        init,
        sites,
        rows,
        changes,
        work,
    } = parts;
    match work {
        Work::Replay(steps) => {
            let asks = asks_in(steps.items());
            let moves = moves_in(steps.items());
            Ok(Trial {
                doc: Doc {
                    app,
                    dict,
                    init,
                    sites,
                    rows,
                    changes,
                    sessions: List::new(alloc),
                    asks,
                    moves,
                },
                steps,
            })
        }
        Work::Nothing | Work::Sessions(_) => Err(Fail::from("no steps")),
    }
}

/// The trial of a text.
pub fn read_trial(alloc: Global, text: &[u8]) -> Result<Trial, Fail>
    requires { length text.now ≤ 1048576 }
    ensures sound { IfOk result (λ trial. SoundDoc trial.doc) }
    ensures fit { IfOk result (λ trial. StepsFit (document_of trial.doc) trial.steps) }
{
    let Ok(tokens) = lex(alloc, text) else {
        return Err(Fail::from("no tokens"));
    };
    let end = spot_of(text, text.len() as u32);
    let (app, at) = application(alloc, &tokens, end)?;
    let Ok(dict) = compile(alloc, &app) else {
        return Err(Fail::from("an application that asks for too much"));
    };
    match read_parts(alloc, &app, &tokens, end, at) {
        Ok(parts) => trial_of(alloc, app, dict, parts),
        Err(_) => Err(Fail::from("parts that aren't read")),
    }
}
