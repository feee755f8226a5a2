//! Replays a document: makes its steps on a world, and writes their lines.

ghost use Rattle.std.specs.Prelude.{◌≡◌, ◌≤◌, IfOk, MatchOption, length};
ghost use Rattle.sv_io.specs.Flows.{most_bytes};
ghost use Rattle.sv_core.specs.Document.{document_of};
ghost use Rattle.sv_core.specs.Sound.{SoundDoc};
ghost use Rattle.sv_lex.specs.Spots.{spot_at};
ghost use Rattle.sv_report.specs.Steps.{StepsFit};
ghost use Rattle.sv_workload.specs.LastRefused.{total};
ghost use Rattle.sv_workload.specs.LineReading.{step_asks};
ghost use Rattle.sv_workload.specs.PartsFit.{step_moves};
ghost use Rattle.sv_app.specs.declared.refusals.Code.TheVariants.{Syntax};
ghost use Rattle.sv_tool.specs.ReadDocument.{IsFit, said_by};
ghost use Rattle.sv_tool.specs.ReplayAnswer.{HasNoSteps, IsLegalReplay, IsReplayAnswer};
ghost use Rattle.sv_tool.specs.Replays.{IsReplayIn, IsReplayed};
ghost use Rattle.sv_tool.specs.declared.statuses.Status.TheVariants.{Done};

use crate::answers::{Answer, refusal_answer};
use crate::documents::{Checked, read_document};
use crate::statuses::Status;
use std::alloc::Global;
use std::sync::Arc;
use sv_app::{Code, Refusal, Stop};
use sv_core::{Doc, World};
use sv_lex::spot_of;
use sv_report::{put_bytes, replay_steps};
use sv_value::{List, NoMemory};
use sv_workload::{Parts, Step, Work};

/// What a document asks for: a world, and the steps that it takes, in order.
#[derive(Drop)]
pub struct Replay {
    pub doc: Doc,
    pub steps: List<Step>,
}

/// How many of the steps ask.
#[tactic(auto, using(crate::proofs::ReplayLaws::counting))]
fn asks_in(steps: &[Step]) -> u32
    requires { length steps.now ≤ 65536 }
    ensures { result ≡ total step_asks steps.now }
{
    let mut count = 0;
    for step in steps {
        count += asks_of(step);
    }
    count
}

fn asks_of(step: &Step) -> u32
    ensures value { result ≡ step_asks step.now }
    ensures few { result ≤ 1 }
{
    match step {
        Step::Ask { .. } => 1,
        _ => 0,
    }
}

/// How many of the steps send a session to a site.
#[tactic(auto, using(crate::proofs::ReplayLaws::counting))]
fn moves_in(steps: &[Step]) -> u32
    requires { length steps.now ≤ 65536 }
    ensures { result ≡ total step_moves steps.now }
{
    let mut count = 0;
    for step in steps {
        count += moves_of(step);
    }
    count
}

fn moves_of(step: &Step) -> u32
    ensures value { result ≡ step_moves step.now }
    ensures few { result ≤ 1 }
{
    match step {
        Step::Move { .. } => 1,
        _ => 0,
    }
}

/// The replay that an accepted document asks for; `None` where it asks for none.
#[tactic(auto, using(crate::proofs::ReplayLaws::reading))]
fn replay_in(alloc: Global, checked: Checked) -> Option<Replay>
    requires { IsFit checked }
    ensures { MatchOption result (HasNoSteps checked.parts.work) (IsReplayIn checked) }
{
    let Checked { app, dict, parts } = checked;
    let Parts {
        init,
        sites,
        rows,
        changes,
        work,
    } = parts;
    match work {
        Work::Replay(steps) => {
            let asks = asks_in(steps.items());
            let moves = moves_in(steps.items());
            Some(Replay {
                doc: Doc {
                    app,
                    dict,
                    init,
                    sites,
                    rows,
                    changes,
                    sessions: List::new(alloc),
                    asks,
                    moves,
                },
                steps,
            })
        }
        Work::Nothing => None,
        Work::Sessions(_) => None,
    }
}

/// The text of a replay: the lines of its steps, and then `end`.
#[tactic(auto, using(crate::proofs::ReplayLaws::replaying))]
fn replay_text(alloc: Global, replay: Replay) -> Result<Vec<u8>, NoMemory>
    requires sound { SoundDoc replay.doc }
    requires fit { StepsFit (document_of replay.doc) replay.steps }
    ensures { IfOk result (λ text. IsReplayed replay.doc replay.steps text.items) }
{
    let Replay { doc, steps } = replay;
    let mut world = World::start(alloc, Arc::new(alloc, doc)?)?;
    let mut text = Vec::new(alloc);
    replay_steps(alloc, &mut text, &mut world, steps)?;
    put_bytes(&mut text, b"end\n")?;
    Ok(text)
}

/// The answer to a replay.
fn replayed_answer(alloc: Global, replay: Replay) -> Result<Answer, NoMemory>
    requires sound { SoundDoc replay.doc }
    requires fit { StepsFit (document_of replay.doc) replay.steps }
    ensures status { IfOk result (λ answer. answer.status ≡ Done) }
    ensures text { IfOk result (λ answer. IsReplayed replay.doc replay.steps answer.text.items) }
{
    Ok(Answer {
        status: Status::Done,
        text: replay_text(alloc, replay)?,
    })
}

/// The refusal of a document that asks for no replay, at its end.
fn no_steps(bytes: &[u8]) -> Refusal
    requires { length bytes.now ≤ most_bytes }
    ensures { result ≡ record { spot = spot_at bytes.now (length bytes.now); code = Syntax } }
{
    Refusal {
        spot: spot_of(bytes, bytes.len() as u32),
        code: Code::Syntax,
    }
}

/// The answer of `replay` to a document of at most 1,048,576 bytes.
#[tactic(auto, using(crate::proofs::ReplayLaws::refused_legal))]
pub fn replay_answer(alloc: Global, bytes: &[u8]) -> Result<Answer, NoMemory>
    requires { length bytes.now ≤ most_bytes }
    ensures answer { IfOk result (λ answer. IsReplayAnswer bytes.now (said_by answer)) }
    ensures legal { IfOk result (λ answer. answer.status ≡ Done → IsLegalReplay bytes.now) }
{
    match read_document(alloc, bytes) {
        Ok(checked) => match replay_in(alloc, checked) {
            Some(replay) => replayed_answer(alloc, replay),
            None => refusal_answer(alloc, &no_steps(bytes)),
        },
        Err(Stop::Refused(refusal)) => refusal_answer(alloc, &refusal),
        Err(Stop::NoMemory) => Err(NoMemory),
    }
}
