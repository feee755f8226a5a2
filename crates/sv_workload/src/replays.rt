ghost use Rattle.std.specs.Prelude.{◌≡◌, ◌≤◌, length, IfOk};
ghost use Rattle.sv_app.specs.Schema.{schema_of};
ghost use Rattle.sv_app.specs.Trees.{transactions_of};
ghost use Rattle.sv_reader.specs.Reading.{Reads};
ghost use Rattle.sv_workload.specs.Documents.{step_of};
ghost use Rattle.sv_workload.specs.LineReading.{line_from, lines_from, step_asks, step_shows, with_step, no_steps, is_more, IsCounted};
ghost use Rattle.sv_workload.specs.Reading.{as_item};

use crate::line_marks::line_mark;
use crate::lines::{Steps, line, step_of};
use crate::parts::Step;
use std::alloc::Global;
use sv_app::App;
use sv_lex::Token;
use sv_reader::{ReadStop, Reader};
use sv_value::{List, NoMemory};

/// Whether something stands here.
fn is_more(tokens: &[Token]) -> bool
    ensures { result ≡ is_more tokens.now }
{
    match tokens {
        [_, ..] => true,
        [] => false,
    }
}

/// How many of one step ask.
fn step_asks(step: &Step) -> usize
    ensures { result ≡ step_asks step.now }
{
    match step {
        Step::Ask { .. } => 1,
        _ => 0,
    }
}

/// How many of one step show a table.
fn step_shows(step: &Step) -> usize
    ensures { result ≡ step_shows step.now }
{
    match step {
        Step::Show { .. } => 1,
        _ => 0,
    }
}

/// The steps with one more.
fn with_step(steps: Steps, step: Step) -> Result<Steps, NoMemory>
    requires { IsCounted steps }
    ensures { IfOk result (λ all. all ≡ with_step steps step) }
{
    let asks = step_asks(&step);
    let shows = step_shows(&step);
    let mut read = steps.steps;
    read.push(step)?;
    Ok(Steps {
        steps: read,
        asks: steps.asks + asks,
        shows: steps.shows + shows,
    })
}

/// Reads the step that begins here behind these, for so many sites.
#[tactic(auto, unfolding(crate::specs::LineReading::line_from), using(crate::proofs::LineTurnLaws::bounds))]
fn next_step(
    alloc: Global,
    reader: &mut Reader<'_>,
    app: &App,
    sites: u64,
    steps: &Steps,
) -> Result<Step, ReadStop>
    requires tables { length app.now.tables.items ≤ 16 }
    requires txns { length app.now.txns.items ≤ 32 }
    requires sites { sites ≤ 8 }
    ensures { Reads (λ step. step) result reader.new.rest.now (as_item (step_of (schema_of app.now.tables.items) (transactions_of app.now.txns.items)) (line_from (schema_of app.now.tables.items) (transactions_of app.now.txns.items) sites steps.now reader.old.rest.now)) }
{
    match line_mark(alloc, app, sites, steps, reader.rest) {
        Ok(Some(fault)) => Err(ReadStop::Faulty(fault)),
        Ok(None) => match line(alloc, reader) {
            Ok(step) => Ok(step_of(&app.tables, &app.txns, step)),
            Err(halt) => Err(halt),
        },
        Err(NoMemory) => Err(ReadStop::NoMemory),
    }
}

/// Reads all steps up to the end of the document, for so many sites.
#[tactic(auto, using(crate::proofs::LineTurnLaws::lines))]
pub fn steps(
    alloc: Global,
    reader: &mut Reader<'_>,
    app: &App,
    sites: u64,
) -> Result<Steps, ReadStop>
    requires tables { length app.now.tables.items ≤ 16 }
    requires txns { length app.now.txns.items ≤ 32 }
    requires sites { sites ≤ 8 }
    ensures { Reads (λ steps. steps) result reader.new.rest.now (lines_from (schema_of app.now.tables.items) (transactions_of app.now.txns.items) sites no_steps reader.old.rest.now) }
{
    let mut steps = Steps {
        steps: List::new(alloc),
        asks: 0,
        shows: 0,
    };
    while is_more(reader.rest) {
        let next = next_step(alloc, reader, app, sites, &steps)?;
        steps = with_step(steps, next)?;
    }
    Ok(steps)
}
