//! What each case comes to.
ghost use Rattle.std.specs.Prelude.{◌≤◌, ◌≤ℤ◌, pos, length};
ghost use Rattle.sv_app.specs.Accepted.{AcceptedApp, AcceptedSchema};
ghost use Rattle.sv_app.specs.Schema.{schema_of};
ghost use Rattle.sv_app.specs.Trees.{transactions_of};
ghost use Rattle.sv_calls.specs.Standing.{CanStand};
ghost use Rattle.sv_effect.specs.Fits.{AllFit};

use crate::plain::{check_change, check_facts, holds};
use crate::runs::ran;
use crate::shapes::shape;
use crate::texts::put_shape;
use std::alloc::Global;
use sv_app::{App, Instance, Reason, first_key};
use sv_calls::{Trial, Trouble, label_text, trial_of};
use sv_cases::Case;
use sv_effect::{Ran, RowEffect};
use sv_linear::{FormStop, Shape, SymEffect};
use sv_threat::{Label, label_now};
use sv_value::{NoMemory, Val};
use sv_wp::{TableGains, atoms_by};

/// The greatest first key of a run: its 64 keys have 64 bits.
const MOST_FIRST: i64 = 9_223_372_036_854_775_743;

/// The first reason of an atom of the change that isn't met on the tape.
fn first_unmet(
    alloc: Global,
    app: &App,
    gains: &TableGains,
    tape: &[Val],
    sym: &SymEffect,
    place: u32,
) -> Result<Option<Reason>, Trouble>
    requires { AcceptedSchema (schema_of app.now.tables.items) }
{
    match atoms_by(alloc, app, sym, place, gains) {
        Err(FormStop::NoMemory) => Err(Trouble::NoMemory),
        Err(FormStop::Wide) => Err(Trouble::Wrong("an atom with a wide form")),
        Ok(atoms) => {
            for atom in atoms.items() {
                if atom.place != place {
                    return Err(Trouble::Wrong("an atom of another place"));
                }
                if !holds(app, tape, &atom.test)? {
                    return Ok(Some(atom.reason));
                }
            }
            Ok(None)
        }
    }
}

/// The changes of the instance with this number.
fn changes_of<'a>(
    alloc: Global,
    changes: &'a [RowEffect],
    instance: u32,
) -> Result<Vec<&'a RowEffect>, NoMemory> {
    let mut found = Vec::new(alloc);
    for change in changes {
        if change.instance == instance {
            found.push(change)?;
        }
    }
    Ok(found)
}

/// Whether facts, number of symbols and changes of the shape come to what the instance did.
fn check_shape(shape: &Shape, tape: &[Val], changes: &[&RowEffect]) -> Result<(), Trouble> {
    if shape.symbols as usize != tape.len() {
        return Err(Trouble::Wrong("more or fewer symbols"));
    }
    check_facts(tape, shape.facts.items())?;
    if shape.effects.len() != changes.len() {
        return Err(Trouble::Wrong("more or fewer changes"));
    }
    for (at, sym) in shape.effects.items().iter().enumerate() {
        match changes.get(at) {
            None => return Err(Trouble::Wrong("a missing change")),
            Some(change) => check_change(tape, sym, change)?,
        }
    }
    Ok(())
}

/// The place of the first change of the shape with an atom that isn't met on the tape, and its reason.
fn first_in(
    alloc: Global,
    app: &App,
    gains: &TableGains,
    tape: &[Val],
    changes: &[SymEffect],
) -> Result<Option<(u32, Reason)>, Trouble>
    requires { AcceptedSchema (schema_of app.now.tables.items) }
{
    let mut place: u32 = 0;
    for sym in changes {
        place = place.saturating_add(1);
        if let Some(reason) = first_unmet(alloc, app, gains, tape, sym, place)? {
            return Ok(Some((place, reason)));
        }
    }
    Ok(None)
}

/// What a run is judged by, and what is told of its instances.
#[derive(Clone, Copy)]
struct Judge<'a> {
    alloc: Global,
    app: &'a App,
    txn: u16,
    gains: &'a TableGains,
    ran: &'a Ran,
}

/// The first atom of the instance that isn't met. Its line is appended.
fn judge_instance(
    judge: &Judge<'_>,
    number: u32,
    instance: &Instance,
    lines: &mut Vec<u8>,
) -> Result<Option<(u32, Reason)>, Trouble>
    requires whole { AcceptedApp (schema_of judge.now.app.now.tables.items) (transactions_of judge.now.app.now.txns.items) }
    requires tables { AcceptedSchema (schema_of judge.now.app.now.tables.items) }
{
    let Judge {
        alloc,
        app,
        txn,
        gains,
        ran,
    } = *judge;
    let shape = shape(alloc, app, txn, instance)?;
    let tape = instance.tape.items();
    let changes = changes_of(alloc, ran.effects.items(), number)?;
    check_shape(&shape, tape, &changes)?;
    put_shape(lines, app, instance, &shape)?;
    first_in(alloc, app, gains, tape, shape.effects.items())
}

/// The label that the first atom that isn't met gives. The lines of the instances are appended.
fn judge_run(judge: &Judge<'_>, lines: &mut Vec<u8>) -> Result<Label, Trouble>
    requires whole { AcceptedApp (schema_of judge.now.app.now.tables.items) (transactions_of judge.now.app.now.txns.items) }
    requires tables { AcceptedSchema (schema_of judge.now.app.now.tables.items) }
{
    let mut label = if judge.ran.effects.is_empty() {
        Label::Nothing
    } else {
        Label::Blue
    };
    let mut number: u32 = 0;
    for instance in judge.ran.trace.items() {
        let found = judge_instance(judge, number, instance, lines)?;
        if let (Some((place, reason)), Label::Blue) = (found, label) {
            label = Label::Red {
                instance: number,
                place,
                reason,
            };
        }
        number = number.saturating_add(1);
    }
    Ok(label)
}

/// The lines of a call: its label by atoms, that of its changes where it is another one, and those of its instances
/// where they are wanted.
fn call_lines(alloc: Global, trial: &Trial, first: i64, forms: bool) -> Result<Vec<u8>, Trouble>
    requires first { first ≤ℤ pos 9223372036854775743 }
    requires whole { AcceptedApp (schema_of trial.now.app.tables.items) (transactions_of trial.now.app.txns.items) }
    requires tables { AcceptedSchema (schema_of trial.now.app.tables.items) }
    requires rows { CanStand (schema_of trial.now.app.tables.items) trial.now.init }
{
    let ran = ran(alloc, trial, first)?;
    let now = label_now(alloc, &trial.app, ran.effects.items())?;
    let gains = TableGains::of(alloc, &trial.app)?;
    let judge = Judge {
        alloc,
        app: &trial.app,
        txn: trial.request.txn,
        gains: &gains,
        ran: &ran,
    };
    let mut shapes = Vec::new(alloc);
    let label = judge_run(&judge, &mut shapes)?;
    let shapes = if forms { shapes } else { Vec::new(alloc) };
    Ok(joined(alloc, &label, &now, &shapes)?)
}

/// The lines of a label, of another one if there is one, and of the instances.
fn joined(alloc: Global, label: &Label, now: &Label, shapes: &[u8]) -> Result<Vec<u8>, NoMemory> {
    let mut lines = label_text(alloc, label)?;
    lines.push(b'\n')?;
    if label != now {
        lines.extend_from_slice(&label_text(alloc, now)?)?;
        lines.push(b'\n')?;
    }
    lines.extend_from_slice(shapes)?;
    Ok(lines)
}

/// The document of a case: its request is the one ask of the replay.
fn document_of(alloc: Global, case: &Case, call: &str) -> Result<Vec<u8>, NoMemory> {
    let mut document = Vec::from_slice(alloc, &case.document)?;
    document.extend_from_slice(b"\nask 1 ")?;
    document.extend_from_slice(call.as_bytes())?;
    document.push(b';')?;
    Ok(document)
}

/// Tries a command on its call.
fn try_call(
    alloc: Global,
    case: &Case,
    first: i64,
    what: &str,
    call: &str,
) -> Result<Vec<u8>, Trouble> {
    if first > MOST_FIRST {
        return Err(Trouble::Wrong("a large first key"));
    }
    let trial = trial_of(alloc, &document_of(alloc, case, call)?)?;
    match what {
        "label" => call_lines(alloc, &trial, first, false),
        "forms" => call_lines(alloc, &trial, first, true),
        _ => Err(Trouble::Wrong("no such command")),
    }
}

/// Tries a case.
fn try_case(alloc: Global, case: &Case) -> Result<Vec<u8>, Trouble> {
    let (what, call) = case
        .command
        .split_once(' ')
        .ok_or(Trouble::Wrong("no call"))?;
    try_call(alloc, case, first_key(1, 0), what, call)
}

/// The lines of a case, or what is wrong with it.
pub fn found(alloc: Global, case: &Case) -> Result<Vec<u8>, NoMemory> {
    match try_case(alloc, case) {
        Ok(lines) => Ok(lines),
        Err(Trouble::NoMemory) => Err(NoMemory),
        Err(Trouble::Wrong(what)) => Ok(Vec::from_slice(alloc, what.as_bytes())?),
    }
}
