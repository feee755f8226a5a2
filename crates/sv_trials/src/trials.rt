//! What each case comes to.
ghost use Rattle.std.specs.Prelude.{◌≡◌, ◌≤◌, ◌≤ℤ◌, pos, IfOk, length};
ghost use Rattle.sv_app.specs.Accepted.{AcceptedApp, AcceptedSchema};
ghost use Rattle.sv_app.specs.Schema.{schema_of};
ghost use Rattle.sv_app.specs.Trees.{transactions_of};
ghost use Rattle.sv_calls.specs.Standing.{CanStand};
ghost use Rattle.sv_effect.specs.Fits.{AllFit};
ghost use Rattle.sv_workload.specs.PartsFit.{IsRequestOf};

use crate::plain::{PlainRun, run};
use crate::plain_changes::got_of;
use crate::plain_labels::label;
use crate::plain_rows::PlainRow;
use crate::plain_verdicts::judge;
use crate::texts::{put_verdict, text_of};
use std::alloc::Global;
use sv_app::{App, InitRow, Place, Request, first_key};
use sv_calls::{Trial, Trouble, check_request, label_text, store, trial_of};
use sv_cases::Case;
use sv_check::{Verdict, check_after};
use sv_effect::{Noted, Outcome, Ran, RowEffect, Rows};
use sv_interp::run_txn;
use sv_threat::label_now;
use sv_value::NoMemory;

/// The greatest first key of a run: its 64 keys have 64 bits.
const MOST_FIRST: i64 = 9_223_372_036_854_775_743;

/// The initial rows, as the plain program has them.
fn plain_rows(alloc: Global, init: &[InitRow]) -> Result<Vec<PlainRow>, NoMemory> {
    let mut plain = Vec::new(alloc);
    for row in init {
        let mut values = Vec::new(alloc);
        for val in row.values.items() {
            values.push(got_of(val))?;
        }
        plain.push(PlainRow {
            place: Place {
                table: row.table,
                key: row.key,
            },
            values,
            present: true,
        })?;
    }
    Ok(plain)
}

/// What the plain program comes to.
fn plainly(alloc: Global, trial: &Trial, first: i64) -> Result<PlainRun, NoMemory> {
    let rows = plain_rows(alloc, trial.init.items())?;
    run(alloc, &trial.app, &trial.request, first, &rows)
}

/// What the interpreter comes to on these rows.
fn interpreted<R: Rows>(
    alloc: Global,
    app: &App,
    request: &Request,
    first: i64,
    rows: &mut R,
) -> Result<Ran, Trouble>
    requires first { first ≤ℤ pos 9223372036854775743 }
    requires accepted { AcceptedApp (schema_of app.now.tables.items) (transactions_of app.now.txns.items) }
    requires request { IsRequestOf (transactions_of app.now.txns.items) request.now }
    requires rows { R.is_of rows.old (schema_of app.now.tables.items) }
    ensures fits { IfOk result (λ ran. AllFit (schema_of app.now.tables.items) ran.effects) }
    ensures few { IfOk result (λ ran. length ran.effects ≤ 64) }
{
    match run_txn(alloc, app, request.txn, request.args.items(), first, rows) {
        Ok(ran) => Ok(ran),
        Err(_) => Err(Trouble::Wrong("the interpreter halted")),
    }
}

/// The interpreter on a store of the initial rows, whose reads are noted or not.
fn on_store(alloc: Global, trial: &Trial, first: i64, noted: bool) -> Result<Ran, Trouble>
    requires first { first ≤ℤ pos 9223372036854775743 }
    requires whole { AcceptedApp (schema_of trial.now.app.tables.items) (transactions_of trial.now.app.txns.items) }
    requires tables { AcceptedSchema (schema_of trial.now.app.tables.items) }
    requires rows { CanStand (schema_of trial.now.app.tables.items) trial.now.init }
    ensures fits { IfOk result (λ ran. AllFit (schema_of trial.now.app.tables.items) ran.effects) }
    ensures few { IfOk result (λ ran. length ran.effects ≤ 64) }
{
    let Trial { app, init, request } = trial;
    check_request(&app.txns, request)?;
    let mut store = store(alloc, app, init.items())?;
    if noted {
        interpreted(
            alloc,
            app,
            request,
            first,
            &mut Noted::new(alloc, &mut store),
        )
    } else {
        interpreted(alloc, app, request, first, &mut store)
    }
}

/// The verdict on the changes, over these rows.
fn judged<R: Rows>(
    alloc: Global,
    app: &App,
    effects: &[RowEffect],
    rows: &mut R,
) -> Result<Verdict, Trouble>
    requires tables { AcceptedSchema (schema_of app.now.tables.items) }
    requires rows { R.is_of rows.old (schema_of app.now.tables.items) }
    requires fits { AllFit (schema_of app.now.tables.items) effects.now }
    requires few { length effects.now ≤ 64 }
{
    match check_after(alloc, app, effects, rows) {
        Ok(verdict) => Ok(verdict),
        Err(_) => Err(Trouble::Wrong("no verdict")),
    }
}

/// The same, over these rows with their reads noted.
fn judged_by_notes<R: Rows>(
    alloc: Global,
    app: &App,
    effects: &[RowEffect],
    rows: &mut R,
) -> Result<Verdict, Trouble>
    requires tables { AcceptedSchema (schema_of app.now.tables.items) }
    requires rows { R.is_of rows.old (schema_of app.now.tables.items) }
    requires fits { AllFit (schema_of app.now.tables.items) effects.now }
    requires few { length effects.now ≤ 64 }
{
    let mut noted = Noted::new(alloc, rows);
    judged(alloc, app, effects, &mut noted)
}

/// The verdict on the changes of a run, over a store of the initial rows, whose reads are noted or not.
fn verdict(alloc: Global, trial: &Trial, ran: &Ran, noted: bool) -> Result<Verdict, Trouble>
    requires tables { AcceptedSchema (schema_of trial.now.app.tables.items) }
    requires rows { CanStand (schema_of trial.now.app.tables.items) trial.now.init }
    requires fits { AllFit (schema_of trial.now.app.tables.items) ran.now.effects }
    requires few { length ran.now.effects ≤ 64 }
{
    let Trial { app, init, .. } = trial;
    let mut store = store(alloc, app, init.items())?;
    if noted {
        judged_by_notes(alloc, app, ran.effects.items(), &mut store)
    } else {
        judged(alloc, app, ran.effects.items(), &mut store)
    }
}

/// A line of what the plain program comes to, and one of each of the others that is another one.
fn lines(alloc: Global, plain: &[u8], others: [&[u8]; 2]) -> Result<Vec<u8>, NoMemory> {
    let mut lines = Vec::from_slice(alloc, plain)?;
    lines.push(b'\n')?;
    for other in others {
        if other != plain {
            lines.extend_from_slice(other)?;
            lines.push(b'\n')?;
        }
    }
    Ok(lines)
}

fn run_lines(alloc: Global, trial: &Trial, first: i64) -> Result<Vec<u8>, Trouble>
    requires first { first ≤ℤ pos 9223372036854775743 }
    requires whole { AcceptedApp (schema_of trial.now.app.tables.items) (transactions_of trial.now.app.txns.items) }
    requires tables { AcceptedSchema (schema_of trial.now.app.tables.items) }
    requires rows { CanStand (schema_of trial.now.app.tables.items) trial.now.init }
{
    let plain = text_of(alloc, &trial.app, &plainly(alloc, trial, first)?.ran)?;
    let stored = text_of(alloc, &trial.app, &on_store(alloc, trial, first, false)?)?;
    let noted = text_of(alloc, &trial.app, &on_store(alloc, trial, first, true)?)?;
    Ok(lines(alloc, &plain, [&stored, &noted])?)
}

fn verdict_text(alloc: Global, verdict: &Verdict) -> Result<Vec<u8>, NoMemory> {
    let mut text = Vec::new(alloc);
    put_verdict(&mut text, verdict)?;
    Ok(text)
}

/// The text of the verdict.
fn verdict_told(alloc: Global, trial: &Trial, ran: &Ran, noted: bool) -> Result<Vec<u8>, Trouble>
    requires tables { AcceptedSchema (schema_of trial.now.app.tables.items) }
    requires rows { CanStand (schema_of trial.now.app.tables.items) trial.now.init }
    requires fits { AllFit (schema_of trial.now.app.tables.items) ran.now.effects }
    requires few { length ran.now.effects ≤ 64 }
{
    match verdict(alloc, trial, ran, noted) {
        Ok(told) => Ok(verdict_text(alloc, &told)?),
        Err(trouble) => Err(trouble),
    }
}

fn verdict_lines(alloc: Global, trial: &Trial, first: i64) -> Result<Vec<u8>, Trouble>
    requires first { first ≤ℤ pos 9223372036854775743 }
    requires whole { AcceptedApp (schema_of trial.now.app.tables.items) (transactions_of trial.now.app.txns.items) }
    requires tables { AcceptedSchema (schema_of trial.now.app.tables.items) }
    requires rows { CanStand (schema_of trial.now.app.tables.items) trial.now.init }
{
    let ended = plainly(alloc, trial, first)?;
    let Outcome::Done(_) = ended.ran.outcome else {
        return Err(Trouble::Wrong("the run isn't done"));
    };
    let plain = verdict_text(alloc, &judge(&trial.app, &ended.rows))?;
    let ran = on_store(alloc, trial, first, false)?;
    let stored = verdict_told(alloc, trial, &ran, false)?;
    let noted = verdict_told(alloc, trial, &ran, true)?;
    Ok(lines(alloc, &plain, [&stored, &noted])?)
}

fn is_done(outcome: &Outcome) -> bool {
    match outcome {
        Outcome::Done(_) => true,
        Outcome::Abort(_) | Outcome::NoRow | Outcome::Exists | Outcome::Range | Outcome::TooLarge =>
            false,
    }
}

/// The label of the changes of a run on a store of the initial rows. Within a reach the plain program judges them too.
fn label_lines(
    alloc: Global,
    trial: &Trial,
    first: i64,
    reach: Option<u8>,
) -> Result<Vec<u8>, Trouble>
    requires first { first ≤ℤ pos 9223372036854775743 }
    requires whole { AcceptedApp (schema_of trial.now.app.tables.items) (transactions_of trial.now.app.txns.items) }
    requires tables { AcceptedSchema (schema_of trial.now.app.tables.items) }
    requires rows { CanStand (schema_of trial.now.app.tables.items) trial.now.init }
{
    let ran = on_store(alloc, trial, first, false)?;
    if !is_done(&ran.outcome) {
        return Err(Trouble::Wrong("the run isn't done"));
    }
    let found = label_text(alloc, &label_now(alloc, &trial.app, ran.effects.items())?)?;
    let plain = match reach {
        None => Vec::from_slice(alloc, &found)?,
        Some(reach) => {
            let plain = label(alloc, &trial.app, ran.effects.items(), reach)?;
            label_text(alloc, &plain)?
        }
    };
    Ok(lines(alloc, &plain, [&found, &plain])?)
}

/// The document of a case: its request is the one ask of the replay.
fn document_of(alloc: Global, case: &Case, call: &str) -> Result<Vec<u8>, NoMemory> {
    let mut document = Vec::from_slice(alloc, &case.document)?;
    document.extend_from_slice(b"\nask 1 ")?;
    document.extend_from_slice(call.as_bytes())?;
    document.push(b';')?;
    Ok(document)
}

/// The number that these digits write.
fn number_of(digits: &str) -> Result<i64, Trouble> {
    let mut number: i64 = 0;
    for digit in digits.as_bytes() {
        if *digit < b'0' || *digit > b'9' {
            return Err(Trouble::Wrong("no number"));
        }
        let shifted = number
            .checked_mul(10)
            .ok_or(Trouble::Wrong("a large number"))?;
        number = shifted
            .checked_add((*digit - b'0') as i64)
            .ok_or(Trouble::Wrong("a large number"))?;
    }
    Ok(number)
}

/// What a command says of how its call is tried: the first key, and how far the plain program tries the numbers of
/// a row.
#[derive(Clone, Copy, Debug)]
struct Ways {
    first: i64,
    reach: Option<u8>,
}

/// Tries a command on its call.
fn try_call(
    alloc: Global,
    case: &Case,
    ways: Ways,
    what: &str,
    call: &str,
) -> Result<Vec<u8>, Trouble> {
    let Ways { first, reach } = ways;
    if first > MOST_FIRST {
        return Err(Trouble::Wrong("a large first key"));
    }
    let trial = trial_of(alloc, &document_of(alloc, case, call)?)?;
    match what {
        "run" => run_lines(alloc, &trial, first),
        "verdict" => verdict_lines(alloc, &trial, first),
        "label" => label_lines(alloc, &trial, first, reach),
        _ => Err(Trouble::Wrong("no such command")),
    }
}

/// The word in front, and what stands behind it.
fn split(command: &str) -> Result<(&str, &str), Trouble> {
    command.split_once(' ').ok_or(Trouble::Wrong("no call"))
}

/// Tries a case. Where its command names no first key, that of the first request of the first session is taken.
fn try_case(alloc: Global, case: &Case) -> Result<Vec<u8>, Trouble> {
    let mut ways = Ways {
        first: first_key(1, 0),
        reach: None,
    };
    let (mut what, mut behind) = split(&case.command)?;
    if what == "from" {
        let (digits, rest) = split(behind)?;
        ways.first = number_of(digits)?;
        (what, behind) = split(rest)?;
    }
    if what == "within" {
        let (digits, rest) = split(behind)?;
        ways.reach = u8::try_from(number_of(digits)?).ok();
        (what, behind) = split(rest)?;
    }
    try_call(alloc, case, ways, what, behind)
}

/// The lines of a case, or what is wrong with it.
pub fn found(alloc: Global, case: &Case) -> Result<Vec<u8>, NoMemory> {
    match try_case(alloc, case) {
        Ok(lines) => Ok(lines),
        Err(Trouble::NoMemory) => Err(NoMemory),
        Err(Trouble::Wrong(what)) => Ok(Vec::from_slice(alloc, what.as_bytes())?),
    }
}
