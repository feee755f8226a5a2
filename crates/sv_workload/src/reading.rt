ghost use Rattle.std.specs.Prelude.{◌≡◌, ◌≤◌, Ok, Err, IfOk, ◌-◌, length, drop, max};
ghost use Rattle.sv_app.specs.declared.refusals.Refusal.{Refusal as IsRefusal};
ghost use Rattle.sv_app.specs.declared.refusals.Stop.TheVariants.{Refused};
ghost use Rattle.sv_app.specs.Accepted.{AcceptedApp};
ghost use Rattle.sv_app.specs.Schema.{schema_of};
ghost use Rattle.sv_app.specs.Trees.{transactions_of};
ghost use Rattle.sv_reader.specs.Reading.{Reads};
ghost use Rattle.sv_workload.specs.declared.parts.Parts.{Parts as AnyParts};
ghost use Rattle.sv_workload.specs.declared.parts.Work.TheVariants.{Nothing};
ghost use Rattle.sv_workload.specs.Documents.{AreParts, IsRefused, IsAnswer};
ghost use Rattle.sv_workload.specs.PartsFit.{PartsFit};
ghost use Rattle.sv_workload.specs.Reading.{IsBounded};
ghost use Rattle.sv_workload.specs.Stops.{sites_in, work_from, last_from, set_parts, LastKept, LastStops};

use crate::checked::read_init;
use crate::parts::{Parts, Work};
use crate::replays::steps;
use crate::sessions::sessions;
use crate::settings::front;
use crate::written::{Given, PartHead};
use std::alloc::Global;
use sv_app::{App, InitRow, Stop};
use sv_lex::Token;
use sv_reader::{ReadStop, Reader, refusal_of};
use sv_value::{List, Spot};

/// How many rows there may be, where there are fewer initial rows and nothing else is set.
const DEFAULT_ROWS: usize = 1_024;

/// How many changes there may be, where nothing else is set.
const DEFAULT_CHANGES: u32 = 8_192;

/// Parts with nothing to do.
fn bare_parts(init: List<InitRow>) -> Parts
    requires { length init ≤ 4096 }
    ensures { result ≡ record { init = init; sites = 1; rows = max 1024 (length init); changes = 8192; work = Nothing } }
{
    Parts {
        sites: 1,
        rows: init.len().max(DEFAULT_ROWS) as u32,
        changes: DEFAULT_CHANGES,
        work: Work::Nothing,
        init,
    }
}

/// The number of sites that is set.
fn sites_in(given: &Given) -> u64
    requires { IsBounded given.now }
    ensures value { result ≡ sites_in given.now }
    ensures few { result ≤ 8 }
{
    match given.sites {
        Some(number) => number,
        None => 1,
    }
}

/// Parts with these settings and this work.
fn set_parts(init: List<InitRow>, given: &Given, work: Work) -> Parts
    requires few { length init ≤ 4096 }
    requires bounded { IsBounded given.now }
    ensures { result ≡ set_parts init given.now work }
{
    Parts {
        sites: sites_in(given) as u8,
        rows: match given.rows {
            Some(number) => number as u32,
            None => init.len().max(DEFAULT_ROWS) as u32,
        },
        changes: match given.changes {
            Some(number) => number as u32,
            None => DEFAULT_CHANGES,
        },
        work,
        init,
    }
}

/// The last of these tokens.
fn behind(tokens: &[Token], left: usize) -> &[Token]
    ensures { result.now ≡ drop (length tokens.now - left) tokens.now }
{
    &tokens[tokens.len().saturating_sub(left)..]
}

/// Reads what is to be done, for so many sites.
fn work(
    alloc: Global,
    reader: &mut Reader<'_>,
    app: &App,
    head: PartHead,
    sites: u64,
) -> Result<Work, ReadStop>
    requires accepted { AcceptedApp (schema_of app.now.tables.items) (transactions_of app.now.txns.items) }
    requires sites { sites ≤ 8 }
    ensures { Reads (λ work. work) result reader.new.rest.now (work_from (schema_of app.now.tables.items) (transactions_of app.now.txns.items) head sites reader.old.rest.now) }
{
    match head {
        PartHead::Replay => Ok(Work::Replay(steps(alloc, reader, app, sites)?.steps)),
        PartHead::Run => Ok(Work::Sessions(sessions(alloc, reader, &app.txns)?)),
    }
}

/// Reads a last part, behind so many initial rows: its settings, and what is to be done.
#[tactic(auto, unfolding(crate::specs::Stops::last_from))]
fn last(
    alloc: Global,
    reader: &mut Reader<'_>,
    app: &App,
    rows: usize,
) -> Result<(Given, Work), ReadStop>
    requires accepted { AcceptedApp (schema_of app.now.tables.items) (transactions_of app.now.txns.items) }
    ensures read { Reads (λ last. last) result reader.new.rest.now (last_from (schema_of app.now.tables.items) (transactions_of app.now.txns.items) rows reader.old.rest.now) }
    ensures bounded { IfOk result (λ last. IsBounded last.0) }
{
    let (head, given) = front(reader, rows)?;
    let work = work(alloc, reader, app, head, sites_in(&given))?;
    Ok((given, work))
}

/// Reads a last part, behind these initial rows.
fn read_last(
    alloc: Global,
    app: &App,
    init: List<InitRow>,
    tokens: &[Token],
    end: Spot,
) -> Result<Parts, Stop>
    requires few { length init ≤ 4096 }
    requires accepted { AcceptedApp (schema_of app.now.tables.items) (transactions_of app.now.txns.items) }
    ensures read { IfOk result (λ parts. LastKept (schema_of app.now.tables.items) (transactions_of app.now.txns.items) init tokens.now parts) }
    ensures refused { (refusal : IsRefusal) → result ≡ Err (Refused refusal) → LastStops (schema_of app.now.tables.items) (transactions_of app.now.txns.items) (length init) tokens.now end refusal }
{
    let mut reader = Reader { rest: tokens };
    match last(alloc, &mut reader, app, init.len()) {
        Ok((given, work)) => Ok(set_parts(init, &given, work)),
        Err(ReadStop::Faulty(fault)) => Err(Stop::Refused(refusal_of(tokens, end, fault))),
        Err(ReadStop::NoMemory) => Err(Stop::NoMemory),
    }
}

/// Reads the parts of a document that are all of these tokens.
fn read_whole(alloc: Global, app: &App, tokens: &[Token], end: Spot) -> Result<Parts, Stop>
    requires { AcceptedApp (schema_of app.now.tables.items) (transactions_of app.now.txns.items) }
    ensures read { IfOk result (λ parts. AreParts (schema_of app.now.tables.items) (transactions_of app.now.txns.items) tokens.now parts) }
    ensures all { (parts : AnyParts) → AreParts (schema_of app.now.tables.items) (transactions_of app.now.txns.items) tokens.now parts → IsAnswer result parts }
    ensures refused { (refusal : IsRefusal) → result ≡ Err (Refused refusal) → IsRefused (schema_of app.now.tables.items) (transactions_of app.now.txns.items) tokens.now end refusal }
{
    match read_init(alloc, app, tokens, end) {
        Ok((init, left)) => {
            if left == 0 {
                return Ok(bare_parts(init));
            }
            read_last(alloc, app, init, behind(tokens, left), end)
        }
        Err(stop) => Err(stop),
    }
}

/// Reads what stands behind the transactions of a document, from the place `at` on up to its end: the initial rows and
/// the last part, each of which may be missing. `end` is the place behind the last byte of the document.
///
/// # Errors
///
/// `Refused` with the first refusal of the initial rows; where there is none, with the first row that breaks an
/// invariant; and where there is none either, with the first refusal of the last part.
pub fn read_parts(
    alloc: Global,
    app: &App,
    tokens: &[Token],
    end: Spot,
    at: usize,
) -> Result<Parts, Stop>
    requires accepted { AcceptedApp (schema_of app.now.tables.items) (transactions_of app.now.txns.items) }
    requires place { at ≤ length tokens.now }
    // what is read are the parts that stand there, and nothing of them is refused
    ensures read { IfOk result (λ parts. AreParts (schema_of app.now.tables.items) (transactions_of app.now.txns.items) (drop at tokens.now) parts) }
    // their rows and requests fit the application, and nothing passes its limit
    ensures fit { IfOk result (λ parts. PartsFit (schema_of app.now.tables.items) (transactions_of app.now.txns.items) parts) }
    // such parts are read, unless there is no memory
    ensures all { (parts : AnyParts) → AreParts (schema_of app.now.tables.items) (transactions_of app.now.txns.items) (drop at tokens.now) parts → IsAnswer result parts }
    // the refusal is the first one
    ensures refused { (refusal : IsRefusal) → result ≡ Err (Refused refusal) → IsRefused (schema_of app.now.tables.items) (transactions_of app.now.txns.items) (drop at tokens.now) end refusal }
{
    read_whole(alloc, app, &tokens[at..], end)
}
