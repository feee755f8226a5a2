//! Cases as texts: an application, initial rows and a request.
ghost use Rattle.std.specs.Prelude.{◌≤◌, IfOk, length};
ghost use Rattle.sv_app.specs.Accepted.{AcceptedApp, AcceptedSchema};
ghost use Rattle.sv_app.specs.Conditions.{KeepsGrammar, KeepsLimits, AreNumbered};
ghost use Rattle.sv_app.specs.Schema.{schema_of};
ghost use Rattle.sv_app.specs.Trees.{transactions_of};
ghost use Rattle.sv_effect.specs.RowsFit.{TablesAreOf};
ghost use Rattle.sv_calls.specs.Standing.{CanStand};

use crate::troubles::Trouble;
use std::alloc::Global;
use sv_app::{App, InitRow, Request, Table};
use sv_lex::{Token, lex, spot_of};
use sv_schema_reader::read_schema;
use sv_store::ListStore;
use sv_txn_reader::read_txns;
use sv_typing::accept;
use sv_value::{List, NoMemory, Spot};
use sv_workload::{Parts, Step, Work, read_parts};

/// The most bytes of a document.
const MOST_BYTES: usize = 1_048_576;

/// What a case is about.
#[derive(Drop)]
pub struct Trial {
    pub app: App,
    pub init: List<InitRow>,
    pub request: Request,
}

/// The application of these tables and the tokens behind them, and the place behind it.
fn behind(
    alloc: Global,
    tables: Vec<Table>,
    tokens: &[Token],
    end: Spot,
    at: usize,
) -> Result<(App, usize), Trouble>
    requires place { at ≤ length tokens.now }
    requires grammar { KeepsGrammar (schema_of tables.items) }
    requires limits { KeepsLimits (schema_of tables.items) }
    requires invariants { AreNumbered (schema_of tables.items) }
    ensures whole { IfOk result (λ found. AcceptedApp (schema_of found.0.tables.items) (transactions_of found.0.txns.items)) }
    ensures place { IfOk result (λ found. found.1 ≤ length tokens.now) }
{
    match read_txns(alloc, tokens, end, at) {
        Err(_) => Err(Trouble::Wrong("transactions that aren't read")),
        Ok((txns, next)) => match accept(alloc, tables, txns) {
            Ok(app) => Ok((app, next)),
            Err(_) => Err(Trouble::Wrong("an application that isn't accepted")),
        },
    }
}

/// The application of these tokens, and the place behind it; or what is wrong.
pub fn application(alloc: Global, tokens: &[Token], end: Spot) -> Result<(App, usize), Trouble>
    ensures whole { IfOk result (λ found. AcceptedApp (schema_of found.0.tables.items) (transactions_of found.0.txns.items)) }
    ensures place { IfOk result (λ found. found.1 ≤ length tokens.now) }
{
    match read_schema(alloc, tokens, end, 0) {
        Err(_) => Err(Trouble::Wrong("tables that aren't read")),
        Ok((tables, at)) => behind(alloc, tables, tokens, end, at),
    }
}

/// What stands behind the application.
#[tactic(auto, using(crate::proofs::FitLaws::can_stand))]
fn parts(alloc: Global, app: &App, tokens: &[Token], end: Spot, at: usize) -> Result<Parts, Trouble>
    requires accepted { AcceptedApp (schema_of app.now.tables.items) (transactions_of app.now.txns.items) }
    requires place { at ≤ length tokens.now }
    ensures { IfOk result (λ parts. CanStand (schema_of app.now.tables.items) parts.init) }
{
    match read_parts(alloc, app, tokens, end, at) {
        Ok(parts) => Ok(parts),
        Err(_) => Err(Trouble::Wrong("parts that aren't read")),
    }
}

/// The first request of a replay.
fn first_request(work: Work) -> Result<Request, Trouble> {
    if let Work::Replay(steps) = work {
        for step in steps.into_vec() {
            if let Step::Ask { request, .. } = step {
                return Ok(request);
            }
        }
    }
    Err(Trouble::Wrong("no request"))
}

/// The application, the initial rows and the first request of a document.
pub fn trial_of(alloc: Global, document: &[u8]) -> Result<Trial, Trouble>
    ensures whole { IfOk result (λ trial. AcceptedApp (schema_of trial.app.tables.items) (transactions_of trial.app.txns.items)) }
    ensures tables { IfOk result (λ trial. AcceptedSchema (schema_of trial.app.tables.items)) }
    ensures rows { IfOk result (λ trial. CanStand (schema_of trial.app.tables.items) trial.init) }
{
    if document.len() > MOST_BYTES {
        return Err(Trouble::Wrong("a long document"));
    }
    let Ok(tokens) = lex(alloc, document) else {
        return Err(Trouble::Wrong("no tokens"));
    };
    let end = spot_of(document, document.len() as u32);
    let (app, at) = application(alloc, &tokens, end)?;
    let Parts { init, work, .. } = parts(alloc, &app, &tokens, end, at)?;
    let request = first_request(work)?;
    Ok(Trial { app, init, request })
}

/// A store of the initial rows.
#[tactic(auto, using(crate::proofs::FitLaws::standing))]
pub fn store(alloc: Global, app: &App, init: &[InitRow]) -> Result<ListStore, NoMemory>
    requires tables { AcceptedSchema (schema_of app.now.tables.items) }
    requires rows { CanStand (schema_of app.now.tables.items) init.now }
    ensures { IfOk result (λ store. TablesAreOf (schema_of app.now.tables.items) store.tables) }
{
    ListStore::start(alloc, app, init, 0)
}
