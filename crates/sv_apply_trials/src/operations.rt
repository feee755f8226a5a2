//! The operation of a call: what its run changes on the initial rows, after which all invariants hold.
ghost use Rattle.std.specs.Prelude.{◌≡◌, ◌≤◌, ◌≤ℤ◌, pos, IfOk, OnOk, length, map};
ghost use Rattle.sv_app.specs.Accepted.{AcceptedApp, AcceptedSchema};
ghost use Rattle.sv_app.specs.Schema.{schema_of};
ghost use Rattle.sv_app.specs.Trees.{transactions_of};
ghost use Rattle.sv_app.specs.Valid.{Valid};
ghost use Rattle.sv_apply_trials.specs.Making.{IsMadeBy, start};
ghost use Rattle.sv_calls.specs.Standing.{CanStand};
ghost use Rattle.sv_core.specs.Applying.{CanApply};
ghost use Rattle.sv_effect.specs.BareTables.{bare};
ghost use Rattle.sv_effect.specs.Effects.{FindsAll, Fits};
ghost use Rattle.sv_effect.specs.Fits.{AllFit};
ghost use Rattle.sv_effect.specs.RowsFit.{TablesAreOf};
ghost use Rattle.sv_effect.specs.RunChanges.{effect_of};
ghost use Rattle.sv_effect.specs.Takes.{inserts};
ghost use Rattle.sv_interp.specs.Results.{IsRunOf};
ghost use Rattle.sv_workload.specs.PartsFit.{IsRequestOf};

use crate::numbers::{tell_short_changes, tell_short_rows};
use std::alloc::Global;
use sv_app::{App, InitRow, Request, first_key};
use sv_calls::{Trial, Trouble, check_request};
use sv_check::{Verdict, check_after};
use sv_effect::{Op, Ran, RowEffect};
use sv_interp::run_txn;
use sv_pool::PoolStore;
use sv_store::ListStore;
use sv_value::{Cut, NoMemory, Site};

/// Space for the rows that an operation inserts, of which there are at most 64.
const ROOM: u32 = 64;

/// A list of the initial rows.
#[tactic(auto, using(sv_calls::proofs::FitLaws::standing))]
pub fn listed(alloc: Global, app: &App, init: &[InitRow]) -> Result<ListStore, NoMemory>
    requires tables { AcceptedSchema (schema_of app.now.tables.items) }
    requires rows { CanStand (schema_of app.now.tables.items) init.now }
    ensures tables { IfOk result (λ store. store.tables ≡ start (schema_of app.now.tables.items) init.now) }
    ensures room { IfOk result (λ store. store.room ≡ 64) }
    ensures of_app { IfOk result (λ store. TablesAreOf (schema_of app.now.tables.items) store.tables) }
{
    ListStore::start(alloc, app, init, ROOM)
}

/// A region of the initial rows.
#[tactic(auto, using(sv_calls::proofs::FitLaws::standing))]
pub fn pooled(alloc: Global, app: &App, init: &[InitRow]) -> Result<PoolStore, NoMemory>
    requires tables { AcceptedSchema (schema_of app.now.tables.items) }
    requires rows { CanStand (schema_of app.now.tables.items) init.now }
    ensures tables { IfOk result (λ store. store.tables ≡ start (schema_of app.now.tables.items) init.now) }
    ensures room { IfOk result (λ store. store.room ≡ 64) }
    ensures of_app { IfOk result (λ store. TablesAreOf (schema_of app.now.tables.items) store.tables) }
{
    PoolStore::start(alloc, app, init, ROOM)
}

/// What the request comes to on the rows.
#[tactic(auto, using(crate::proofs::MadeLaws::running))]
fn ran(
    alloc: Global,
    app: &App,
    request: &Request,
    first: i64,
    rows: &mut ListStore,
) -> Result<Ran, Trouble>
    requires first { first ≤ℤ pos 9223372036854775743 }
    requires accepted { AcceptedApp (schema_of app.now.tables.items) (transactions_of app.now.txns.items) }
    requires request { IsRequestOf (transactions_of app.now.txns.items) request.now }
    requires rows { TablesAreOf (schema_of app.now.tables.items) rows.old.tables }
    ensures is { IfOk result (λ ran. IsRunOf app.now request.now.txn request.now.args first ran (bare rows.old.tables)) }
    ensures fits { IfOk result (λ ran. AllFit (schema_of app.now.tables.items) ran.effects) }
    ensures few { IfOk result (λ ran. length ran.effects ≤ 64) }
    ensures stays { rows.new ≡ rows.old }
{
    match run_txn(alloc, app, request.txn, request.args.items(), first, rows) {
        Ok(ran) => Ok(ran),
        Err(_) => Err(Trouble::Wrong("the interpreter halted")),
    }
}

/// Whether all invariants hold after changes that find their rows.
#[tactic(auto, using(crate::proofs::MadeLaws::learned))]
fn check_changes(
    alloc: Global,
    app: &App,
    effects: &[RowEffect],
    rows: &mut ListStore,
) -> Result<(), Trouble>
    requires accepted { AcceptedSchema (schema_of app.now.tables.items) }
    requires rows { TablesAreOf (schema_of app.now.tables.items) rows.old.tables }
    requires fits { AllFit (schema_of app.now.tables.items) effects.now }
    requires few { length effects.now ≤ 64 }
    requires valid { Valid (schema_of app.now.tables.items) (bare rows.old.tables) }
    requires found { FindsAll (schema_of app.now.tables.items) (map effect_of effects.now) (bare rows.old.tables) }
    ensures { OnOk result (Fits (schema_of app.now.tables.items) (map effect_of effects.now) (bare rows.old.tables)) }
{
    match check_after(alloc, app, effects, rows) {
        Ok(Verdict::Keeps) => Ok(()),
        Ok(Verdict::Breaks { .. }) => Err(Trouble::Wrong("a broken invariant")),
        Err(_) => Err(Trouble::Wrong("no verdict")),
    }
}

/// What the request of the trial comes to on the initial rows, after which all invariants hold.
#[tactic(auto, using(crate::proofs::MadeLaws::making))]
fn made(alloc: Global, trial: &Trial, first: i64) -> Result<Ran, Trouble>
    requires first { first ≤ℤ pos 9223372036854775743 }
    requires whole { AcceptedApp (schema_of trial.now.app.tables.items) (transactions_of trial.now.app.txns.items) }
    requires tables { AcceptedSchema (schema_of trial.now.app.tables.items) }
    requires rows { CanStand (schema_of trial.now.app.tables.items) trial.now.init }
    ensures made { IfOk result (IsMadeBy trial.now.app trial.now.init trial.now.request first) }
    ensures request { IfOk result (λ ran. IsRequestOf (transactions_of trial.now.app.txns.items) trial.now.request) }
{
    let Trial { app, init, request } = trial;
    check_request(&app.txns, request)?;
    let mut rows = listed(alloc, app, init.items())?;
    let ran = ran(alloc, app, request, first, &mut rows)?;
    check_changes(alloc, app, ran.effects.items(), &mut rows)?;
    Ok(ran)
}

/// The operation of the trial's request, made at site 1 on the initial rows. Both kinds of store can apply it to them.
pub fn operation(alloc: Global, trial: &Trial) -> Result<Op, Trouble>
    requires whole { AcceptedApp (schema_of trial.now.app.tables.items) (transactions_of trial.now.app.txns.items) }
    requires tables { AcceptedSchema (schema_of trial.now.app.tables.items) }
    requires rows { CanStand (schema_of trial.now.app.tables.items) trial.now.init }
    ensures can { IfOk result (λ op. CanApply (schema_of trial.now.app.tables.items) op (start (schema_of trial.now.app.tables.items) trial.now.init)) }
    ensures room { IfOk result (λ op. inserts op.effects ≤ 64) }
{
    let Some(site) = Site::new(1) else {
        return Err(Trouble::Wrong("no site"));
    };
    let Ran { effects, needs, .. } = made(alloc, trial, first_key(1, 0))?;
    tell_short_rows(trial.init.items());
    tell_short_changes(effects.items());
    Ok(Op {
        time: 1,
        site,
        deps: Cut::empty(),
        effects,
        needs,
    })
}
