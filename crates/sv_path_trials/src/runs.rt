//! Runs of requests on a store of the initial rows.
ghost use Rattle.std.specs.Prelude.{◌≤◌, ◌≤ℤ◌, pos, IfOk, length};
ghost use Rattle.sv_app.specs.Accepted.{AcceptedApp, AcceptedSchema};
ghost use Rattle.sv_app.specs.Schema.{schema_of};
ghost use Rattle.sv_app.specs.Trees.{transactions_of};
ghost use Rattle.sv_calls.specs.Standing.{CanStand};
ghost use Rattle.sv_effect.specs.Fits.{AllFit};

use std::alloc::Global;
use sv_calls::{Trial, Trouble, check_request, store};
use sv_effect::{Outcome, Ran};
use sv_interp::run_txn;

fn is_done(outcome: &Outcome) -> bool {
    match outcome {
        Outcome::Done(_) => true,
        Outcome::Abort(_) | Outcome::NoRow | Outcome::Exists | Outcome::Range | Outcome::TooLarge =>
            false,
    }
}

/// The run of the request, which has to be done.
pub fn ran(alloc: Global, trial: &Trial, first: i64) -> Result<Ran, Trouble>
    requires first { first ≤ℤ pos 9223372036854775743 }
    requires whole { AcceptedApp (schema_of trial.now.app.tables.items) (transactions_of trial.now.app.txns.items) }
    requires tables { AcceptedSchema (schema_of trial.now.app.tables.items) }
    requires rows { CanStand (schema_of trial.now.app.tables.items) trial.now.init }
    ensures fits { IfOk result (λ ran. AllFit (schema_of trial.now.app.tables.items) ran.effects) }
    ensures few { IfOk result (λ ran. length ran.effects ≤ 64) }
{
    let Trial { app, init, request } = trial;
    check_request(&app.txns, request)?;
    let mut store = store(alloc, app, init.items())?;
    match run_txn(
        alloc,
        app,
        request.txn,
        request.args.items(),
        first,
        &mut store,
    ) {
        Err(_) => Err(Trouble::Wrong("the interpreter halted")),
        Ok(ran) => {
            if is_done(&ran.outcome) {
                Ok(ran)
            } else {
                Err(Trouble::Wrong("the run isn't done"))
            }
        }
    }
}
