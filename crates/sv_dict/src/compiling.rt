ghost use Rattle.std.specs.Prelude.{◌≡◌, ◌≤◌, length, IfOk, IfErr};
ghost use Rattle.sv_app.specs.Accepted.{AcceptedApp};
ghost use Rattle.sv_app.specs.Schema.{schema_of};
ghost use Rattle.sv_app.specs.Trees.{transactions_of};
ghost use Rattle.sv_listing.specs.Frugal.{Frugal, parts_from};
ghost use Rattle.sv_listing.specs.Right.{Right};
ghost use Rattle.sv_listing.specs.TooMuch.{AreFew, KeepsLimits};
ghost use Rattle.sv_dict.specs.Refused.{IsRefusal, stop_at};
ghost use Rattle.sv_dict.specs.Standing.{HasUnits, IsReady, schema_in, txns_in};

use crate::answers::Excess;
use crate::listing::{Counted, with_txn};
use crate::settings::Setting;
use std::alloc::Global;
use sv_app::{App, Code, Refusal, Stop};
use sv_label::Dictionary;
use sv_right::frugal_is_right;
use sv_symbolic::routes_are_paths;
use sv_value::Spot;
use sv_wp::TableGains;

/// The refusal of a transaction whose name stands there.
fn stop_at(excess: Excess, spot: Spot) -> Stop
    ensures { result ≡ stop_at excess spot }
{
    match excess {
        Excess::TooMuch => Stop::Refused(Refusal {
            spot,
            code: Code::Many,
        }),
        Excess::NoMemory => Stop::NoMemory,
    }
}

/// The templates of all transactions. That a path without a template aborts rests on a law of routes.
fn with_all(setting: &Setting<'_>) -> Result<Counted, Stop>
    requires ready { IsReady setting.now }
    ensures has { IfOk result (HasUnits setting.now (parts_from 0 (txns_in setting.now))) }
    ensures fits { IfOk result (λ _. KeepsLimits (schema_in setting.now) (txns_in setting.now)) }
    ensures refused { IfErr result (IsRefusal (schema_in setting.now) (txns_in setting.now)) }
{
    routes_are_paths();
    let mut counted = Counted::new(setting.alloc);
    for number in 0..setting.app.txns.len() {
        let txn = &setting.app.txns[number];
        match with_txn(setting, number as u16, counted) {
            Err(excess) => return Err(stop_at(excess, txn.name.spot)),
            Ok(more) => counted = more,
        }
    }
    Ok(counted)
}

/// The frugal dictionary of an application.
fn frugal_of(alloc: Global, app: &App) -> Result<Dictionary, Stop>
    requires accepted { AcceptedApp (schema_of app.now.tables.items) (transactions_of app.now.txns.items) }
    ensures frugal { IfOk result (Frugal (schema_of app.now.tables.items) (transactions_of app.now.txns.items)) }
    ensures few { IfOk result AreFew }
    ensures fits { IfOk result (λ _. KeepsLimits (schema_of app.now.tables.items) (transactions_of app.now.txns.items)) }
    ensures refused { IfErr result (IsRefusal (schema_of app.now.tables.items) (transactions_of app.now.txns.items)) }
{
    match TableGains::of(alloc, app) {
        Err(_) => Err(Stop::NoMemory),
        Ok(gains) => {
            let setting = Setting {
                alloc,
                app,
                gains: &gains,
            };
            match with_all(&setting) {
                Err(stop) => Err(stop),
                Ok(counted) => Ok(counted.dict),
            }
        }
    }
}

/// The dictionary of an application: for each path of a unit that doesn't abort a template, in the order of
/// transactions, units and paths, with what the path's facts leave of the atoms of its changes. Of every run it decides the
/// first threat of the changes, or that there is none.
///
/// # Errors
///
/// `Many` at the name of the first transaction that asks for too much: one of its units has too many paths, a path that
/// doesn't abort has too many symbols or a wide form, also in what its changes ask up to the first atom that nothing
/// meets, or with it there are more than `MOST_TEMPLATES` templates or more than `MOST_ATOMS` atoms.
pub fn compile(alloc: Global, app: &App) -> Result<Dictionary, Stop>
    requires accepted { AcceptedApp (schema_of app.now.tables.items) (transactions_of app.now.txns.items) }
    ensures frugal { IfOk result (Frugal (schema_of app.now.tables.items) (transactions_of app.now.txns.items)) }
    ensures right { IfOk result (Right (schema_of app.now.tables.items) (transactions_of app.now.txns.items)) }
    ensures few { IfOk result AreFew }
    ensures fits { IfOk result (λ _. KeepsLimits (schema_of app.now.tables.items) (transactions_of app.now.txns.items)) }
    ensures refused { IfErr result (IsRefusal (schema_of app.now.tables.items) (transactions_of app.now.txns.items)) }
{
    frugal_is_right();
    frugal_of(alloc, app)
}
