//! The first reason that threatens a change.

ghost use Rattle.std.specs.Prelude.{◌≡◌, map};
ghost use Rattle.std.specs.List.{flat_map};
ghost use Rattle.sv_app.specs.Accepted.{AcceptedSchema};
ghost use Rattle.sv_app.specs.Schema.{schema_of, invariant_of};
ghost use Rattle.sv_effect.specs.Fits.{FitsSchema};
ghost use Rattle.sv_effect.specs.RunChanges.{effect_of};
ghost use Rattle.sv_gains.specs.Gains.{noted_in};
ghost use Rattle.sv_threat.specs.First.{IsFirstReason};
ghost use Rattle.sv_threat.specs.Tests.{AreTold, threatens, first_number, least_by, first_among};

use crate::rules::{is_plain_change, threatens};
use crate::ways::{Way, is_anywhere, reason_by};
use sv_app::{App, Inv, Reason, Table};
use sv_effect::RowEffect;
use sv_gains::Gains;

/// The ways, in the order of their reasons.
const IN_ORDER: [Way; 5] = [Way::Unique, Way::Child, Way::Parent, Way::Check, Way::List];

/// The number of the first of the invariants that the change threatens in this way.
fn first_in(way: Way, app: &App, gains: &Gains, e: &RowEffect, invs: &[Inv]) -> Option<u16>
    ensures { result ≡ first_number (threatens way (schema_of app.now.tables.items) (noted_in gains.now) (effect_of e.now)) (map invariant_of invs.now) }
{
    match invs {
        [] => None,
        [inv, rest @ ..] => {
            if threatens(way, app, gains, e, &inv.body) {
                Some(inv.number)
            } else {
                first_in(way, app, gains, e, rest)
            }
        }
    }
}

/// The same of the invariants of all these tables.
fn first_of_all(way: Way, app: &App, gains: &Gains, e: &RowEffect, tables: &[Table]) -> Option<u16>
    ensures { result ≡ first_number (threatens way (schema_of app.now.tables.items) (noted_in gains.now) (effect_of e.now)) (flat_map (λ t. t.invs) (schema_of tables.now)) }
{
    match tables {
        [] => None,
        [table, rest @ ..] => match first_in(way, app, gains, e, table.invs.as_slice()) {
            Some(number) => Some(number),
            None => first_of_all(way, app, gains, e, rest),
        },
    }
}

/// The number of the first invariant that the change threatens in this way: one of its table, or a reference to it.
#[tactic(auto, using(crate::proofs::FirstLaws::searching))]
fn least_by(way: Way, app: &App, gains: &Gains, e: &RowEffect) -> Option<u16>
    requires { FitsSchema (schema_of app.now.tables.items) e.now }
    ensures { result ≡ least_by way (schema_of app.now.tables.items) (noted_in gains.now) (effect_of e.now) }
{
    if is_anywhere(way) {
        first_of_all(way, app, gains, e, app.tables.as_slice())
    } else {
        let table = &app.tables[e.table as usize];
        first_in(way, app, gains, e, table.invs.as_slice())
    }
}

/// The first reason, in these ways.
#[tactic(auto, using(crate::proofs::FirstLaws::searching))]
fn first_among(ways: &[Way], app: &App, gains: &Gains, e: &RowEffect) -> Option<Reason>
    requires { FitsSchema (schema_of app.now.tables.items) e.now }
    ensures { result ≡ first_among ways.now (schema_of app.now.tables.items) (noted_in gains.now) (effect_of e.now) }
{
    match ways {
        [] => None,
        [way, rest @ ..] => match least_by(*way, app, gains, e) {
            Some(number) => Some(reason_by(*way, number)),
            None => first_among(rest, app, gains, e),
        },
    }
}

/// The first reason that threatens the change, if one does. The gains are those of the change's table.
#[tactic(auto, using(crate::proofs::FirstLaws::judging))]
pub fn first_reason(app: &App, gains: &Gains, e: &RowEffect) -> Option<Reason>
    requires accepted { AcceptedSchema (schema_of app.now.tables.items) }
    requires fits { FitsSchema (schema_of app.now.tables.items) e.now }
    requires told { AreTold (schema_of app.now.tables.items) e.now.table (noted_in gains.now) }
    ensures { IsFirstReason (schema_of app.now.tables.items) (effect_of e.now) result }
{
    let table = &app.tables[e.table as usize];
    if is_plain_change(table, e) {
        return Some(Reason::Plain);
    }
    first_among(&IN_ORDER, app, gains, e)
}
