//! The label of a run's changes.

ghost use Rattle.std.specs.Prelude.{◌≡◌, ◌+◌, ◌<◌, ◌≤◌, ◌==◌, suc, IfOk, length, map, take};
ghost use Rattle.std.specs.List.{list_any, filter};
ghost use Rattle.sv_app.specs.Accepted.{AcceptedSchema};
ghost use Rattle.sv_app.specs.Schema.{schema_of, declaration_of};
ghost use Rattle.sv_effect.specs.Fits.{FitsSchema, AllFit};
ghost use Rattle.sv_effect.specs.RunChanges.{effect_of};
ghost use Rattle.sv_gains.specs.Gains.{noted_in};
ghost use Rattle.sv_threat.specs.First.{IsFoundAt, IsFirstOf, IsSeen, AreAll};
ghost use Rattle.sv_threat.specs.Labels.{IsLabel};
ghost use Rattle.sv_threat.specs.Tests.{AreTold};

use crate::first::first_reason;
use crate::found::{Found, sooner};
use crate::label::Label;
use std::alloc::Global;
use sv_app::App;
use sv_effect::RowEffect;
use sv_gains::Gains;
use sv_value::NoMemory;

/// Whether one of the changes is of the table.
fn is_touched(effects: &[RowEffect], table: usize) -> bool
    ensures { result ≡ list_any (λ e. e.table == table) effects.now }
{
    effects.iter().any(|e| e.table as usize == table)
}

/// The threat at a change, by its first reason, if one threatens it.
fn found_at(app: &App, gains: &Gains, e: &RowEffect, number: u32) -> Option<Found>
    requires accepted { AcceptedSchema (schema_of app.now.tables.items) }
    requires fits { FitsSchema (schema_of app.now.tables.items) e.now }
    requires told { AreTold (schema_of app.now.tables.items) e.now.table (noted_in gains.now) }
    ensures { IsFoundAt (schema_of app.now.tables.items) number (effect_of e.now) result }
{
    match first_reason(app, gains, e) {
        None => None,
        Some(reason) => Some(Found {
            number,
            instance: e.instance,
            reason,
        }),
    }
}

/// The first threat of those that were found and those at changes of this table.
fn first_of_table(
    app: &App,
    gains: &Gains,
    effects: &[RowEffect],
    table: usize,
    held: Option<Found>,
) -> Option<Found>
    requires accepted { AcceptedSchema (schema_of app.now.tables.items) }
    requires fits { AllFit (schema_of app.now.tables.items) effects.now }
    requires few { length effects.now ≤ 64 }
    requires told { AreTold (schema_of app.now.tables.items) table (noted_in gains.now) }
    requires held { IsFirstOf (IsSeen table 0) (schema_of app.now.tables.items) (map effect_of effects.now) held }
    ensures { IsFirstOf (IsSeen table (length effects.now)) (schema_of app.now.tables.items) (map effect_of effects.now) result }
{
    let mut first = held;
    for number in 0..effects.len() {
        let e = &effects[number];
        if e.table as usize == table {
            first = sooner(first, found_at(app, gains, e, number as u32));
        }
    }
    first
}

/// The same, where the changes of earlier tables were looked at.
fn first_with_table(
    alloc: Global,
    app: &App,
    effects: &[RowEffect],
    table: usize,
    held: Option<Found>,
) -> Result<Option<Found>, NoMemory>
    requires accepted { AcceptedSchema (schema_of app.now.tables.items) }
    requires fits { AllFit (schema_of app.now.tables.items) effects.now }
    requires few { length effects.now ≤ 64 }
    requires inside { table < length app.now.tables.items }
    requires held { IsFirstOf (IsSeen table 0) (schema_of app.now.tables.items) (map effect_of effects.now) held }
    ensures { IfOk result (λ found. IsFirstOf (IsSeen (table + 1) 0) (schema_of app.now.tables.items) (map effect_of effects.now) found) }
{
    if is_touched(effects, table) {
        let gains = Gains::of(alloc, &app.tables[table])?;
        Ok(first_of_table(app, &gains, effects, table, held))
    } else {
        Ok(held)
    }
}

/// The first threat at one of the changes.
#[tactic(auto, using(crate::proofs::LabelLaws::seeing))]
fn first_found(alloc: Global, app: &App, effects: &[RowEffect]) -> Result<Option<Found>, NoMemory>
    requires accepted { AcceptedSchema (schema_of app.now.tables.items) }
    requires fits { AllFit (schema_of app.now.tables.items) effects.now }
    requires few { length effects.now ≤ 64 }
    ensures { IfOk result (λ found. IsFirstOf AreAll (schema_of app.now.tables.items) (map effect_of effects.now) found) }
{
    let mut first = None;
    for table in 0..app.tables.len() {
        first = first_with_table(alloc, app, effects, table, first)?;
    }
    Ok(first)
}

/// How many of the changes are of the instance.
fn count_of(effects: &[RowEffect], instance: u32) -> u32
    requires { length effects.now ≤ 64 }
    ensures is { result ≡ length (filter (λ other. other.instance == instance) (map effect_of effects.now)) }
    ensures few { result ≤ length effects.now }
{
    match effects {
        [] => 0,
        [e, rest @ ..] => {
            let count = count_of(rest, instance);
            if e.instance == instance {
                count + 1
            } else {
                count
            }
        }
    }
}

/// The number within its instance, from 1, of the change of this number in the list.
fn place_of(effects: &[RowEffect], number: usize, instance: u32) -> u32
    requires few { length effects.now ≤ 64 }
    requires inside { number < length effects.now }
    ensures { result ≡ suc (length (filter (λ other. other.instance == instance) (take number (map effect_of effects.now)))) }
{
    count_of(&effects[..number], instance) + 1
}

/// The label of a run's changes: nothing where there are none, red with the first threat where one is threatened, else
/// blue. Each change is judged by all rows that there could be. The application is accepted, the changes fit it, and
/// there are at most 64.
pub fn label_now(alloc: Global, app: &App, effects: &[RowEffect]) -> Result<Label, NoMemory>
    requires accepted { AcceptedSchema (schema_of app.now.tables.items) }
    requires fits { AllFit (schema_of app.now.tables.items) effects.now }
    requires few { length effects.now ≤ 64 }
    ensures { IfOk result (λ label. IsLabel (schema_of app.now.tables.items) (map effect_of effects.now) label) }
{
    if effects.is_empty() {
        return Ok(Label::Nothing);
    }
    match first_found(alloc, app, effects)? {
        None => Ok(Label::Blue),
        Some(found) => Ok(Label::Red {
            instance: found.instance,
            place: place_of(effects, found.number as usize, found.instance),
            reason: found.reason,
        }),
    }
}
