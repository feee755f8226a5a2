//! The invariants of initial rows.

ghost use Rattle.std.specs.Prelude.{◌≡◌, ◌≤◌, ◌<◌, ◌++◌, ◌||◌, ◌∷◌, [], All, List, length, map, slice_get, Some, None, IfOk, IfSome, OnOk};
ghost use Rattle.std.specs.List.{list_any, flat_map};
ghost use Rattle.std.specs.Ordering.{eq_by_cmp};
ghost use Rattle.std.specs.BTreeSet.{contains};
ghost use Rattle.sv_app.specs.declared.places.Place.{Place as PlaceValue};
ghost use Rattle.sv_app.specs.declared.requests.InitRow.{InitRow as InitRowValue};
ghost use Rattle.sv_app.specs.Accepted.{AcceptedSchema};
ghost use Rattle.sv_app.specs.Schema.{schema_of, rule_of, invariant_of, declaration_of};
ghost use Rattle.sv_app.specs.Tables.{place_cmp};
ghost use Rattle.sv_app.specs.Valid.{Valid, number_of, value_of, side_of};
ghost use Rattle.sv_effect.specs.Initial.{InitFits, AreDistinct};
ghost use Rattle.sv_effect.specs.TablesOfCut.{init_place};
ghost use Rattle.sv_check.specs.declared.initial.Held.{Held as HeldValue};
ghost use Rattle.sv_check.specs.Initial.{initial_row, initial_tables, IsAnswer};
ghost use Rattle.sv_check.specs.Tests.{val_in, held_cmp, held_of, held_by, is_held, is_there, referred, rules_of, fails, first_failed};

use crate::rules::{is_listed, is_within};
use std::alloc::Global;
use std::collections::BTreeSet;
use sv_app::{App, Got, Ident, InitRow, Inv, InvBody, Place, Table};
use sv_effect::got_of;
use sv_value::{Key, NoMemory, Val};

/// A value that a row has in a unique column.
#[derive(Clone, Copy, Debug, PartialEq, Eq, PartialOrd, Ord)]
pub struct Held {
    pub table: u16,
    pub column: u16,
    pub val: Val,
}

/// The value of a column; one that isn't there counts as zero.
fn val_in(values: &[Val], column: u16) -> Val
    ensures { result ≡ val_in values.now column }
{
    let place = column as usize;
    if place < values.len() {
        values[place]
    } else {
        Val::Int(0)
    }
}

#[tactic(auto, using(crate::proofs::ValueLaws::values))]
fn value_of(row: &InitRow, column: &Ident) -> Got
    ensures { result ≡ value_of (initial_row row.now) column.now }
{
    got_of(&val_in(row.values.items(), column.num))
}

/// A side of a check.
fn side_of(row: &InitRow, side: Option<Ident>) -> Got
    ensures { number_of result ≡ side_of (initial_row row.now) side }
{
    match side {
        Some(column) => value_of(row, &column),
        None => Got::Num(0),
    }
}

/// The value of a unique column.
fn value_held(row: &InitRow, column: &Ident) -> Held
    ensures { held_of row.now (rule_of (InvBody.Unique column.now)) ≡ result ∷ [] }
{
    Held {
        table: row.table,
        column: column.num,
        val: val_in(row.values.items(), column.num),
    }
}

/// The place of the row to which a column refers.
fn referred(row: &InitRow, column: &Ident, parent: &Ident) -> Place
    ensures { result ≡ referred row.now column.now.num parent.now.num }
{
    Place {
        table: parent.num,
        key: Key {
            first: val_in(row.values.items(), column.num),
            second: None,
        },
    }
}

/// Whether the row breaks the invariant, where these are the places of all rows, and the values that earlier rows have.
#[tactic(auto, using(crate::proofs::ValueLaws::values))]
fn fails(
    app: &App,
    inv: &Inv,
    row: &InitRow,
    places: &BTreeSet<Place>,
    earlier: &BTreeSet<Held>,
) -> bool
    ensures { result ≡ fails (schema_of app.now.tables.items) (contains place_cmp places.now) (contains held_cmp earlier.now) row.now (rule_of inv.now.body) }
{
    match &inv.body {
        InvBody::Check(check) => {
            !is_within(side_of(row, check.hi), side_of(row, check.lo), check.most)
        }
        InvBody::List { col, texts } => !is_listed(&value_of(row, col), texts.as_slice()),
        InvBody::Unique { col } => earlier.contains(&value_held(row, col)),
        InvBody::Refers { col, table, .. } => {
            (table.num as usize) < app.tables.len() && !places.contains(&referred(row, col, table))
        }
    }
}

/// The lowest of the invariants that the row breaks.
#[tactic(auto, using(crate::proofs::FindLaws::finding))]
fn first_failed(
    app: &App,
    invs: &[Inv],
    row: &InitRow,
    places: &BTreeSet<Place>,
    earlier: &BTreeSet<Held>,
) -> Option<u16>
    ensures { result ≡ first_failed (schema_of app.now.tables.items) (contains place_cmp places.now) (contains held_cmp earlier.now) row.now (map invariant_of invs.now) }
{
    for inv in invs {
        if fails(app, inv, row, places, earlier) {
            return Some(inv.number);
        }
    }
    None
}

/// The invariants of the row's table.
#[tactic(auto, using(crate::proofs::TableLaws::declared))]
fn invs_of<'a>(app: &'a App, row: &InitRow) -> &'a [Inv]
    ensures { map invariant_of result.now ≡ rules_of (slice_get (schema_of app.now.tables.items) row.now.table) }
{
    let table = row.table as usize;
    if table < app.tables.len() {
        app.tables[table].invs.as_slice()
    } else {
        &[]
    }
}

/// The places of the rows.
fn places_of(alloc: Global, init: &[InitRow]) -> Result<BTreeSet<Place>, NoMemory>
    ensures { IfOk result (λ places. (place : PlaceValue) → contains place_cmp places place ≡ is_there place init.now) }
{
    let mut places = BTreeSet::new(alloc);
    for row in init {
        places.insert(Place {
            table: row.table,
            key: row.key,
        })?;
    }
    Ok(places)
}

/// Notes the value that the row has in the column of the invariant, if it is a unique one.
fn note_one(inv: &Inv, row: &InitRow, earlier: &mut BTreeSet<Held>) -> Result<(), NoMemory>
    ensures { OnOk result ((held : HeldValue) → contains held_cmp earlier.new held ≡ (contains held_cmp earlier.old held || is_held held (held_of row.now (rule_of inv.now.body)))) }
{
    if let InvBody::Unique { col } = &inv.body {
        earlier.insert(Held {
            table: row.table,
            column: col.num,
            val: val_in(row.values.items(), col.num),
        })?;
    }
    Ok(())
}

/// Notes the values that the row has in unique columns.
fn note(invs: &[Inv], row: &InitRow, earlier: &mut BTreeSet<Held>) -> Result<(), NoMemory>
    ensures { OnOk result ((held : HeldValue) → contains held_cmp earlier.new held ≡ (contains held_cmp earlier.old held || is_held held (flat_map (λ inv. held_of row.now inv.rule) (map invariant_of invs.now)))) }
{
    for inv in invs {
        note_one(inv, row, earlier)?;
    }
    Ok(())
}

/// The first initial row, in order, that breaks an invariant with the initial rows as a whole, and the lowest invariant
/// that it breaks, which is answered before the row. Of two rows with equal values of a unique column the later one
/// breaks it. It is none exactly where the tables of the initial rows are valid. The application is accepted, the rows
/// fit it, no two stand at one place, and there are at most 4,096 of them.
pub fn check_all(alloc: Global, app: &App, init: &[InitRow]) -> Result<Option<(u16, u32)>, NoMemory>
    requires accepted { AcceptedSchema (schema_of app.now.tables.items) }
    requires fits { All (InitFits (schema_of app.now.tables.items)) init.now }
    requires distinct { AreDistinct init.now }
    requires few { length init.now ≤ 4096 }
    ensures answer { IfOk result (λ found. IsAnswer (schema_of app.now.tables.items) init.now found) }
    ensures wrong { IfOk result (λ found. IfSome found (λ _. Valid (schema_of app.now.tables.items) (initial_tables init.now) → ⊥)) }
{
    let places = places_of(alloc, init)?;
    let mut earlier = BTreeSet::new(alloc);
    for (place, row) in init.iter().enumerate() {
        let invs = invs_of(app, row);
        match first_failed(app, invs, row, &places, &earlier) {
            Some(number) => return Ok(Some((number, place as u32))),
            None => note(invs, row, &mut earlier)?,
        }
    }
    Ok(None)
}
