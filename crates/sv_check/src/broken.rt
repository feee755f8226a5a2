//! Whether a rule is broken at a key after changes.

ghost use Rattle.std.specs.Prelude.{◌≡◌, true, false, List, IfOk, slice_get};
ghost use Rattle.sv_app.specs.Accepted.{AcceptedSchema};
ghost use Rattle.sv_app.specs.Kinds.{is_grow_only};
ghost use Rattle.sv_app.specs.Schema.{schema_of, rule_of, invariant_of};
ghost use Rattle.sv_app.specs.Valid.{number_of, value_of, side_of, key_by, Binds, IsInvariant};
ghost use Rattle.sv_effect.specs.Agrees.{is_present};
ghost use Rattle.sv_effect.specs.Asked.{Asked};
ghost use Rattle.sv_effect.specs.Follows.{Follows};
ghost use Rattle.sv_effect.specs.Overlays.{over, left_row};
ghost use Rattle.sv_effect.specs.Words.{IsWordGot};
ghost use Rattle.sv_check.specs.Bounds.{AreBounded, LeftBounded};
ghost use Rattle.sv_check.specs.Left.{is_left};
ghost use Rattle.sv_check.specs.Least.{Says, has_absent, IsOwn, RowSays, PlaceSays};
ghost use Rattle.sv_check.specs.Rules.{is_met};

use crate::rules::{is_listed, is_within};
use std::alloc::Global;
use sv_app::{App, Check, Got, Ident, Inv, InvBody, Kind, Place};
use sv_effect::{Halt, LeftRow, Rows, ask_row, column as column_of, is_place, left_at, look};
use sv_value::{Key, Val};

fn value_of(row: &LeftRow, column: &Ident) -> Got
    ensures { result ≡ value_of (left_row row.now) column.now }
{
    column_of(row.values.items(), column.num)
}

/// A side of a check.
fn side_of(row: &LeftRow, side: Option<Ident>) -> Got
    ensures { number_of result ≡ side_of (left_row row.now) side }
{
    match side {
        Some(column) => value_of(row, &column),
        None => Got::Num(0),
    }
}

fn is_met(row: &LeftRow, check: &Check) -> bool
    ensures { result ≡ is_met (left_row row.now) check.now }
{
    is_within(side_of(row, check.hi), side_of(row, check.lo), check.most)
}

/// The key that the value is; a number is of 64 bits.
fn key_by(got: &Got) -> Key
    requires { IsWordGot got.now }
    ensures { result ≡ key_by got.now }
{
    let first = match got {
        Got::Num(number) => Val::Int(*number as i64),
        Got::Text(text) => Val::Text(*text),
    };
    Key {
        first,
        second: None,
    }
}

/// Whether rows of such a table are never removed.
fn is_grow_only(kind: Kind) -> bool
    ensures { result ≡ is_grow_only kind }
{
    match kind {
        Kind::Aoset | Kind::Uoset | Kind::Auset => true,
        Kind::Plain | Kind::Arset => false,
    }
}

/// Whether a reference to the table binds a row.
#[tactic(auto, using(crate::proofs::BrokenLaws::binding))]
fn binds(app: &App, parent: u16, present: bool) -> bool
    ensures { Says result (Binds (slice_get (schema_of app.now.tables.items) parent) present) }
{
    let table = parent as usize;
    table < app.tables.len() && (is_grow_only(app.tables[table].kind) || present)
}

/// Whether changes left a row there.
fn is_left(left: &[(Place, LeftRow)], place: &Place) -> bool
    ensures { result ≡ is_left place.now left.now }
{
    for (other, _) in left {
        if is_place(place, other) {
            return true;
        }
    }
    false
}

/// Whether changes left a row of the table that isn't present.
pub fn has_absent(left: &[(Place, LeftRow)], table: u16) -> bool
    ensures { result ≡ has_absent left.now table }
{
    for (place, row) in left {
        if place.table == table && !row.present {
            return true;
        }
    }
    false
}

/// Whether the row there is present after the changes; where it was surely present before them, it isn't asked for.
#[tactic(auto, using(crate::proofs::BrokenLaws::standing))]
fn stands<R: Rows>(
    left: &[(Place, LeftRow)],
    place: &Place,
    sure: bool,
    rows: &mut R,
) -> Result<bool, Halt>
    ensures followed { IfOk result (λ stands. Follows (R.face rows.old) (R.face rows.new) (R.noted rows.old) (R.noted rows.new)
        (λ t. (sure ≡ true → is_present t place.now.table place.now.key ≡ true) → is_present (over left.now t) place.now.table place.now.key ≡ stands)) }
    ensures asked { Asked R.stays R.face rows.old rows.new result }
{
    match left_at(left, place) {
        Some(row) => Ok(row.present),
        None => {
            if sure {
                return Ok(true);
            }
            let seen = ask_row(rows, place.table, &place.key)?;
            Ok(seen.present)
        }
    }
}

/// Whether the row, which stands at the place after the changes, breaks the rule.
#[tactic(auto, using(crate::proofs::BrokenLaws::saying))]
fn row_breaks<R: Rows>(
    app: &App,
    inv: &Inv,
    place: &Place,
    row: &LeftRow,
    left: &[(Place, LeftRow)],
    rows: &mut R,
) -> Result<bool, Halt>
    requires own { IsOwn (rule_of inv.now.body) }
    requires declared { IsInvariant (schema_of app.now.tables.items) place.now.table (invariant_of inv.now) }
    requires accepted { AcceptedSchema (schema_of app.now.tables.items) }
    requires bounded { AreBounded (slice_get (schema_of app.now.tables.items) place.now.table) 0 row.now.values }
    ensures followed { IfOk result (λ breaks. Follows (R.face rows.old) (R.face rows.new) (R.noted rows.old) (R.noted rows.new)
        (RowSays (schema_of app.now.tables.items) left.now place.now (left_row row.now) (rule_of inv.now.body) breaks)) }
    ensures asked { Asked R.stays R.face rows.old rows.new result }
{
    match &inv.body {
        InvBody::Check(check) => Ok(!is_met(row, check)),
        InvBody::List { col, texts } => Ok(!is_listed(&value_of(row, col), texts.as_slice())),
        InvBody::Unique { .. } => unreachable!(),
        InvBody::Refers { col, table, .. } => {
            if !binds(app, table.num, row.present) {
                return Ok(false);
            }
            let parent = Place {
                table: table.num,
                key: key_by(&value_of(row, col)),
            };
            let sure = !is_left(left, place);
            let found = stands(left, &parent, sure, rows)?;
            Ok(!found)
        }
    }
}

/// Whether the rule is broken at the place after the changes.
#[tactic(auto, using(crate::proofs::BrokenLaws::looking))]
pub fn is_broken<R: Rows>(
    alloc: Global,
    app: &App,
    inv: &Inv,
    place: &Place,
    left: &[(Place, LeftRow)],
    rows: &mut R,
) -> Result<bool, Halt>
    requires own { IsOwn (rule_of inv.now.body) }
    requires declared { IsInvariant (schema_of app.now.tables.items) place.now.table (invariant_of inv.now) }
    requires accepted { AcceptedSchema (schema_of app.now.tables.items) }
    requires rows { R.is_of rows.old (schema_of app.now.tables.items) }
    requires bounded { LeftBounded (schema_of app.now.tables.items) 0 left.now }
    ensures followed { IfOk result (λ broken. Follows (R.face rows.old) (R.face rows.new) (R.noted rows.old) (R.noted rows.new)
        (PlaceSays (schema_of app.now.tables.items) left.now place.now (rule_of inv.now.body) broken)) }
    ensures asked { Asked R.stays R.face rows.old rows.new result }
{
    match look(alloc, left, rows, place)? {
        None => Ok(false),
        Some(row) => {
            let broken = row_breaks(app, inv, place, &row, left, rows)?;
            Ok(broken)
        }
    }
}
