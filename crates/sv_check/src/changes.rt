//! The rows that changes leave, each write winning.

ghost use Rattle.std.specs.Prelude.{◌≡◌, ◌≤◌, ◌<◌, ◌+◌, ℕ, suc, Some, false, length, List, IfOk, OnOk, map, slice_get, unwrap_or};
ghost use Rattle.sv_app.specs.Schema.{schema_of};
ghost use Rattle.sv_app.specs.Tables.{Tables};
ghost use Rattle.sv_effect.specs.Applied.{place_of, zeros_in};
ghost use Rattle.sv_effect.specs.BareTables.{got_of};
ghost use Rattle.sv_effect.specs.Fits.{FitsSchema, AllFit};
ghost use Rattle.sv_effect.specs.Asked.{Asked};
ghost use Rattle.sv_effect.specs.Follows.{Follows};
ghost use Rattle.sv_effect.specs.RowChange.{turn_of};
ghost use Rattle.sv_effect.specs.RunChanges.{effect_of};
ghost use Rattle.sv_effect.specs.Effects.{row_after, with_effect, with_effects};
ghost use Rattle.sv_effect.specs.Overlays.{over, left_row, left_rows};
ghost use Rattle.sv_effect.specs.Words.{AreWordGots};
ghost use Rattle.sv_check.specs.Bounds.{IsBounded, LeftBounded, ChangesBounded};
ghost use Rattle.sv_check.specs.Left.{start_of};

use std::alloc::Global;
use sv_app::{Act, App, Got, Place};
use sv_effect::{Halt, LeftRow, RowEffect, Rows, look, make_writes, zeros};
use sv_value::{List, NoMemory};

/// Whether a row is present after the act.
fn turned(act: Act, present: bool) -> bool
    ensures { result ≡ unwrap_or (turn_of act) present }
{
    match act {
        Act::Insert | Act::Fresh => true,
        Act::Update => present,
        Act::Remove => false,
    }
}

/// The values that a change of a row that isn't kept starts from.
#[tactic(auto, using(crate::proofs::TableLaws::declared, sv_effect::proofs::WordLaws::words))]
fn first_values(alloc: Global, app: &App, effect: &RowEffect) -> Result<List<Got>, NoMemory>
    ensures words { IfOk result (λ values. AreWordGots values) }
    ensures values { IfOk result (λ values. values ≡ map got_of (zeros_in (schema_of app.now.tables.items) (place_of effect.now))) }
{
    let table = effect.table as usize;
    if table < app.tables.len() {
        zeros(alloc, &app.tables[table], &effect.key)
    } else {
        Ok(List::new(alloc))
    }
}

/// The row that the change starts from.
#[tactic(auto, using(crate::proofs::BoundLaws::starting))]
fn row_before(
    alloc: Global,
    app: &App,
    effect: &RowEffect,
    kept: Option<LeftRow>,
) -> Result<LeftRow, NoMemory>
    ensures row { IfOk result (λ row. left_row row ≡ start_of (schema_of app.now.tables.items) (effect_of effect.now) (left_rows kept)) }
    ensures bounded { IfOk result (λ row. (writes : ℕ) → writes ≤ 1024 → IsBounded (schema_of app.now.tables.items) writes (place_of effect.now) (left_rows kept)
        → IsBounded (schema_of app.now.tables.items) writes (place_of effect.now) (Some (left_row row))) }
{
    match kept {
        Some(row) => Ok(row),
        None => Ok(LeftRow {
            values: first_values(alloc, app, effect)?,
            present: false,
        }),
    }
}

/// The row after the change. There is room for its writes.
fn row_after(
    alloc: Global,
    app: &App,
    effect: &RowEffect,
    kept: Option<LeftRow>,
) -> Result<LeftRow, NoMemory>
    requires fits { FitsSchema (schema_of app.now.tables.items) effect.now }
    requires bounded { IsBounded (schema_of app.now.tables.items) 16 (place_of effect.now) (left_rows kept) }
    ensures row { IfOk result (λ row. left_row row ≡ row_after (schema_of app.now.tables.items) (effect_of effect.now) (left_rows kept)) }
    ensures bounded { IfOk result (λ row. (writes : ℕ) → writes ≤ 1008 → IsBounded (schema_of app.now.tables.items) (16 + writes) (place_of effect.now) (left_rows kept)
        → IsBounded (schema_of app.now.tables.items) writes (place_of effect.now) (Some (left_row row))) }
{
    let LeftRow { values, present } = row_before(alloc, app, effect, kept)?;
    let mut values = values.into_vec();
    make_writes(&mut values, effect.writes.as_slice())?;
    Ok(LeftRow {
        values: List::from_vec(values),
        present: turned(effect.act, present),
    })
}

/// Makes a change of the rows that earlier ones left, fewer than 64.
#[tactic(auto, using(crate::proofs::ChangeLaws::changing))]
fn change<R: Rows>(
    alloc: Global,
    app: &App,
    effect: &RowEffect,
    left: &mut Vec<(Place, LeftRow)>,
    rows: &mut R,
) -> Result<(), Halt>
    requires rows { R.is_of rows.old (schema_of app.now.tables.items) }
    requires fits { FitsSchema (schema_of app.now.tables.items) effect.now }
    requires few { length left.old.items < 64 }
    requires bounded { ChangesBounded (schema_of app.now.tables.items) left.old.items }
    ensures bounded { OnOk result (ChangesBounded (schema_of app.now.tables.items) left.new.items) }
    ensures more { OnOk result (length left.new.items ≡ suc (length left.old.items)) }
    ensures followed { OnOk result (Follows (R.face rows.old) (R.face rows.new) (R.noted rows.old) (R.noted rows.new)
        (λ t. over left.new.items t ≡ with_effect (schema_of app.now.tables.items) (effect_of effect.now) (over left.old.items t))) }
    ensures asked { Asked R.stays R.face rows.old rows.new result }
{
    let place = Place {
        table: effect.table,
        key: effect.key,
    };
    let kept = look(alloc, left, rows, &place)?;
    let row = row_after(alloc, app, effect, kept)?;
    left.insert(0, (place, row))?;
    Ok(())
}

/// The rows that the changes leave, the latest first. The rows are of the application, the changes fit it, and there are
/// at most 64.
#[tactic(auto, using(crate::proofs::ChangeLaws::changing))]
pub fn rows_after<R: Rows>(
    alloc: Global,
    app: &App,
    effects: &[RowEffect],
    rows: &mut R,
) -> Result<Vec<(Place, LeftRow)>, Halt>
    requires rows { R.is_of rows.old (schema_of app.now.tables.items) }
    requires fits { AllFit (schema_of app.now.tables.items) effects.now }
    requires few { length effects.now ≤ 64 }
    ensures bounded { IfOk result (λ left. LeftBounded (schema_of app.now.tables.items) 0 left.items) }
    ensures followed { IfOk result (λ left. Follows (R.face rows.old) (R.face rows.new) (R.noted rows.old) (R.noted rows.new)
        (λ t. over left.items t ≡ with_effects (schema_of app.now.tables.items) (map effect_of effects.now) t)) }
    ensures asked { Asked R.stays R.face rows.old rows.new result }
{
    let mut left = Vec::new(alloc);
    for effect in effects {
        change(alloc, app, effect, &mut left, rows)?;
    }
    Ok(left)
}
