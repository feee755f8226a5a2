ghost use Rattle.std.specs.Prelude.{◌≡◌, ◌<◌, ◌≤◌, ◌++◌, ◌∷◌, [], OnOk, IfOk, length, Some, None, map};
ghost use Rattle.sv_app.specs.Schema.{declaration_of};
ghost use Rattle.sv_app.specs.Tables.{Tables};
ghost use Rattle.sv_app.specs.Trees.{sets_of};
ghost use Rattle.sv_effect.specs.Run.{changed, row_with, updated, inserted, drawn, removed};
ghost use Rattle.sv_effect.specs.RunChanges.{kept_values, with_writes, stands};
ghost use Rattle.sv_effect.specs.Overlays.{left_row, left_rows};
ghost use Rattle.sv_interp.specs.Machine.{stand, flow_of};

use crate::inserts::{drawn_writes, in_order, inserts};
use crate::settings::Spot;
use crate::states::State;
use crate::writes::{make_writes, sets_made};
use arrayvec::ArrayVec;
use sv_app::limits::MOST_EFFECTS;
use sv_app::{Act, Expr, Got, Ident, Place};
use sv_effect::{LeftRow, Outcome, RowEffect, Write, copy_values, zeros};
use sv_value::{List, NoMemory, Val};

/// The writes, as a change carries them.
fn carried(writes: &[(u16, Write)]) -> ArrayVec<(u16, Write), 16>
    requires { length writes.now ≤ 16 }
    ensures { result.items ≡ writes.now }
{
    let mut carried = ArrayVec::new();
    for write in writes {
        carried.push(*write);
    }
    carried
}

/// Makes a change that leaves this row; the 65th ends the run.
fn change(
    state: &mut State,
    place: &Place,
    act: Act,
    writes: &[(u16, Write)],
    row: LeftRow,
) -> Result<Option<Outcome>, NoMemory>
    requires { length writes.now ≤ 16 }
    ensures { IfOk result (λ end. (t : Tables) → changed (record {
      place = place.now;
      act = act;
      writes = writes.now;
      instance = state.old.scope.progress.number;
    }) (left_row row) (stand t state.old)
        ≡ flow_of end (stand t state.new)) }
{
    if state.effects.len() >= MOST_EFFECTS {
        return Ok(Some(Outcome::TooLarge));
    }
    let effect = RowEffect {
        table: place.table,
        key: place.key,
        act,
        writes: carried(writes),
        instance: state.scope.progress.number,
    };
    state.effects.push(effect)?;
    state.own.insert(0, (*place, row))?;
    Ok(None)
}

/// The values after the writes.
fn with_writes(values: List<Got>, writes: &[(u16, Write)]) -> Result<List<Got>, NoMemory>
    ensures { IfOk result (λ row. row ≡ with_writes writes.now values) }
{
    let mut row = values.into_vec();
    make_writes(&mut row, writes)?;
    Ok(List::from_vec(row))
}

/// Updates a row.
pub fn update_row(
    spot: &Spot<'_>,
    sets: &[(Ident, Expr)],
    row: LeftRow,
    state: &mut State,
) -> Result<Option<Outcome>, NoMemory>
    ensures { IfOk result (λ end. (t : Tables) → updated (declaration_of spot.now.table.now) spot.now.place
        (sets_of sets.now) (stand t state.old) (left_row row) ≡ flow_of end (stand t state.new)) }
{
    state.start_update(spot.alloc, copy_values(spot.alloc, row.values.items())?);
    let Some(made) = sets_made(spot.alloc, &spot.table.columns, sets, &mut state.scope)? else {
        return Ok(Some(Outcome::Range));
    };
    let writes = in_order(spot.alloc, spot.table, 0, &spot.table.columns, made.items())?;
    let values = with_writes(row.values, writes.items())?;
    let left = LeftRow {
        values,
        present: true,
    };
    state.end_update(spot.alloc);
    change(state, &spot.place, Act::Update, writes.items(), left)
}

/// The values that an insert finds.
fn kept_values(spot: &Spot<'_>, row: Option<LeftRow>) -> Result<List<Got>, NoMemory>
    ensures { IfOk result (λ kept. kept ≡ kept_values (declaration_of spot.now.table.now) spot.now.place.key
        (left_rows row)) }
{
    match row {
        Some(row) => Ok(row.values),
        None => zeros(spot.alloc, spot.table, &spot.place.key),
    }
}

fn stands(row: &Option<LeftRow>) -> bool
    ensures { result ≡ stands (left_rows row.now) }
{
    match row {
        Some(row) => row.present,
        None => false,
    }
}

/// Inserts a row, where none is present.
pub fn insert_row(
    spot: &Spot<'_>,
    vals: &[Val],
    row: Option<LeftRow>,
    state: &mut State,
) -> Result<Option<Outcome>, NoMemory>
    ensures { IfOk result (λ end. (t : Tables) → inserted (declaration_of spot.now.table.now) spot.now.place vals.now
        (left_rows row) (stand t state.old) ≡ flow_of end (stand t state.new)) }
{
    if stands(&row) {
        return Ok(Some(Outcome::Exists));
    }
    let kept = kept_values(spot, row)?;
    let Some(writes) = inserts(
        spot.alloc,
        spot.table,
        vals,
        kept.items(),
        0,
        &spot.table.columns,
        &mut state.scope,
    )?
    else {
        return Ok(Some(Outcome::Range));
    };
    let values = with_writes(kept, writes.items())?;
    let left = LeftRow {
        values,
        present: true,
    };
    change(state, &spot.place, Act::Insert, writes.items(), left)
}

/// Inserts a row under a drawn key, where none is kept, and gives the key to the variable.
pub fn draw_row(
    spot: &Spot<'_>,
    var: u16,
    vals: &[Val],
    row: Option<LeftRow>,
    state: &mut State,
) -> Result<Option<Outcome>, NoMemory>
    ensures { IfOk result (λ end. (t : Tables) → drawn var (declaration_of spot.now.table.now) spot.now.place vals.now
        (left_rows row) (stand t state.old) ≡ flow_of end (stand t state.new)) }
{
    if row.is_some() {
        return Ok(Some(Outcome::Exists));
    }
    let writes = drawn_writes(spot.alloc, spot.table, 0, &spot.table.columns, vals)?;
    let zeros = zeros(spot.alloc, spot.table, &spot.place.key)?;
    let values = with_writes(zeros, writes.items())?;
    let left = LeftRow {
        values,
        present: true,
    };
    state.draw(var, &spot.place.key.first)?;
    change(state, &spot.place, Act::Fresh, writes.items(), left)
}

/// Removes a row: it is kept, and no longer present.
pub fn remove_row(
    place: &Place,
    row: LeftRow,
    state: &mut State,
) -> Result<Option<Outcome>, NoMemory>
    ensures { IfOk result (λ end. (t : Tables) → removed place.now (stand t state.old) (left_row row)
        ≡ flow_of end (stand t state.new)) }
{
    let left = LeftRow {
        values: row.values,
        present: false,
    };
    change(state, place, Act::Remove, &[], left)
}
