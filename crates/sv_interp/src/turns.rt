ghost use Rattle.std.specs.Prelude.{◌≡◌, IfOk, IfSome, map, slice_get};
ghost use Rattle.std.specs.Option.{option_map};
ghost use Rattle.sv_app.specs.Trees.{test_of};
ghost use Rattle.sv_app.specs.Units.{unit_of};
ghost use Rattle.sv_effect.specs.Asked.{Asked};
ghost use Rattle.sv_effect.specs.Overlays.{over};
ghost use Rattle.sv_effect.specs.Run.{items_of};
ghost use Rattle.sv_interp.specs.Machine.{Learns, scope_of, setting_of};
ghost use Rattle.sv_interp.specs.Turning.{item_turns, row_turns, turns_selected, AreRowTurns, EntersOn, Begins};

use crate::keys::met_keys;
use crate::scopes::{Progress, Scope};
use crate::settings::{Selection, Setting, Turn};
use crate::slots::put_value;
use crate::statements::{items_of, loop_unit};
use crate::states::State;
use sv_app::{Ident, Place};
use sv_effect::{Halt, LeftRow, Rows, look};
use sv_value::{Key, List, NoMemory, Val};

fn over_items(setting: &Setting<'_>, var: u16, vals: &[Val]) -> Result<List<Turn>, NoMemory>
    ensures { IfOk result (λ turns. turns ≡ item_turns (unit_of (setting_of setting.now).loops var) var vals.now) }
{
    let unit = loop_unit(setting, var);
    let mut turns = List::new(setting.alloc);
    // A turn may hold a key: where turns are dropped the prover wants a key at hand.
    let _key = Key {
        first: Val::Int(0),
        second: None,
    };
    let _first = vals.first();
    for val in vals {
        turns.push(Turn::Item {
            unit,
            var,
            val: *val,
        })?;
    }
    Ok(turns)
}

/// The turns of a loop over the elements of a list.
pub fn item_turns(setting: &Setting<'_>, var: Ident, list: Ident) -> Result<List<Turn>, NoMemory>
    ensures { IfOk result (λ turns. turns ≡ item_turns (unit_of (setting_of setting.now).loops var.num) var.num
        (items_of (slice_get (setting_of setting.now).arguments list.num))) }
{
    let vals = items_of(setting, list.num)?;
    over_items(setting, var.num, vals.items())
}

fn over_rows(
    setting: &Setting<'_>,
    selection: &Selection<'_>,
    keys: &[Key],
) -> Result<List<Turn>, NoMemory>
    ensures { IfOk result (λ turns. turns ≡ row_turns (unit_of (setting_of setting.now).loops selection.now.row.num)
        selection.now.row.num selection.now.table.num keys.now) }
{
    let unit = loop_unit(setting, selection.row.num);
    let mut turns = List::new(setting.alloc);
    for key in keys {
        turns.push(Turn::Row {
            unit,
            row: selection.row.num,
            table: selection.table.num,
            key: *key,
        })?;
    }
    Ok(turns)
}

/// The turns of a loop over the rows that meet a condition, in the order of their keys; none where a number leaves
/// 64 bits.
#[tactic(auto, using(crate::proofs::TurnLaws::selecting))]
pub fn row_turns<R: Rows>(
    setting: &Setting<'_>,
    selection: &Selection<'_>,
    own: &[(Place, LeftRow)],
    scope: Scope,
    rows: &mut R,
) -> Result<Option<List<Turn>>, Halt>
    ensures followed { IfOk result (λ turns. Learns R.face R.noted rows.old rows.new (λ t.
        turns_selected (setting_of setting.now).loops selection.now.row selection.now.table
        (option_map test_of selection.now.cond.now) (over own.now t) (scope_of scope) ≡ turns)) }
    ensures kind { IfOk result (λ turns. IfSome turns (AreRowTurns
        (unit_of (setting_of setting.now).loops selection.now.row.num) selection.now.row.num selection.now.table.num)) }
    ensures asked { Asked R.stays R.face rows.old rows.new result }
{
    let Some(keys) = met_keys(setting.alloc, selection, own, scope, rows)? else {
        return Ok(None);
    };
    let turns = over_rows(setting, selection, keys.items())?;
    Ok(Some(turns))
}

/// Begins a turn: the instance of its unit, with the variable of the loop bound. The instance around it is answered;
/// none for a row that is no longer present, whose turn is skipped.
#[tactic(auto, using(crate::proofs::TurnLaws::entering))]
pub fn begin_turn<R: Rows>(
    setting: &Setting<'_>,
    turn: &Turn,
    state: &mut State,
    rows: &mut R,
) -> Result<Option<Progress>, Halt>
    ensures entered { IfOk result (λ outer. EntersOn R.face R.noted rows.old rows.new
        turn.now state.old outer state.new) }
    ensures begun { IfOk result (λ outer. Begins (R.is_of rows.old) turn.now state.old outer state.new) }
    ensures asked { Asked R.stays R.face rows.old rows.new result }
{
    match turn {
        Turn::Item { unit, var, val } => {
            let outer = state.begin(setting.alloc, *unit)?;
            put_value(&mut state.scope.values, *var, val)?;
            Ok(Some(outer))
        }
        Turn::Row {
            unit,
            row,
            table,
            key,
        } => {
            let place = Place {
                table: *table,
                key: *key,
            };
            match look(setting.alloc, &state.own, rows, &place)? {
                None => Ok(None),
                Some(found) => {
                    if !found.present {
                        return Ok(None);
                    }
                    let outer = state.begin(setting.alloc, *unit)?;
                    state.bind(setting.alloc, *row, found.values)?;
                    Ok(Some(outer))
                }
            }
        }
    }
}
