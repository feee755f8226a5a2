ghost use Rattle.std.specs.Prelude.{◌≡◌, ◌≤◌, length, IfOk, IfSome, map, slice_get};
ghost use Rattle.sv_value.specs.declared.values.Val.TheVariants.{Int};
ghost use Rattle.std.specs.FinMap.{get};
ghost use Rattle.sv_app.specs.Schema.{declaration_of, schema_of};
ghost use Rattle.sv_app.specs.Tables.{Tables};
ghost use Rattle.sv_app.specs.Trees.{term_of, terms_of, sets_of, Declare, Fetch, Insert, Fresh, Update, Remove, Reply};
ghost use Rattle.sv_app.specs.Units.{unit_of};
ghost use Rattle.sv_effect.specs.Asked.{Asked};
ghost use Rattle.sv_effect.specs.Run.{items_of, run_command, on_present, Setting as RunSetting};
ghost use Rattle.sv_effect.specs.Run.{inserted, drawn, updated};
ghost use Rattle.sv_interp.specs.Keeping.{Statement, Keeps, LooksUp};
ghost use Rattle.sv_interp.specs.Machine.{declared, stand, flow_of, setting_of, RunsOn};

use crate::changes::{draw_row, insert_row, remove_row, update_row};
use crate::inserts::{key_in, key_of, values};
use crate::loops::unit_of;
use crate::settings::{Draw, Setting, Spot, Target};
use crate::states::State;
use crate::values::value;
use std::alloc::Global;
use sv_app::{Arg, Expr, Ident, Place, Table};
use sv_effect::{Halt, Outcome, Rows, look};
use sv_value::{List, NoMemory, Val};

/// Gives a variable the value of an expression.
pub fn run_let(var: Ident, expr: &Expr, state: &mut State) -> Result<Option<Outcome>, NoMemory>
    ensures { IfOk result (λ end. (g : RunSetting) (t : Tables)
        → run_command g (Declare var (term_of expr.now)) (stand t state.old) ≡ flow_of end (stand t state.new)) }
{
    let Some(val) = value(expr, &mut state.scope)? else {
        return Ok(Some(Outcome::Range));
    };
    state.set(var.num, &val)?;
    Ok(None)
}

/// Gives a reply.
pub fn run_reply(expr: &Expr, state: &mut State) -> Result<Option<Outcome>, NoMemory>
    ensures { IfOk result (λ end. (g : RunSetting) (t : Tables)
        → run_command g (Reply (term_of expr.now)) (stand t state.old) ≡ flow_of end (stand t state.new)) }
{
    let Some(val) = value(expr, &mut state.scope)? else {
        return Ok(Some(Outcome::Range));
    };
    state.reply(&val)
}

/// Binds a row variable to a row, which has to be present.
#[tactic(auto, using(crate::proofs::RunLaws::steps, crate::proofs::KeepLaws::steps))]
pub fn run_get<R: Rows>(
    setting: &Setting<'_>,
    row: Ident,
    target: &Target<'_>,
    state: &mut State,
    rows: &mut R,
) -> Result<Option<Outcome>, Halt>
    ensures ran { IfOk result (λ end. RunsOn R.face R.noted rows.old rows.new
        (run_command (setting_of setting.now) (Fetch row target.now.table
        (terms_of target.now.key.now))) state.old end state.new) }
    ensures kept { IfOk result (λ end. Keeps (R.is_of rows.old) (setting_of setting.now)
        (Statement (Fetch row target.now.table (terms_of target.now.key.now))) state.old end state.new) }
    ensures asked { Asked R.stays R.face rows.old rows.new result }
{
    let Some(vals) = values(setting.alloc, target.key, &mut state.scope)? else {
        return Ok(Some(Outcome::Range));
    };
    let place = Place {
        table: target.table.num,
        key: key_of(vals.items()),
    };
    match look(setting.alloc, &state.own, rows, &place)? {
        None => Ok(Some(Outcome::NoRow)),
        Some(found) => {
            if !found.present {
                return Ok(Some(Outcome::NoRow));
            }
            state.bind(setting.alloc, row.num, found.values)?;
            Ok(None)
        }
    }
}

fn found_table(tables: &[Table], number: u16) -> Option<&Table>
    ensures { slice_get (schema_of tables.now) number ≡ declared result }
{
    tables.get(number as usize)
}

/// The table of that number.
fn table_at<'a>(setting: &Setting<'a>, number: u16) -> Option<&'a Table>
    ensures table { slice_get (setting_of setting.now).schema number ≡ declared result }
    ensures narrow { IfSome result (λ table. length (declaration_of table.now).columns ≤ 16) }
{
    found_table(setting.tables, number)
}

#[tactic(auto, using(crate::proofs::RunLaws::steps, crate::proofs::KeepLaws::steps))]
fn insert_at<R: Rows>(
    spot: &Spot<'_>,
    vals: &[Val],
    state: &mut State,
    rows: &mut R,
) -> Result<Option<Outcome>, Halt>
    ensures ran { IfOk result (λ end. RunsOn R.face R.noted rows.old rows.new
        (λ st. inserted (declaration_of spot.now.table.now) spot.now.place vals.now
        (get st.tables spot.now.place) st) state.old end state.new) }
    ensures kept { IfOk result (λ end. LooksUp (R.is_of rows.old) spot.now.place
        (λ row st. inserted (declaration_of spot.now.table.now) spot.now.place vals.now row st) state.old end
        state.new) }
    ensures asked { Asked R.stays R.face rows.old rows.new result }
{
    let found = look(spot.alloc, &state.own, rows, &spot.place)?;
    let end = insert_row(spot, vals, found, state)?;
    Ok(end)
}

/// Inserts a row, where none is present.
#[tactic(auto, using(crate::proofs::RunLaws::steps, crate::proofs::KeepLaws::steps))]
pub fn run_insert<R: Rows>(
    setting: &Setting<'_>,
    table: Ident,
    exprs: &[Expr],
    state: &mut State,
    rows: &mut R,
) -> Result<Option<Outcome>, Halt>
    ensures ran { IfOk result (λ end. RunsOn R.face R.noted rows.old rows.new
        (run_command (setting_of setting.now) (Insert table (terms_of exprs.now))) state.old end state.new) }
    ensures kept { IfOk result (λ end. Keeps (R.is_of rows.old) (setting_of setting.now)
        (Statement (Insert table (terms_of exprs.now))) state.old end state.new) }
    ensures asked { Asked R.stays R.face rows.old rows.new result }
{
    let Some(vals) = values(setting.alloc, exprs, &mut state.scope)? else {
        return Ok(Some(Outcome::Range));
    };
    let Some(declared) = table_at(setting, table.num) else {
        return Ok(Some(Outcome::NoRow));
    };
    let spot = Spot {
        alloc: setting.alloc,
        table: declared,
        place: Place {
            table: table.num,
            key: key_in(setting.alloc, &declared.key, vals.items())?,
        },
    };
    let end = insert_at(&spot, vals.items(), state, rows)?;
    Ok(end)
}

#[tactic(auto, using(crate::proofs::RunLaws::steps, crate::proofs::KeepLaws::steps))]
fn draw_at<R: Rows>(
    spot: &Spot<'_>,
    var: u16,
    vals: &[Val],
    state: &mut State,
    rows: &mut R,
) -> Result<Option<Outcome>, Halt>
    ensures ran { IfOk result (λ end. RunsOn R.face R.noted rows.old rows.new
        (λ st. drawn var (declaration_of spot.now.table.now) spot.now.place vals.now
        (get st.tables spot.now.place) st) state.old end state.new) }
    ensures kept { IfOk result (λ end. LooksUp (R.is_of rows.old) spot.now.place
        (λ row st. drawn var (declaration_of spot.now.table.now) spot.now.place vals.now row st) state.old end
        state.new) }
    ensures asked { Asked R.stays R.face rows.old rows.new result }
{
    let found = look(spot.alloc, &state.own, rows, &spot.place)?;
    let end = draw_row(spot, var, vals, found, state)?;
    Ok(end)
}

/// Inserts a row under a drawn key, where none is kept, and gives the key to a variable.
#[tactic(auto, using(crate::proofs::RunLaws::steps, crate::proofs::KeepLaws::steps))]
pub fn run_fresh<R: Rows>(
    setting: &Setting<'_>,
    draw: &Draw<'_>,
    state: &mut State,
    rows: &mut R,
) -> Result<Option<Outcome>, Halt>
    ensures ran { IfOk result (λ end. RunsOn R.face R.noted rows.old rows.new
        (run_command (setting_of setting.now) (Fresh draw.now.var draw.now.table
        (terms_of draw.now.values.now))) state.old end state.new) }
    ensures kept { IfOk result (λ end. Keeps (R.is_of rows.old) (setting_of setting.now)
        (Statement (Fresh draw.now.var draw.now.table (terms_of draw.now.values.now))) state.old end state.new) }
    ensures asked { Asked R.stays R.face rows.old rows.new result }
{
    let Some(vals) = values(setting.alloc, draw.values, &mut state.scope)? else {
        return Ok(Some(Outcome::Range));
    };
    let Some(declared) = table_at(setting, draw.table.num) else {
        return Ok(Some(Outcome::NoRow));
    };
    let spot = Spot {
        alloc: setting.alloc,
        table: declared,
        place: Place {
            table: draw.table.num,
            key: state.effects.next_key(setting.first),
        },
    };
    let end = draw_at(&spot, draw.var.num, vals.items(), state, rows)?;
    Ok(end)
}

#[tactic(auto, using(crate::proofs::RunLaws::steps, crate::proofs::KeepLaws::steps))]
fn update_at<R: Rows>(
    spot: &Spot<'_>,
    sets: &[(Ident, Expr)],
    state: &mut State,
    rows: &mut R,
) -> Result<Option<Outcome>, Halt>
    ensures ran { IfOk result (λ end. RunsOn R.face R.noted rows.old rows.new
        (λ st. on_present (get st.tables spot.now.place) (updated (declaration_of spot.now.table.now) spot.now.place
        (sets_of sets.now) st)) state.old end state.new) }
    ensures kept { IfOk result (λ end. LooksUp (R.is_of rows.old) spot.now.place
        (λ row st. on_present row (updated (declaration_of spot.now.table.now) spot.now.place
        (sets_of sets.now) st)) state.old end state.new) }
    ensures asked { Asked R.stays R.face rows.old rows.new result }
{
    match look(spot.alloc, &state.own, rows, &spot.place)? {
        None => Ok(Some(Outcome::NoRow)),
        Some(found) => {
            if !found.present {
                return Ok(Some(Outcome::NoRow));
            }
            let end = update_row(spot, sets, found, state)?;
            Ok(end)
        }
    }
}

/// Updates a row, which has to be present.
#[tactic(auto, using(crate::proofs::RunLaws::steps, crate::proofs::KeepLaws::steps))]
pub fn run_update<R: Rows>(
    setting: &Setting<'_>,
    target: &Target<'_>,
    sets: &[(Ident, Expr)],
    state: &mut State,
    rows: &mut R,
) -> Result<Option<Outcome>, Halt>
    ensures ran { IfOk result (λ end. RunsOn R.face R.noted rows.old rows.new
        (run_command (setting_of setting.now) (Update target.now.table (terms_of target.now.key.now)
        (sets_of sets.now))) state.old end state.new) }
    ensures kept { IfOk result (λ end. Keeps (R.is_of rows.old) (setting_of setting.now)
        (Statement (Update target.now.table (terms_of target.now.key.now)
        (sets_of sets.now))) state.old end state.new) }
    ensures asked { Asked R.stays R.face rows.old rows.new result }
{
    let Some(vals) = values(setting.alloc, target.key, &mut state.scope)? else {
        return Ok(Some(Outcome::Range));
    };
    let Some(declared) = table_at(setting, target.table.num) else {
        return Ok(Some(Outcome::NoRow));
    };
    let spot = Spot {
        alloc: setting.alloc,
        table: declared,
        place: Place {
            table: target.table.num,
            key: key_of(vals.items()),
        },
    };
    let end = update_at(&spot, sets, state, rows)?;
    Ok(end)
}

/// Removes a row, which has to be present.
#[tactic(auto, using(crate::proofs::RunLaws::steps, crate::proofs::KeepLaws::steps))]
pub fn run_remove<R: Rows>(
    setting: &Setting<'_>,
    target: &Target<'_>,
    state: &mut State,
    rows: &mut R,
) -> Result<Option<Outcome>, Halt>
    ensures ran { IfOk result (λ end. RunsOn R.face R.noted rows.old rows.new
        (run_command (setting_of setting.now) (Remove target.now.table
        (terms_of target.now.key.now))) state.old end state.new) }
    ensures kept { IfOk result (λ end. Keeps (R.is_of rows.old) (setting_of setting.now)
        (Statement (Remove target.now.table (terms_of target.now.key.now))) state.old end state.new) }
    ensures asked { Asked R.stays R.face rows.old rows.new result }
{
    let Some(vals) = values(setting.alloc, target.key, &mut state.scope)? else {
        return Ok(Some(Outcome::Range));
    };
    let place = Place {
        table: target.table.num,
        key: key_of(vals.items()),
    };
    match look(setting.alloc, &state.own, rows, &place)? {
        None => Ok(Some(Outcome::NoRow)),
        Some(found) => {
            if !found.present {
                return Ok(Some(Outcome::NoRow));
            }
            let end = remove_row(&place, found, state)?;
            Ok(end)
        }
    }
}

/// The elements of a list parameter.
pub fn items_of(setting: &Setting<'_>, number: u16) -> Result<List<Val>, NoMemory>
    ensures { IfOk result (λ items. items ≡ items_of (slice_get (setting_of setting.now).arguments number)) }
{
    match setting.args.get(number as usize) {
        Some(Arg::Ints(numbers)) => integers(setting.alloc, numbers.items()),
        Some(Arg::Int(_)) | Some(Arg::Text(_)) | None => Ok(List::new(setting.alloc)),
    }
}

fn integers(alloc: Global, numbers: &[i64]) -> Result<List<Val>, NoMemory>
    ensures { IfOk result (λ items. items ≡ map (λ n. Int n) numbers.now) }
{
    let mut items = List::new(alloc);
    for number in numbers {
        items.push(Val::Int(*number))?;
    }
    Ok(items)
}

/// The number of the unit of the loop over a variable.
pub fn loop_unit(setting: &Setting<'_>, var: u16) -> u16
    ensures { result ≡ unit_of (setting_of setting.now).loops var }
{
    let loops = setting.loops;
    unit_of(loops, var)
}
