ghost use Rattle.std.specs.Prelude.{◌≡◌, OnOk, slice_get};
ghost use Rattle.sv_app.specs.Paths.{Leads as LeadsOn, command_path, after_loop as loop_path};
ghost use Rattle.sv_app.specs.Trees.{term_of, terms_of, sets_of, block_of, Declare, Fetch, Insert, Fresh, Update, Remove, Reply};
ghost use Rattle.sv_symbolic.specs.declared.states.Flow.TheVariants.{On};
ghost use Rattle.sv_symbolic.specs.Routes.{Leads, after_loop, draw_command};
ghost use Rattle.sv_linear.specs.Codes.{writes_of};
ghost use Rattle.sv_symbolic.specs.States.{names_for, schema_for, way_of, sketch_of, syms_of, draw_fresh, draw_update, draw_remove, RoutesFrom};

use crate::loops::{known_after, put_assigned};
use crate::settings::Setting;
use crate::states::State;
use crate::tables::table_at;
use crate::values::{value, values};
use crate::writes::{first_writes, in_order, insert_writes, set_writes};
use sv_app::{Act, Expr, Ident, Stmt, Ty};
use sv_linear::{SymEffect, SymVal, SymWrite};
use sv_value::{List, NoMemory};

/// Gives a variable the form of an expression.
pub fn walk_let(
    setting: &Setting<'_>,
    var: Ident,
    expr: &Expr,
    state: &mut State<'_>,
) -> Result<(), NoMemory>
    ensures way { OnOk result (command_path (schema_for setting.now) (names_for setting.now) (Declare var (term_of expr.now)) (way_of state.old) ≡ LeadsOn (way_of state.new)) }
    ensures told { OnOk result (RoutesFrom state.old state.new
        (draw_command (schema_for setting.now) (names_for setting.now) (Declare var (term_of expr.now)) (sketch_of state.old)) On) }
{
    let val = value(setting, 0, expr, state)?;
    state.set_form(var.num, val)
}

/// Evaluates a reply.
pub fn walk_reply(setting: &Setting<'_>, expr: &Expr, state: &mut State<'_>) -> Result<(), NoMemory>
    ensures way { OnOk result (command_path (schema_for setting.now) (names_for setting.now) (Reply (term_of expr.now)) (way_of state.old) ≡ LeadsOn (way_of state.new)) }
    ensures told { OnOk result (RoutesFrom state.old state.new
        (draw_command (schema_for setting.now) (names_for setting.now) (Reply (term_of expr.now)) (sketch_of state.old)) On) }
{
    value(setting, 0, expr, state)?;
    Ok(())
}

/// Reads a row: only its key is evaluated.
pub fn walk_get(
    setting: &Setting<'_>,
    row: Ident,
    table: Ident,
    key: &[Expr],
    state: &mut State<'_>,
) -> Result<(), NoMemory>
    ensures way { OnOk result (command_path (schema_for setting.now) (names_for setting.now) (Fetch row table (terms_of key.now)) (way_of state.old) ≡ LeadsOn (way_of state.new)) }
    ensures told { OnOk result (RoutesFrom state.old state.new
        (draw_command (schema_for setting.now) (names_for setting.now) (Fetch row table (terms_of key.now)) (sketch_of state.old)) On) }
{
    values(setting, key, state)?;
    Ok(())
}

/// Passes a loop, which gives the variables that its body assigns new sources.
pub fn walk_loop(
    setting: &Setting<'_>,
    body: &[Stmt],
    state: &mut State<'_>,
) -> Result<(), NoMemory>
    ensures way { OnOk result (loop_path (block_of body.now) (way_of state.old) ≡ LeadsOn (way_of state.new)) }
    ensures told { OnOk result (RoutesFrom state.old state.new (after_loop (block_of body.now) (sketch_of state.old)) On) }
{
    let mut assigned = List::new(setting.alloc);
    put_assigned(&mut assigned, body)?;
    state.known = known_after(setting.alloc, assigned.items(), state.known.items())?;
    Ok(())
}

/// Inserts a row.
#[tactic(auto, using(crate::proofs::ToldLaws::walking))]
pub fn walk_insert(
    setting: &Setting<'_>,
    table: Ident,
    exprs: &[Expr],
    state: &mut State<'_>,
) -> Result<(), NoMemory>
    ensures way { OnOk result (command_path (schema_for setting.now) (names_for setting.now) (Insert table (terms_of exprs.now)) (way_of state.old) ≡ LeadsOn (way_of state.new)) }
    ensures told { OnOk result (RoutesFrom state.old state.new
        (draw_command (schema_for setting.now) (names_for setting.now) (Insert table (terms_of exprs.now)) (sketch_of state.old)) On) }
{
    let vals = values(setting, exprs, state)?;
    let Some(declared) = table_at(setting, table.num) else {
        return Ok(());
    };
    let columns = declared.columns.as_slice();
    let writes = insert_writes(setting.alloc, declared, vals.items(), 0, columns, state)?;
    state.put_effect(SymEffect {
        table: table.num,
        act: Act::Insert,
        writes,
    })?;
    Ok(())
}

/// The effect of an insert under a drawn key.
fn put_fresh(
    setting: &Setting<'_>,
    table: Ident,
    vals: &[SymVal],
    state: &mut State<'_>,
) -> Result<(), NoMemory>
    ensures put { OnOk result (Leads (sketch_of state.new) ≡ draw_fresh table.num (slice_get (schema_for setting.now) table.num) (syms_of vals.now) (sketch_of state.old)) }
    ensures way { OnOk result (way_of state.new ≡ way_of state.old) }
    ensures same { OnOk result (state.new.exact ≡ state.old.exact) }
{
    let Some(declared) = table_at(setting, table.num) else {
        return Ok(());
    };
    let columns = declared.columns.as_slice();
    let writes = first_writes(setting.alloc, declared, 0, columns, vals)?;
    state.put_effect(SymEffect {
        table: table.num,
        act: Act::Fresh,
        writes,
    })
}

/// Inserts a row under a drawn key, which is a symbol of its own, and gives the key to a variable.
pub fn walk_fresh(
    setting: &Setting<'_>,
    var: Ident,
    table: Ident,
    exprs: &[Expr],
    state: &mut State<'_>,
) -> Result<(), NoMemory>
    ensures way { OnOk result (command_path (schema_for setting.now) (names_for setting.now) (Fresh var table (terms_of exprs.now)) (way_of state.old) ≡ LeadsOn (way_of state.new)) }
    ensures told { OnOk result (RoutesFrom state.old state.new
        (draw_command (schema_for setting.now) (names_for setting.now) (Fresh var table (terms_of exprs.now)) (sketch_of state.old)) On) }
{
    let vals = values(setting, exprs, state)?;
    let key = state.draw_symbol(setting.alloc, Ty::Int)?;
    put_fresh(setting, table, vals.items(), state)?;
    state.set_form(var.num, key)?;
    Ok(())
}

/// The effect of an update with these writes.
fn put_update(
    setting: &Setting<'_>,
    table: Ident,
    writes: &[(u16, SymWrite)],
    state: &mut State<'_>,
) -> Result<(), NoMemory>
    ensures put { OnOk result (Leads (sketch_of state.new) ≡ draw_update table.num (slice_get (schema_for setting.now) table.num) (writes_of writes.now) (sketch_of state.old)) }
    ensures way { OnOk result (way_of state.new ≡ way_of state.old) }
    ensures same { OnOk result (state.new.exact ≡ state.old.exact) }
{
    let Some(declared) = table_at(setting, table.num) else {
        return Ok(());
    };
    let columns = declared.columns.as_slice();
    let writes = in_order(setting.alloc, declared, 0, columns, writes)?;
    state.put_effect(SymEffect {
        table: table.num,
        act: Act::Update,
        writes,
    })
}

/// Updates a row.
pub fn walk_update(
    setting: &Setting<'_>,
    table: Ident,
    key: &[Expr],
    sets: &[(Ident, Expr)],
    state: &mut State<'_>,
) -> Result<(), NoMemory>
    ensures way { OnOk result (command_path (schema_for setting.now) (names_for setting.now) (Update table (terms_of key.now) (sets_of sets.now)) (way_of state.old) ≡ LeadsOn (way_of state.new)) }
    ensures told { OnOk result (RoutesFrom state.old state.new
        (draw_command (schema_for setting.now) (names_for setting.now) (Update table (terms_of key.now) (sets_of sets.now)) (sketch_of state.old)) On) }
{
    values(setting, key, state)?;
    state.forget(setting.alloc);
    let writes = set_writes(setting, table.num, sets, state)?;
    state.forget(setting.alloc);
    put_update(setting, table, writes.items(), state)?;
    Ok(())
}

/// The effect of a remove.
fn put_remove(setting: &Setting<'_>, table: Ident, state: &mut State<'_>) -> Result<(), NoMemory>
    ensures put { OnOk result (Leads (sketch_of state.new) ≡ draw_remove table.num (slice_get (schema_for setting.now) table.num) (sketch_of state.old)) }
    ensures way { OnOk result (way_of state.new ≡ way_of state.old) }
    ensures same { OnOk result (state.new.exact ≡ state.old.exact) }
{
    if table_at(setting, table.num).is_none() {
        return Ok(());
    }
    state.put_effect(SymEffect {
        table: table.num,
        act: Act::Remove,
        writes: List::new(setting.alloc),
    })
}

/// Removes a row.
pub fn walk_remove(
    setting: &Setting<'_>,
    table: Ident,
    key: &[Expr],
    state: &mut State<'_>,
) -> Result<(), NoMemory>
    ensures way { OnOk result (command_path (schema_for setting.now) (names_for setting.now) (Remove table (terms_of key.now)) (way_of state.old) ≡ LeadsOn (way_of state.new)) }
    ensures told { OnOk result (RoutesFrom state.old state.new
        (draw_command (schema_for setting.now) (names_for setting.now) (Remove table (terms_of key.now)) (sketch_of state.old)) On) }
{
    values(setting, key, state)?;
    put_remove(setting, table, state)
}
