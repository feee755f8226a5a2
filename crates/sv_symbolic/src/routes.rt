ghost use Rattle.std.specs.Prelude.{◌≡◌, IfOk};
ghost use Rattle.sv_app.specs.Paths.{command_path, block_path};
ghost use Rattle.sv_app.specs.Trees.{command_of, block_of};
ghost use Rattle.sv_symbolic.specs.Routes.{draw_command, draw_block};
ghost use Rattle.sv_symbolic.specs.States.{names_for, schema_for, way_of, sketch_of, path_as, RoutesFrom};

use crate::settings::Setting;
use crate::statements::{
    walk_fresh, walk_get, walk_insert, walk_let, walk_loop, walk_remove, walk_reply, walk_update,
};
use crate::states::{Flow, State};
use crate::values::truth;
use sv_app::{Parts, Stmt, parts_of};
use sv_paths::split;
use sv_value::NoMemory;

/// Walks along statements.
#[cycle(walking)]
#[tactic(auto, using(crate::proofs::ToldLaws::routes))]
pub fn walk_block(
    setting: &Setting<'_>,
    stmts: &[Stmt],
    state: &mut State<'_>,
) -> Result<Flow, NoMemory>
    ensures way { IfOk result (λ flow. path_as flow (way_of state.new) ≡ block_path (schema_for setting.now) (names_for setting.now) (block_of stmts.now) (way_of state.old)) }
    ensures told { IfOk result (λ flow. RoutesFrom state.old state.new
        (draw_block (schema_for setting.now) (names_for setting.now) (block_of stmts.now) (sketch_of state.old)) flow) }
{
    match split(stmts) {
        None => Ok(Flow::On),
        Some((first, rest)) => {
            let flow = walk_command(setting, first, state)?;
            match flow {
                Flow::On => walk_block(setting, rest, state),
                Flow::Aborted => Ok(Flow::Aborted),
                Flow::Short => Ok(Flow::Short),
            }
        }
    }
}

/// Walks along a statement.
#[cycle(walking)]
#[tactic(auto, using(crate::proofs::ToldLaws::routes))]
fn walk_command(setting: &Setting<'_>, stmt: &Stmt, state: &mut State<'_>) -> Result<Flow, NoMemory>
    ensures way { IfOk result (λ flow. path_as flow (way_of state.new) ≡ command_path (schema_for setting.now) (names_for setting.now) (command_of stmt.now) (way_of state.old)) }
    ensures told { IfOk result (λ flow. RoutesFrom state.old state.new
        (draw_command (schema_for setting.now) (names_for setting.now) (command_of stmt.now) (sketch_of state.old)) flow) }
{
    match parts_of(stmt) {
        Parts::Let { var, value } => {
            walk_let(setting, var, value, state)?;
            Ok(Flow::On)
        }
        Parts::Assign { var, value } => {
            walk_let(setting, var, value, state)?;
            Ok(Flow::On)
        }
        Parts::Get { row, table, key } => {
            walk_get(setting, row, table, key, state)?;
            Ok(Flow::On)
        }
        Parts::If { cond, yes, no } => {
            let Some(holds) = truth(setting, cond, state)? else {
                return Ok(Flow::Short);
            };
            if holds {
                walk_block(setting, yes, state)
            } else {
                walk_block(setting, no, state)
            }
        }
        Parts::Rows { body, .. } => {
            walk_loop(setting, body, state)?;
            Ok(Flow::On)
        }
        Parts::Each { body, .. } => {
            walk_loop(setting, body, state)?;
            Ok(Flow::On)
        }
        Parts::Insert { table, values } => {
            walk_insert(setting, table, values, state)?;
            Ok(Flow::On)
        }
        Parts::Fresh { var, table, values } => {
            walk_fresh(setting, var, table, values, state)?;
            Ok(Flow::On)
        }
        Parts::Update { table, key, sets } => {
            walk_update(setting, table, key, sets, state)?;
            Ok(Flow::On)
        }
        Parts::Remove { table, key } => {
            walk_remove(setting, table, key, state)?;
            Ok(Flow::On)
        }
        Parts::Abort { .. } => Ok(Flow::Aborted),
        Parts::Reply(value) => {
            walk_reply(setting, value, state)?;
            Ok(Flow::On)
        }
    }
}
