ghost use Rattle.std.specs.Prelude.{◌≡◌, ◌∷◌, [], IfOk};
ghost use Rattle.sv_app.specs.Trees.{command_of, block_of};
ghost use Rattle.sv_effect.specs.Asked.{Asked};
ghost use Rattle.sv_effect.specs.Run.{run_command, run_block, turns};
ghost use Rattle.sv_interp.specs.Keeping.{Statements, Statement, Inside, Turns, Loop, Keeps};
ghost use Rattle.sv_interp.specs.Machine.{progress_of, setting_of, RunsOn, closing, looping};
ghost use Rattle.sv_interp.specs.Turning.{turn_in};

use crate::loops::split;
use crate::scopes::Progress;
use crate::settings::{Draw, Selection, Setting, Target, Turn};
use crate::statements::{
    run_fresh, run_get, run_insert, run_let, run_remove, run_reply, run_update,
};
use crate::states::State;
use crate::turns::{begin_turn, item_turns, row_turns};
use crate::values::truth;
use sv_app::{Parts, Stmt, parts_of};
use sv_effect::{Halt, Outcome, Rows};

/// Runs statements in order.
#[cycle(run)]
#[tactic(auto, using(crate::proofs::RunLaws::blocks, crate::proofs::KeepLaws::blocks))]
pub fn run_all<R: Rows>(
    setting: &Setting<'_>,
    stmts: &[Stmt],
    state: &mut State,
    rows: &mut R,
) -> Result<Option<Outcome>, Halt>
    ensures ran { IfOk result (λ end. RunsOn R.face R.noted rows.old rows.new
        (run_block (setting_of setting.now) (block_of stmts.now)) state.old end state.new) }
    ensures kept { IfOk result (λ end. Keeps (R.is_of rows.old) (setting_of setting.now)
        (Statements (block_of stmts.now)) state.old end state.new) }
    ensures asked { Asked R.stays R.face rows.old rows.new result }
{
    match split(stmts) {
        None => Ok(None),
        Some((first, rest)) => match run_one(setting, first, state, rows)? {
            None => {
                let end = run_all(setting, rest, state, rows)?;
                Ok(end)
            }
            Some(end) => Ok(Some(end)),
        },
    }
}

#[cycle(run)]
#[tactic(auto, using(crate::proofs::RunLaws::commands, crate::proofs::KeepLaws::commands))]
fn run_one<R: Rows>(
    setting: &Setting<'_>,
    stmt: &Stmt,
    state: &mut State,
    rows: &mut R,
) -> Result<Option<Outcome>, Halt>
    ensures ran { IfOk result (λ end. RunsOn R.face R.noted rows.old rows.new
        (run_command (setting_of setting.now) (command_of stmt.now)) state.old end state.new) }
    ensures kept { IfOk result (λ end. Keeps (R.is_of rows.old) (setting_of setting.now)
        (Statement (command_of stmt.now)) state.old end state.new) }
    ensures asked { Asked R.stays R.face rows.old rows.new result }
{
    match parts_of(stmt) {
        Parts::Let { var, value } => {
            let end = run_let(var, value, state)?;
            Ok(end)
        }
        Parts::Assign { var, value } => {
            let end = run_let(var, value, state)?;
            Ok(end)
        }
        Parts::Get { row, table, key } => {
            let target = Target { table, key };
            let end = run_get(setting, row, &target, state, rows)?;
            Ok(end)
        }
        Parts::If { cond, yes, no } => match truth(cond, &mut state.scope)? {
            None => Ok(Some(Outcome::Range)),
            Some(holds) => {
                if holds {
                    let end = run_all(setting, yes, state, rows)?;
                    Ok(end)
                } else {
                    let end = run_all(setting, no, state, rows)?;
                    Ok(end)
                }
            }
        },
        Parts::Rows {
            row,
            table,
            cond,
            body,
        } => {
            let selection = Selection { row, table, cond };
            let scratch = state.scope.copied(setting.alloc)?;
            match row_turns(setting, &selection, &state.own, scratch, rows)? {
                None => Ok(Some(Outcome::Range)),
                Some(turns) => {
                    let end = run_loop(setting, turns.items(), body, state, rows)?;
                    Ok(end)
                }
            }
        }
        Parts::Each { var, list, body } => {
            let turns = item_turns(setting, var, list)?;
            let end = run_loop(setting, turns.items(), body, state, rows)?;
            Ok(end)
        }
        Parts::Insert { table, values } => {
            let end = run_insert(setting, table, values, state, rows)?;
            Ok(end)
        }
        Parts::Fresh { var, table, values } => {
            let draw = Draw { var, table, values };
            let end = run_fresh(setting, &draw, state, rows)?;
            Ok(end)
        }
        Parts::Update { table, key, sets } => {
            let target = Target { table, key };
            let end = run_update(setting, &target, sets, state, rows)?;
            Ok(end)
        }
        Parts::Remove { table, key } => {
            let target = Target { table, key };
            let end = run_remove(setting, &target, state, rows)?;
            Ok(end)
        }
        Parts::Abort { code } => {
            let end = Outcome::Abort(code);
            Ok(Some(end))
        }
        Parts::Reply(value) => {
            let end = run_reply(value, state)?;
            Ok(end)
        }
    }
}

/// The block of a turn, and the end of its instance.
#[cycle(run)]
#[tactic(auto, using(crate::proofs::RunLaws::closings, crate::proofs::KeepLaws::closings))]
fn run_inside<R: Rows>(
    setting: &Setting<'_>,
    body: &[Stmt],
    outer: Progress,
    state: &mut State,
    rows: &mut R,
) -> Result<Option<Outcome>, Halt>
    ensures ran { IfOk result (λ end. RunsOn R.face R.noted rows.old rows.new
        (closing (progress_of outer) (run_block (setting_of setting.now)
        (block_of body.now))) state.old end state.new) }
    ensures kept { IfOk result (λ end. Keeps (R.is_of rows.old) (setting_of setting.now)
        (Inside (block_of body.now) (progress_of outer)) state.old end state.new) }
    ensures asked { Asked R.stays R.face rows.old rows.new result }
{
    match run_all(setting, body, state, rows)? {
        Some(end) => Ok(Some(end)),
        None => {
            state.close(outer)?;
            Ok(None)
        }
    }
}

/// One turn of a loop.
#[cycle(run)]
#[tactic(auto, using(crate::proofs::TurnLaws::entries, crate::proofs::KeepLaws::entries))]
fn run_turn<R: Rows>(
    setting: &Setting<'_>,
    turn: &Turn,
    body: &[Stmt],
    state: &mut State,
    rows: &mut R,
) -> Result<Option<Outcome>, Halt>
    ensures ran { IfOk result (λ end. RunsOn R.face R.noted rows.old rows.new
        (turn_in (setting_of setting.now) (block_of body.now) turn.now) state.old end state.new) }
    ensures kept { IfOk result (λ end. Keeps (R.is_of rows.old) (setting_of setting.now)
        (Turns (turn.now ∷ []) (block_of body.now)) state.old end state.new) }
    ensures asked { Asked R.stays R.face rows.old rows.new result }
{
    match begin_turn(setting, turn, state, rows)? {
        None => Ok(None),
        Some(outer) => {
            let end = run_inside(setting, body, outer, state, rows)?;
            Ok(end)
        }
    }
}

/// Turns of a loop, one after the other.
#[cycle(run)]
#[tactic(auto, using(crate::proofs::RunLaws::turning, crate::proofs::KeepLaws::turning))]
fn run_turns<R: Rows>(
    setting: &Setting<'_>,
    all: &[Turn],
    body: &[Stmt],
    state: &mut State,
    rows: &mut R,
) -> Result<Option<Outcome>, Halt>
    ensures ran { IfOk result (λ end. RunsOn R.face R.noted rows.old rows.new
        (turns all.now (turn_in (setting_of setting.now) (block_of body.now))) state.old end state.new) }
    ensures kept { IfOk result (λ end. Keeps (R.is_of rows.old) (setting_of setting.now)
        (Turns all.now (block_of body.now)) state.old end state.new) }
    ensures asked { Asked R.stays R.face rows.old rows.new result }
{
    for turn in all {
        match run_turn(setting, turn, body, state, rows)? {
            None => {}
            Some(end) => return Ok(Some(end)),
        }
    }
    Ok(None)
}

/// A loop: its turns, and what is known behind them.
#[cycle(run)]
#[tactic(auto, using(crate::proofs::RunLaws::loops, crate::proofs::KeepLaws::loops))]
fn run_loop<R: Rows>(
    setting: &Setting<'_>,
    all: &[Turn],
    body: &[Stmt],
    state: &mut State,
    rows: &mut R,
) -> Result<Option<Outcome>, Halt>
    ensures ran { IfOk result (λ end. RunsOn R.face R.noted rows.old rows.new
        (looping all.now (turn_in (setting_of setting.now) (block_of body.now))
        (block_of body.now)) state.old end state.new) }
    ensures kept { IfOk result (λ end. Keeps (R.is_of rows.old) (setting_of setting.now)
        (Loop all.now (block_of body.now)) state.old end state.new) }
    ensures asked { Asked R.stays R.face rows.old rows.new result }
{
    match run_turns(setting, all, body, state, rows)? {
        Some(end) => Ok(Some(end)),
        None => {
            state.leave_loop(setting.alloc, body)?;
            Ok(None)
        }
    }
}
