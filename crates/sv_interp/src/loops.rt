ghost use Rattle.std.specs.Prelude.{◌≡◌, ◌<◌, ◌≤◌, ◌+◌, ◌++◌, not, length, IfOk, OnOk, map};
ghost use Rattle.std.specs.List.{filter};
ghost use Rattle.sv_app.specs.Symbols.{is_one_of, known_after, block_assigns, command_assigns};
ghost use Rattle.sv_app.specs.Trees.{block_of, command_of};
ghost use Rattle.sv_app.specs.Units.{unit_of, block_loops, command_loops};
ghost use Rattle.sv_interp.specs.Machine.{Splits};

use crate::scopes::is_among;
use std::alloc::Global;
use sv_app::{Parts, Source, Stmt, parts_of};
use sv_effect::prepend;
use sv_value::{List, NoMemory};

/// The first statement and the others.
pub fn split(stmts: &[Stmt]) -> Option<(&Stmt, &[Stmt])>
    ensures { Splits (block_of stmts.now) result }
{
    stmts.split_first()
}

/// The number of the unit of the loop over a variable.
pub fn unit_of(loops: &[u16], var: u16) -> u16
    requires { length loops.now < 65535 }
    ensures unit { result ≡ unit_of loops.now var }
    ensures bounded { result ≤ length loops.now + 1 }
{
    match loops {
        [] => 1,
        [first, rest @ ..] => {
            if *first == var {
                1
            } else {
                unit_of(rest, var) + 1
            }
        }
    }
}

fn is_one_of(vars: &[u16], source: &Source) -> bool
    ensures { result ≡ is_one_of vars.now source.now }
{
    match source {
        Source::Variable(var) => is_among(*var, vars),
        Source::Column { .. } => false,
    }
}

/// The sources that are still known after a loop that assigns these variables.
pub fn known_after(alloc: Global, vars: &[u16], known: &[Source]) -> Result<List<Source>, NoMemory>
    ensures { IfOk result (λ left. left ≡ known_after vars.now known.now) }
{
    match known.split_first() {
        None => Ok(List::new(alloc)),
        Some((first, rest)) => {
            let left = known_after(alloc, vars, rest)?;
            if is_one_of(vars, first) {
                Ok(left)
            } else {
                prepend(*first, left)
            }
        }
    }
}

/// Appends the variables to which statements assign.
#[cycle(assigning)]
#[tactic(auto, using(crate::proofs::NeedLaws::putting))]
pub fn put_assigned(vars: &mut List<u16>, stmts: &[Stmt]) -> Result<(), NoMemory>
    ensures { OnOk result (vars.new ≡ vars.old ++ block_assigns (block_of stmts.now)) }
{
    match split(stmts) {
        None => Ok(()),
        Some((first, rest)) => {
            put_assigned_by(vars, first)?;
            put_assigned(vars, rest)?;
            Ok(())
        }
    }
}

#[cycle(assigning)]
#[tactic(auto, using(crate::proofs::NeedLaws::putting))]
fn put_assigned_by(vars: &mut List<u16>, stmt: &Stmt) -> Result<(), NoMemory>
    ensures { OnOk result (vars.new ≡ vars.old ++ command_assigns (command_of stmt.now)) }
{
    match parts_of(stmt) {
        Parts::Assign { var, .. } => {
            vars.push(var.num)?;
            Ok(())
        }
        Parts::If { yes, no, .. } => {
            put_assigned(vars, yes)?;
            put_assigned(vars, no)?;
            Ok(())
        }
        Parts::Rows { body, .. } => {
            put_assigned(vars, body)?;
            Ok(())
        }
        Parts::Each { body, .. } => {
            put_assigned(vars, body)?;
            Ok(())
        }
        Parts::Let { .. } | Parts::Get { .. } => Ok(()),
        Parts::Insert { .. } | Parts::Fresh { .. } => Ok(()),
        Parts::Update { .. } | Parts::Remove { .. } => Ok(()),
        Parts::Abort { .. } | Parts::Reply(_) => Ok(()),
    }
}

/// Appends the variables of the loops, in the order of the text.
#[cycle(looping)]
#[tactic(auto, using(crate::proofs::LoopLaws::looping))]
pub fn put_loops(vars: &mut Vec<u16>, stmts: &[Stmt]) -> Result<(), NoMemory>
    ensures { OnOk result (vars.new.items ≡ vars.old.items ++ map (λ l. l.variable) (block_loops (block_of stmts.now))) }
{
    match split(stmts) {
        None => Ok(()),
        Some((first, rest)) => {
            put_loops_of(vars, first)?;
            put_loops(vars, rest)?;
            Ok(())
        }
    }
}

#[cycle(looping)]
#[tactic(auto, using(crate::proofs::LoopLaws::looping))]
fn put_loops_of(vars: &mut Vec<u16>, stmt: &Stmt) -> Result<(), NoMemory>
    ensures { OnOk result (vars.new.items ≡ vars.old.items ++ map (λ l. l.variable) (command_loops (command_of stmt.now))) }
{
    match parts_of(stmt) {
        Parts::If { yes, no, .. } => {
            put_loops(vars, yes)?;
            put_loops(vars, no)?;
            Ok(())
        }
        Parts::Rows { row, body, .. } => {
            vars.push(row.num)?;
            put_loops(vars, body)?;
            Ok(())
        }
        Parts::Each { var, body, .. } => {
            vars.push(var.num)?;
            put_loops(vars, body)?;
            Ok(())
        }
        Parts::Let { .. } | Parts::Assign { .. } | Parts::Get { .. } => Ok(()),
        Parts::Insert { .. } | Parts::Fresh { .. } => Ok(()),
        Parts::Update { .. } | Parts::Remove { .. } => Ok(()),
        Parts::Abort { .. } | Parts::Reply(_) => Ok(()),
    }
}
