ghost use Rattle.std.specs.Prelude.{◌≡◌, ◌++◌, IfOk, OnOk};
ghost use Rattle.sv_app.specs.Symbols.{is_one_of, known_after, block_assigns, command_assigns};
ghost use Rattle.sv_app.specs.Trees.{block_of, command_of};

use crate::states::is_among;
use std::alloc::Global;
use sv_app::{Parts, Source, Stmt, parts_of};
use sv_effect::prepend;
use sv_paths::split;
use sv_value::{List, NoMemory};

fn is_one_of(vars: &[u16], source: &Source) -> bool
    ensures { result ≡ is_one_of vars.now source.now }
{
    match source {
        Source::Variable(var) => is_among(*var, vars),
        Source::Column { .. } => false,
    }
}

/// The sources that are still known after a loop that assigns these variables.
pub fn known_after(alloc: Global, vars: &[u16], known: &[Source]) -> Result<List<Source>, NoMemory>
    ensures { IfOk result (λ left. left ≡ known_after vars.now known.now) }
{
    match known.split_first() {
        None => Ok(List::new(alloc)),
        Some((first, rest)) => {
            let left = known_after(alloc, vars, rest)?;
            if is_one_of(vars, first) {
                Ok(left)
            } else {
                prepend(*first, left)
            }
        }
    }
}

/// Appends the variables to which statements assign.
#[cycle(assigning)]
#[tactic(auto, using(crate::proofs::LoopLaws::putting))]
pub fn put_assigned(vars: &mut List<u16>, stmts: &[Stmt]) -> Result<(), NoMemory>
    ensures { OnOk result (vars.new ≡ vars.old ++ block_assigns (block_of stmts.now)) }
{
    match split(stmts) {
        None => Ok(()),
        Some((first, rest)) => {
            put_assigned_by(vars, first)?;
            put_assigned(vars, rest)?;
            Ok(())
        }
    }
}

#[cycle(assigning)]
#[tactic(auto, using(crate::proofs::LoopLaws::putting))]
fn put_assigned_by(vars: &mut List<u16>, stmt: &Stmt) -> Result<(), NoMemory>
    ensures { OnOk result (vars.new ≡ vars.old ++ command_assigns (command_of stmt.now)) }
{
    match parts_of(stmt) {
        Parts::Assign { var, .. } => {
            vars.push(var.num)?;
            Ok(())
        }
        Parts::If { yes, no, .. } => {
            put_assigned(vars, yes)?;
            put_assigned(vars, no)?;
            Ok(())
        }
        Parts::Rows { body, .. } => {
            put_assigned(vars, body)?;
            Ok(())
        }
        Parts::Each { body, .. } => {
            put_assigned(vars, body)?;
            Ok(())
        }
        Parts::Let { .. } | Parts::Get { .. } => Ok(()),
        Parts::Insert { .. } | Parts::Fresh { .. } => Ok(()),
        Parts::Update { .. } | Parts::Remove { .. } => Ok(()),
        Parts::Abort { .. } | Parts::Reply(_) => Ok(()),
    }
}
