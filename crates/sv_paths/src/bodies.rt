ghost use Rattle.std.specs.Prelude.{◌≡◌, ◌≤◌, ◌++◌, length, map, IfOk, OnOk};
ghost use Rattle.sv_app.specs.Trees.{block_of, command_of};
ghost use Rattle.sv_app.specs.Units.{block_loops, command_loops};
ghost use Rattle.sv_paths.specs.Listing.{Splits};
ghost use Rattle.sv_paths.specs.Numbered.{bodies_in, loop_bodies, numbered_from, part_of, said};

use std::alloc::Global;
use sv_app::{App, Parts, Stmt, parts_of};
use sv_value::NoMemory;

/// A unit of a transaction: its body outside loops, number 0, or the body of the loop with that number, from 1 in the
/// order of the text.
#[derive(Clone, Copy, Debug)]
pub struct Unit<'a> {
    /// The number of its transaction.
    pub txn: u16,
    pub number: u16,
    pub body: &'a [Stmt],
}

/// The first statement and the others.
pub fn split(stmts: &[Stmt]) -> Option<(&Stmt, &[Stmt])>
    ensures { Splits (block_of stmts.now) result }
{
    stmts.split_first()
}

/// Appends the bodies of the loops, in the order of the text.
#[cycle(looping)]
#[tactic(auto, using(crate::proofs::UnitLaws::looping))]
fn put_bodies<'a>(bodies: &mut Vec<&'a [Stmt]>, stmts: &'a [Stmt]) -> Result<(), NoMemory>
    ensures { OnOk result (said bodies.new.items
        ≡ said bodies.old.items ++ loop_bodies (block_loops (block_of stmts.now))) }
{
    match split(stmts) {
        None => Ok(()),
        Some((first, rest)) => {
            put_bodies_of(bodies, first)?;
            put_bodies(bodies, rest)?;
            Ok(())
        }
    }
}

#[cycle(looping)]
#[tactic(auto, using(crate::proofs::UnitLaws::looping))]
fn put_bodies_of<'a>(bodies: &mut Vec<&'a [Stmt]>, stmt: &'a Stmt) -> Result<(), NoMemory>
    ensures { OnOk result (said bodies.new.items
        ≡ said bodies.old.items ++ loop_bodies (command_loops (command_of stmt.now))) }
{
    match parts_of(stmt) {
        Parts::If { yes, no, .. } => {
            put_bodies(bodies, yes)?;
            put_bodies(bodies, no)?;
            Ok(())
        }
        Parts::Rows { body, .. } | Parts::Each { body, .. } => {
            bodies.push(body)?;
            put_bodies(bodies, body)?;
            Ok(())
        }
        Parts::Let { .. } | Parts::Assign { .. } | Parts::Get { .. } => Ok(()),
        Parts::Insert { .. } | Parts::Fresh { .. } => Ok(()),
        Parts::Update { .. } | Parts::Remove { .. } => Ok(()),
        Parts::Abort { .. } | Parts::Reply(_) => Ok(()),
    }
}

/// The bodies of a transaction's units, in order; none where there is no such transaction.
#[tactic(auto, using(crate::proofs::UnitLaws::whole))]
fn bodies_in<'a>(alloc: Global, app: &'a App, txn: u16) -> Result<Vec<&'a [Stmt]>, NoMemory>
    ensures { IfOk result (λ v. said v.items ≡ bodies_in app.now.txns.items txn) }
{
    let mut bodies = Vec::new(alloc);
    let at = usize::from(txn);
    if at < app.txns.len() {
        let body = app.txns[at].body.as_slice();
        bodies.push(body)?;
        put_bodies(&mut bodies, body)?;
    }
    Ok(bodies)
}

/// The units with these bodies, numbered from 0.
fn numbered<'a>(alloc: Global, txn: u16, bodies: &[&'a [Stmt]]) -> Result<Vec<Unit<'a>>, NoMemory>
    requires { length bodies.now ≤ 65536 }
    ensures { IfOk result (λ v. map part_of v.items ≡ numbered_from 0 txn (said bodies.now)) }
{
    let mut units = Vec::new(alloc);
    for body in bodies {
        let number = units.len() as u16;
        units.push(Unit { txn, number, body })?;
    }
    Ok(units)
}

/// The units of a transaction, with their numbers from 0; none where there is no such transaction. An accepted one has
/// at most 16.
pub fn units<'a>(alloc: Global, app: &'a App, txn: u16) -> Result<Vec<Unit<'a>>, NoMemory>
    requires few { length (bodies_in app.now.txns.items txn) ≤ 65536 }
    ensures { IfOk result (λ v. map part_of v.items ≡ numbered_from 0 txn (bodies_in app.now.txns.items txn)) }
{
    let bodies = bodies_in(alloc, app, txn)?;
    numbered(alloc, txn, &bodies)
}
