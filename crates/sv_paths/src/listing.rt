ghost use Rattle.std.specs.Prelude.{◌≡◌, ◌≤◌, ◌∷◌, [], length, IfOk, IfErr, vec_len, All};
ghost use Rattle.sv_app.specs.Trees.{block_of, command_of};
ghost use Rattle.sv_paths.specs.Listing.{block_goes_on, block_paths, command_goes_on, command_paths, without_choice};
ghost use Rattle.sv_paths.specs.Listing.{IsFew, Lists, PassesLimit};
ghost use Rattle.sv_paths.specs.Paths.{AreAllPaths, FitsLimit, IsCause, IsShort};

use crate::answers::{Path, PathStop};
use crate::bodies::{Unit, split};
use crate::tests::test_paths;
use std::alloc::Global;
use sv_app::{Parts, Stmt, parts_of};
use sv_value::{List, NoMemory};

/// The path that has no choice.
fn without_choice(alloc: Global, aborts: bool) -> Result<Vec<Path>, NoMemory>
    ensures { IfOk result (λ v. v.items ≡ without_choice aborts ∷ []) }
{
    let mut out = Vec::new(alloc);
    out.push(Path {
        choices: List::new(alloc),
        aborts,
    })?;
    Ok(out)
}

/// A copy of the path.
fn copied(alloc: Global, path: &Path) -> Result<Path, NoMemory>
    ensures { IfOk result (λ copy. copy ≡ path.now) }
{
    Ok(Path {
        choices: path.choices.copied(alloc)?,
        aborts: path.aborts,
    })
}

/// Copies of the paths.
fn copies(alloc: Global, paths: &[Path]) -> Result<Vec<Path>, NoMemory>
    ensures { IfOk result (λ v. v.items ≡ paths.now) }
{
    let mut out = Vec::new(alloc);
    for path in paths {
        out.push(copied(alloc, path)?)?;
    }
    Ok(out)
}

/// Whether some path of the statements doesn't abort.
#[cycle(going)]
fn block_goes_on(stmts: &[Stmt]) -> bool
    ensures { result ≡ block_goes_on (block_of stmts.now) }
{
    match split(stmts) {
        None => true,
        Some((first, rest)) => command_goes_on(first) && block_goes_on(rest),
    }
}

/// Whether some path of the statement doesn't abort.
#[cycle(going)]
fn command_goes_on(stmt: &Stmt) -> bool
    ensures { result ≡ command_goes_on (command_of stmt.now) }
{
    match parts_of(stmt) {
        Parts::If { yes, no, .. } => block_goes_on(yes) || block_goes_on(no),
        Parts::Abort { .. } => false,
        Parts::Let { .. } | Parts::Assign { .. } | Parts::Get { .. } => true,
        Parts::Rows { .. } | Parts::Each { .. } => true,
        Parts::Insert { .. } | Parts::Fresh { .. } => true,
        Parts::Update { .. } | Parts::Remove { .. } => true,
        Parts::Reply(_) => true,
    }
}

/// The paths of statements, behind which stand those of the rest; `None` if they are too many.
#[cycle(listing)]
#[tactic(auto, using(crate::proofs::CountLaws::counts))]
fn block_paths(alloc: Global, stmts: &[Stmt], rest: &[Path]) -> Result<Option<Vec<Path>>, NoMemory>
    requires { length rest.now ≤ 1024 }
    ensures some { IfOk result (Lists (block_paths (block_of stmts.now) rest.now)) }
    ensures few { IfOk result IsFew }
    ensures none { IfOk result (PassesLimit (block_paths (block_of stmts.now) rest.now)) }
{
    match split(stmts) {
        None => Ok(Some(copies(alloc, rest)?)),
        Some((first, others)) => {
            if command_goes_on(first) {
                let Some(behind) = block_paths(alloc, others, rest)? else {
                    return Ok(None);
                };
                command_paths(alloc, first, behind)
            } else {
                command_paths(alloc, first, Vec::new(alloc))
            }
        }
    }
}

/// The paths of a statement, behind which stand those of the rest; `None` if they are too many.
#[cycle(listing)]
#[tactic(auto, using(crate::proofs::CountLaws::counts))]
fn command_paths(alloc: Global, stmt: &Stmt, rest: Vec<Path>) -> Result<Option<Vec<Path>>, NoMemory>
    requires { vec_len rest ≤ 1024 }
    ensures some { IfOk result (Lists (command_paths (command_of stmt.now) rest.items)) }
    ensures few { IfOk result IsFew }
    ensures none { IfOk result (PassesLimit (command_paths (command_of stmt.now) rest.items)) }
{
    match parts_of(stmt) {
        Parts::If { cond, yes, no } => {
            let Some(yes) = block_paths(alloc, yes, &rest)? else {
                return Ok(None);
            };
            let Some(no) = block_paths(alloc, no, &rest)? else {
                return Ok(None);
            };
            test_paths(alloc, cond, &yes, &no)
        }
        Parts::Abort { .. } => Ok(Some(without_choice(alloc, true)?)),
        Parts::Let { .. } | Parts::Assign { .. } | Parts::Get { .. } => Ok(Some(rest)),
        Parts::Rows { .. } | Parts::Each { .. } => Ok(Some(rest)),
        Parts::Insert { .. } | Parts::Fresh { .. } => Ok(Some(rest)),
        Parts::Update { .. } | Parts::Remove { .. } => Ok(Some(rest)),
        Parts::Reply(_) => Ok(Some(rest)),
    }
}

/// All paths of a unit, each once, in the order of their choices: false before true, and a list before its extensions.
/// A path has at most 1,023 choices. The answer is `Many`, with `count` 1,025, exactly where there are more than
/// `MOST_PATHS` paths.
#[tactic(auto, using(crate::proofs::OrderLaws::answers))]
pub fn paths(alloc: Global, unit: &Unit<'_>) -> Result<Vec<Path>, PathStop>
    ensures all { IfOk result (λ paths. AreAllPaths (block_of unit.now.body.now) paths.items) }
    ensures few { IfOk result (λ paths. vec_len paths ≤ 1024) }
    ensures fits { IfOk result (λ paths. FitsLimit (block_of unit.now.body.now)) }
    ensures short { IfOk result (λ paths. All IsShort paths.items) }
    ensures stops { IfErr result (IsCause (block_of unit.now.body.now)) }
{
    let end = without_choice(alloc, false)?;
    match block_paths(alloc, unit.body, &end)? {
        Some(paths) => Ok(paths),
        None => Err(PathStop::Many { count: 1025 }),
    }
}
