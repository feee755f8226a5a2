ghost use Rattle.std.specs.Prelude.{◌≡◌, ◌++◌, map, IfOk, OnOk};
ghost use Rattle.sv_app.specs.Trees.{test_of};
ghost use Rattle.sv_paths.specs.Listing.{both_sides, taking, test_paths, IsFew, Lists, PassesLimit};

use crate::answers::{MOST_PATHS, Path};
use std::alloc::Global;
use sv_app::Cond;
use sv_value::{List, NoMemory};

/// The path with a choice before its own.
fn taking(alloc: Global, choice: bool, path: &Path) -> Result<Path, NoMemory>
    ensures { IfOk result (λ longer. longer ≡ taking choice path.now) }
{
    let mut choices = Vec::new(alloc);
    choices.push(choice)?;
    choices.extend_from_slice(path.choices.items())?;
    Ok(Path {
        choices: List::from_vec(choices),
        aborts: path.aborts,
    })
}

/// Appends the paths with a choice before their own.
fn put_side(alloc: Global, out: &mut Vec<Path>, choice: bool, side: &[Path]) -> Result<(), NoMemory>
    ensures { OnOk result (out.new.items ≡ out.old.items ++ map (taking choice) side.now) }
{
    for path in side {
        out.push(taking(alloc, choice, path)?)?;
    }
    Ok(())
}

/// The paths behind a comparison; `None` if they are too many.
fn both_sides(alloc: Global, yes: &[Path], no: &[Path]) -> Result<Option<Vec<Path>>, NoMemory>
    ensures some { IfOk result (Lists (both_sides yes.now no.now)) }
    ensures few { IfOk result IsFew }
    ensures none { IfOk result (PassesLimit (both_sides yes.now no.now)) }
{
    if no.len() > MOST_PATHS || yes.len() > MOST_PATHS - no.len() {
        return Ok(None);
    }
    let mut out = Vec::new(alloc);
    put_side(alloc, &mut out, false, no)?;
    put_side(alloc, &mut out, true, yes)?;
    Ok(Some(out))
}

/// The paths behind a condition, which go on by `yes` where it is true and by `no` where it is false; `None` if they
/// are too many.
#[tactic(auto, using(crate::proofs::CountLaws::counts))]
pub fn test_paths(
    alloc: Global,
    cond: &Cond,
    yes: &[Path],
    no: &[Path],
) -> Result<Option<Vec<Path>>, NoMemory>
    ensures some { IfOk result (Lists (test_paths (test_of cond.now) yes.now no.now)) }
    ensures few { IfOk result IsFew }
    ensures none { IfOk result (PassesLimit (test_paths (test_of cond.now) yes.now no.now)) }
{
    match cond {
        Cond::Cmp { .. } => both_sides(alloc, yes, no),
        Cond::Not(part) => test_paths(alloc, part, no, yes),
        Cond::And(first, second) => {
            let Some(holds) = test_paths(alloc, second, yes, no)? else {
                return Ok(None);
            };
            let Some(fails) = test_paths(alloc, second, no, no)? else {
                return Ok(None);
            };
            test_paths(alloc, first, &holds, &fails)
        }
        Cond::Or(first, second) => {
            let Some(holds) = test_paths(alloc, second, yes, yes)? else {
                return Ok(None);
            };
            let Some(fails) = test_paths(alloc, second, yes, no)? else {
                return Ok(None);
            };
            test_paths(alloc, first, &holds, &fails)
        }
    }
}
