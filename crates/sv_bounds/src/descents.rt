ghost use Rattle.std.specs.Prelude.{◌≡◌, ℕ, ◌+◌, ◌-◌, ◌<◌, ◌≤◌, length, All, IfOk};
ghost use Rattle.sv_bounds.specs.Differences.{IsRow};
ghost use Rattle.sv_bounds.specs.Rounds.{lists, AreRounds};
ghost use Rattle.sv_bounds.specs.Walks.{IsDescent, Descends};

use crate::rounds::Cell;
use crate::systems::Diff;
use crate::walks::cell_at;
use std::alloc::Global;
use sv_value::NoMemory;

/// From round `r + 1` down to round `r`: to the variable that lowered `x`, if one did.
fn descend(
    rows: &[Diff],
    vars: usize,
    rounds: &[Vec<Cell>],
    r: usize,
    chain: &mut Vec<u32>,
    x: usize,
) -> Result<usize, NoMemory>
    requires rows { All (IsRow vars) rows.now }
    requires rounds { AreRounds rows.now vars (lists rounds.now) }
    requires r { r + 1 < length rounds.now }
    requires x { x < vars }
    ensures { (from : ℕ) → IsDescent rows.now vars (lists rounds.now) (length rounds.now - 1) from (r + 1) chain.old.items x
        → IfOk result (λ z. IsDescent rows.now vars (lists rounds.now) (length rounds.now - 1) from r chain.new.items z) }
{
    let cell = cell_at(rounds, r + 1, x);
    if cell.value < cell_at(rounds, r, x).value {
        chain.push(cell.by)?;
        return Ok(rows[cell.by as usize].y as usize);
    }
    Ok(x)
}

/// The rows that lead from a variable of the last round down to one of the first.
pub fn chain_of(
    alloc: Global,
    rows: &[Diff],
    vars: usize,
    rounds: &[Vec<Cell>],
    from: usize,
) -> Result<Vec<u32>, NoMemory>
    requires rows { All (IsRow vars) rows.now }
    requires rounds { AreRounds rows.now vars (lists rounds.now) }
    requires some { 1 ≤ length rounds.now }
    requires from { from < vars }
    ensures { IfOk result (λ chain. Descends rows.now vars (lists rounds.now) (length rounds.now - 1) from chain.items) }
{
    let mut chain = Vec::new(alloc);
    let mut x = from;
    let mut r = rounds.len() - 1;
    while r > 0 {
        r -= 1;
        x = descend(rows, vars, rounds, r, &mut chain, x)?;
    }
    Ok(chain)
}
