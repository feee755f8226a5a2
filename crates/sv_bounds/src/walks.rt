ghost use Rattle.std.specs.Prelude.{◌≡◌, ℕ, ◌+◌, ◌-◌, ◌<◌, ◌≤◌, length, drop, get_or, replicate, All, IfOk, Some, None, pos};
ghost use Rattle.sv_bounds.specs.Differences.{IsRow, IsCycle};
ghost use Rattle.sv_bounds.specs.Rounds.{cell_of, Fell, lists, round_at, AreRounds};

use crate::rounds::Cell;
use crate::systems::Diff;
use std::alloc::Global;
use sv_value::NoMemory;

/// The cell of a variable in round `r`.
pub fn cell_at(rounds: &[Vec<Cell>], r: usize, x: usize) -> Cell
    requires r { r < length rounds.now }
    requires x { x < length (round_at (lists rounds.now) r) }
    ensures { result ≡ cell_of (round_at (lists rounds.now) r) x }
{
    rounds[r][x]
}

/// No variable is marked.
fn unmarked(alloc: Global, vars: usize) -> Result<Vec<Option<usize>>, NoMemory>
    ensures { IfOk result (λ seen. seen.items ≡ replicate vars None) }
{
    Ok(Vec::from_elem(alloc, None, vars)?)
}

/// How long the chain was where the walk passed the variable, if it did.
fn mark_at(seen: &[Option<usize>], x: usize) -> Option<usize>
    requires { x < length seen.now }
    ensures { result ≡ get_or seen.now x None }
{
    seen[x]
}

/// The rows behind the first `from`.
fn behind(alloc: Global, chain: &[u32], from: usize) -> Result<Vec<u32>, NoMemory>
    requires { from ≤ length chain.now }
    ensures { IfOk result (λ rest. rest.items ≡ drop from chain.now) }
{
    Ok(Vec::from_slice(alloc, &chain[from..])?)
}

/// Walks down the rounds from a variable that fell in the last one, each time to the variable that lowered it,
/// until one comes again: the rows since then form a cycle.
pub fn cycle(
    alloc: Global,
    rows: &[Diff],
    vars: usize,
    rounds: &[Vec<Cell>],
    from: usize,
) -> Result<Vec<u32>, NoMemory>
    requires rows { All (IsRow vars) rows.now }
    requires rounds { AreRounds rows.now vars (lists rounds.now) }
    requires count { length rounds.now ≡ vars + 1 }
    requires inside { from < vars }
    requires fell { (k : ℕ) → k + 1 ≡ vars → Fell (round_at (lists rounds.now) k) (round_at (lists rounds.now) vars) from }
    ensures { IfOk result (λ chain. IsCycle rows.now chain.items) }
{
    let mut seen = unmarked(alloc, vars)?;
    let mut chain = Vec::new(alloc);
    let mut x = from;
    let mut r = vars;
    'down: loop {
        match mark_at(&seen, x) {
            Some(passed) => {
                let rest = behind(alloc, &chain, passed)?;
                return Ok(rest);
            }
            None => {}
        }
        let by = cell_at(rounds, r, x).by;
        seen[x] = Some(chain.len());
        chain.push(by)?;
        x = rows[by as usize].y as usize;
        r -= 1;
    }
}
