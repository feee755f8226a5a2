ghost use Rattle.std.specs.Prelude.{◌≡◌, ℕ, ◌+◌, ◌^◌, ◌<◌, ◌≤◌, length, All, IfOk, MatchOption};
ghost use Rattle.sv_bounds.specs.Differences.{IsRow, Within};
ghost use Rattle.sv_bounds.specs.Rounds.{value, IsNext, Fell, Stays};

use crate::systems::Diff;
use std::alloc::Global;
use sv_value::NoMemory;

/// A variable in one round: its value, and the number of the row that lowered it last, if one did.
#[derive(Clone, Copy, Debug)]
pub struct Cell {
    pub value: i128,
    pub by: u32,
}

/// Lowers the first variable of row `i` in `new`, if the old values ask for it.
fn lower(rows: &[Diff], i: usize, old: &[Cell], new: &mut [Cell])
    requires rows { All (IsRow (length old.now)) rows.now }
    requires many { length rows.now ≤ 4096 }
    requires row { i < length rows.now }
    requires values { (x : ℕ) → Within (2 ^ 101) (value old.now x) }
    requires next { IsNext rows.now i old.now new.old }
    ensures { IsNext rows.now (i + 1) old.now new.new }
{
    let row = rows[i];
    let value = old[row.y as usize].value + row.most;
    if value < new[row.x as usize].value {
        new[row.x as usize] = Cell {
            value,
            by: i as u32,
        };
    }
}

/// The round after `old`, in which each row was looked at once, by the old values.
pub fn next_round(alloc: Global, rows: &[Diff], old: &[Cell]) -> Result<Vec<Cell>, NoMemory>
    requires rows { All (IsRow (length old.now)) rows.now }
    requires many { length rows.now ≤ 4096 }
    requires values { (x : ℕ) → Within (2 ^ 101) (value old.now x) }
    ensures { IfOk result (λ new. IsNext rows.now (length rows.now) old.now new.items) }
{
    let mut new = Vec::from_slice(alloc, old)?;
    for i in 0..rows.len() {
        lower(rows, i, old, &mut new);
    }
    Ok(new)
}

/// The first variable that is lower in `new`, if there is one.
pub fn fallen(old: &[Cell], new: &[Cell]) -> Option<usize>
    requires { length new.now ≡ length old.now }
    ensures { MatchOption result (Stays old.now new.now) (λ x. (x < length old.now) × Fell old.now new.now x) }
{
    for x in 0..old.len() {
        if new[x].value < old[x].value {
            return Some(x);
        }
    }
    None
}
