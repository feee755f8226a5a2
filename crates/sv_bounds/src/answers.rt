ghost use Rattle.std.specs.Prelude.{◌≡◌, ℕ, ◌+◌, ◌^◌, ◌<◌, ◌≤◌, length, IfOk};
ghost use Rattle.sv_bounds.specs.Differences.{Within};
ghost use Rattle.sv_bounds.specs.Answers.{IsSystem, IsAnswer, IsDecided, above_row, with_row};
ghost use Rattle.sv_bounds.specs.Rounds.{value};
ghost use Rattle.sv_bounds.specs.Settling.{IsShifted};

use crate::rounds::Cell;
use crate::settling::{Settled, begin, last, settle};
use crate::systems::{Answer, Diff, System};
use std::alloc::Global;
use sv_value::{List, NoMemory};

/// The values of a round, less that of variable 0.
pub fn shifted(alloc: Global, cells: &[Cell]) -> Result<Vec<i128>, NoMemory>
    requires some { 1 ≤ length cells.now }
    requires values { (x : ℕ) → Within (2 ^ 101) (value cells.now x) }
    ensures { IfOk result (λ values. IsShifted cells.now values.items) }
{
    let zero = cells[0].value;
    let mut values = Vec::new(alloc);
    for cell in cells {
        values.push(cell.value - zero)?;
    }
    Ok(values)
}

/// Values that meet every row of the system, or a cycle of its rows, which shows that no values do.
pub fn solve(alloc: Global, s: &System) -> Result<Answer, NoMemory>
    requires { IsSystem s.now }
    ensures answer { IfOk result (λ answer. IsAnswer s.now answer) }
    ensures decided { IfOk result (λ answer. IsDecided s.now answer) }
{
    let rows = s.rows.items();
    let start = begin(alloc, s.vars as usize, 0, 0)?;
    match settle(alloc, rows, start)? {
        Settled::Stable(rounds) => {
            let values = shifted(alloc, last(&rounds))?;
            Ok(Answer::Values(List::from_vec(values)))
        }
        Settled::Cyclic(chain) => Ok(Answer::Cycle(List::from_vec(chain))),
    }
}

/// The row `x - y >= d`.
fn at_least(x: u8, y: u8, d: i128) -> Diff
    requires { Within (2 ^ 70) d }
    ensures { result ≡ above_row x y d }
{
    Diff {
        x: y,
        y: x,
        most: -d,
    }
}

/// The system with one more row, the last.
fn longer(alloc: Global, s: &System, row: Diff) -> Result<System, NoMemory>
    ensures { IfOk result (λ longer. longer ≡ with_row s.now row) }
{
    let mut rows = s.rows.copied(alloc)?;
    rows.push(row)?;
    Ok(System { vars: s.vars, rows })
}

/// As `solve`, of the system with the row `x - y >= d` behind its own.
pub fn above(alloc: Global, s: &System, x: u8, y: u8, d: i128) -> Result<Answer, NoMemory>
    requires system { IsSystem s.now }
    requires room { length s.now.rows ≤ 4095 }
    requires x { x < s.now.vars }
    requires y { y < s.now.vars }
    requires d { Within (2 ^ 70) d }
    ensures answer { IfOk result (λ answer. IsAnswer (with_row s.now (above_row x y d)) answer) }
    ensures decided { IfOk result (λ answer. IsDecided (with_row s.now (above_row x y d)) answer) }
{
    let system = longer(alloc, s, at_least(x, y, d))?;
    let answer = solve(alloc, &system)?;
    Ok(answer)
}
