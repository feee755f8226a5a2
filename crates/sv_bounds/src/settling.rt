ghost use Rattle.std.specs.Prelude.{◌≡◌, ◌≤◌, ◌<◌, length, replicate, All, IfOk};
ghost use Rattle.sv_bounds.specs.Differences.{IsRow};
ghost use Rattle.sv_bounds.specs.Settling.{last_of, IsBegun, IsSettled};
ghost use Rattle.sv_bounds.specs.Rounds.{lists, IsStart};

use crate::rounds::{Cell, fallen, next_round};
use crate::systems::Diff;
use crate::walks::cycle;
use std::alloc::Global;
use sv_value::NoMemory;

/// What rounds from a start come to: all of them, where no variable falls in a further one, or a cycle of rows.
#[derive(Debug, Drop)]
pub enum Settled {
    Stable(Vec<Vec<Cell>>),
    Cyclic(Vec<u32>),
}

/// Variable `y` has 0, and each other one `far`.
pub fn begin(alloc: Global, vars: usize, y: usize, far: i128) -> Result<Vec<Cell>, NoMemory>
    requires { y < vars }
    ensures { IfOk result (λ cells. IsBegun vars y far cells.items) }
{
    let mut cells = copies(alloc, vars, Cell { value: far, by: 0 })?;
    cells[y] = Cell { value: 0, by: 0 };
    Ok(cells)
}

fn copies(alloc: Global, vars: usize, cell: Cell) -> Result<Vec<Cell>, NoMemory>
    ensures { IfOk result (λ cells. cells.items ≡ replicate vars cell) }
{
    Ok(Vec::from_elem(alloc, cell, vars)?)
}

/// The last round.
pub fn last(rounds: &[Vec<Cell>]) -> &[Cell]
    requires { 1 ≤ length rounds.now }
    ensures { result.now ≡ last_of (lists rounds.now) }
{
    &rounds[rounds.len() - 1]
}

/// Rounds from the start, until none falls, or until there are so many that rows which lowered a variable form a cycle.
pub fn settle(alloc: Global, rows: &[Diff], start: Vec<Cell>) -> Result<Settled, NoMemory>
    requires rows { All (IsRow (length start.items)) rows.now }
    requires many { length rows.now ≤ 4096 }
    requires some { 1 ≤ length start.items }
    requires few { length start.items ≤ 65 }
    requires start { IsStart start.items }
    ensures { IfOk result (λ settled. IsSettled rows.now start.items settled) }
{
    let vars = start.len();
    let mut rounds = Vec::new(alloc);
    rounds.push(start)?;
    let mut x = 0;
    for _ in 0..vars {
        let old = last(&rounds);
        let new = next_round(alloc, rows, old)?;
        match fallen(old, &new) {
            Some(fell) => {
                x = fell;
                rounds.push(new)?;
            }
            None => return Ok(Settled::Stable(rounds)),
        }
    }
    Ok(Settled::Cyclic(cycle(alloc, rows, vars, &rounds, x)?))
}
