ghost use Rattle.std.specs.Prelude.{◌<◌, IfOk};
ghost use Rattle.sv_bounds.specs.Differences.{IsSolvable};
ghost use Rattle.sv_bounds.specs.Answers.{IsSystem, IsWidest, IsExact};

use crate::answers::shifted;
use crate::descents::chain_of;
use crate::settling::{Settled, begin, last, settle};
use crate::systems::{System, Widest};
use std::alloc::Global;
use sv_value::{List, NoMemory};

/// Where the variables other than the second one start: rows lower a value by far less.
const FAR: i128 = 1 << 100;

/// Half way: what stays above is not reached by rows from the second variable.
const MIDDLE: i128 = 1 << 99;

/// The greatest `x - y` over all values that meet the rows of the system, if there is one.
pub fn greatest(alloc: Global, s: &System, x: u8, y: u8) -> Result<Widest, NoMemory>
    requires system { IsSystem s.now }
    requires x { x < s.now.vars }
    requires y { y < s.now.vars }
    requires solvable { IsSolvable s.now.rows }
    ensures widest { IfOk result (λ widest. IsWidest s.now x y widest) }
    ensures exact { IfOk result (λ widest. IsExact s.now x y widest) }
{
    let rows = s.rows.items();
    let start = begin(alloc, s.vars as usize, y as usize, FAR)?;
    match settle(alloc, rows, start)? {
        Settled::Cyclic(_) => unreachable!(),
        Settled::Stable(rounds) => {
            let cells = last(&rounds);
            let value = cells[x as usize].value;
            if value >= MIDDLE {
                return Ok(Widest::Unbounded);
            }
            let chain = chain_of(alloc, rows, s.vars as usize, &rounds, x as usize)?;
            let at = shifted(alloc, cells)?;
            Ok(Widest::Most {
                value,
                at: List::from_vec(at),
                chain: List::from_vec(chain),
            })
        }
    }
}
