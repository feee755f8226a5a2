ghost use Rattle.std.specs.Prelude.{IfOk, MatchOption};
ghost use Rattle.sv_app.specs.Satisfiable.{checks_of, IsSatisfiable, AreSatisfiable, IsCycleOf, IsUnmet};
ghost use Rattle.sv_app.specs.Schema.{declaration_of, schema_of};
ghost use Rattle.sv_gains.specs.Systems.{IsNarrowTable, AreNarrow};

use std::alloc::Global;
use sv_app::{Code, Refusal, Table};
use sv_bounds::{Answer, solve};
use sv_gains::system_of;
use sv_value::{List, NoMemory};

/// A cycle of the table's checks, if no row can meet them.
fn cycle_of(alloc: Global, table: &Table) -> Result<Option<List<u32>>, NoMemory>
    requires { IsNarrowTable (declaration_of table.now) }
    ensures { IfOk result (λ found. MatchOption found (IsSatisfiable (declaration_of table.now)) (λ cycle. IsCycleOf (checks_of (declaration_of table.now)) cycle)) }
{
    let system = system_of(alloc, table)?;
    match solve(alloc, &system)? {
        Answer::Values(_) => Ok(None),
        Answer::Cycle(cycle) => Ok(Some(cycle)),
    }
}

/// The refusal of the first table with checks that no row can meet.
#[tactic(auto, using(crate::proofs::UnmetLaws::looking))]
pub fn first_unmet(alloc: Global, tables: &[Table]) -> Result<Option<Refusal>, NoMemory>
    requires { AreNarrow (schema_of tables.now) }
    ensures { IfOk result (λ found. MatchOption found (AreSatisfiable (schema_of tables.now)) (λ refusal. IsUnmet (schema_of tables.now) refusal)) }
{
    for number in 0..tables.len() {
        let table = &tables[number];
        if let Some(cycle) = cycle_of(alloc, table)? {
            let code = Code::Unsatisfiable {
                table: number as u16,
                cycle,
            };
            return Ok(Some(Refusal {
                spot: table.name.spot,
                code,
            }));
        }
    }
    Ok(None)
}
