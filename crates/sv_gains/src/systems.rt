//! The checks of a table as a system of differences.

ghost use Rattle.std.specs.Prelude.{◌≡◌, ◌++◌, ◌<◌, map, IfOk, OnOk, All};
ghost use Rattle.sv_app.specs.Satisfiable.{check_in, checks_of, number_of};
ghost use Rattle.sv_app.specs.Schema.{declaration_of, rule_of};
ghost use Rattle.sv_bounds.specs.Answers.{IsSystem};
ghost use Rattle.sv_gains.specs.Systems.{variable_of, row_of, IsCheckRow, IsNarrowCheck, IsNarrowRule, IsNarrowTable};

use std::alloc::Global;
use sv_app::{Check, Ident, InvBody, Table};
use sv_bounds::{Diff, System};
use sv_value::{List, NoMemory};

/// Variables of zero and of 16 columns.
const VARIABLES: u8 = 17;

/// A side of a check: the number of its column.
pub fn side(column: &Option<Ident>) -> Option<u16>
    ensures { result ≡ number_of column.now }
{
    match column {
        None => None,
        Some(column) => Some(column.num),
    }
}

/// The variable that stands for a side.
pub fn variable(side: Option<u16>) -> u8
    requires { variable_of side < 17 }
    ensures { result ≡ variable_of side }
{
    match side {
        None => 0,
        Some(column) => column as u8 + 1,
    }
}

/// The row of a check.
fn row_of(check: &Check) -> Diff
    requires { IsNarrowCheck check.now }
    ensures row { result ≡ row_of check.now }
    ensures within { IsCheckRow result }
{
    Diff {
        x: variable(side(&check.hi)),
        y: variable(side(&check.lo)),
        most: check.most as i128,
    }
}

/// Appends the row of an invariant that is a check.
#[tactic(auto, using(crate::proofs::RowLaws::rowing))]
fn put_row(rows: &mut List<Diff>, body: &InvBody) -> Result<(), NoMemory>
    requires narrow { IsNarrowRule (rule_of body.now) }
    requires within { All IsCheckRow rows.old }
    ensures row { OnOk result (rows.new ≡ rows.old ++ map row_of (check_in (rule_of body.now))) }
    ensures within { OnOk result (All IsCheckRow rows.new) }
{
    match body {
        InvBody::Check(check) => {
            rows.push(row_of(check))?;
            Ok(())
        }
        _ => Ok(()),
    }
}

/// The rows of the checks of a table.
#[tactic(auto, using(crate::proofs::RowLaws::rowing))]
fn rows_of(alloc: Global, table: &Table) -> Result<List<Diff>, NoMemory>
    requires { IsNarrowTable (declaration_of table.now) }
    ensures rows { IfOk result (λ rows. rows ≡ map row_of (checks_of (declaration_of table.now))) }
    ensures within { IfOk result (λ rows. All IsCheckRow rows) }
{
    let mut rows = List::new(alloc);
    for inv in &table.invs {
        put_row(&mut rows, &inv.body)?;
    }
    Ok(rows)
}

/// The checks of a table as a system of differences: variable 0 stands for zero, and each column for the variable behind
/// its number.
pub fn system_of(alloc: Global, table: &Table) -> Result<System, NoMemory>
    requires { IsNarrowTable (declaration_of table.now) }
    ensures system { IfOk result (λ system. IsSystem system) }
    ensures vars { IfOk result (λ system. system.vars ≡ 17) }
    ensures rows { IfOk result (λ system. system.rows ≡ map row_of (checks_of (declaration_of table.now))) }
    ensures within { IfOk result (λ system. All IsCheckRow system.rows) }
{
    let rows = rows_of(alloc, table)?;
    Ok(System {
        vars: VARIABLES,
        rows,
    })
}
