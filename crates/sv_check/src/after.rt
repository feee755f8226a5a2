//! Invariants after changes.

ghost use Rattle.std.specs.Prelude.{◌≡◌, ◌≤◌, ◌<◌, List, IfOk, length, map, slice_get};
ghost use Rattle.sv_app.specs.Accepted.{AcceptedSchema};
ghost use Rattle.sv_app.specs.Schema.{schema_of, invariant_of};
ghost use Rattle.sv_effect.specs.Fits.{AllFit};
ghost use Rattle.sv_effect.specs.Asked.{Asked};
ghost use Rattle.sv_effect.specs.Follows.{Follows};
ghost use Rattle.sv_effect.specs.RunChanges.{effect_of};
ghost use Rattle.sv_check.specs.Bounds.{LeftBounded};
ghost use Rattle.sv_check.specs.Tests.{rules_of};
ghost use Rattle.sv_check.specs.Verdicts.{Judges, TableSays, AllSay};

use crate::changes::rows_after;
use crate::least::least_broken;
use crate::verdicts::Verdict;
use std::alloc::Global;
use sv_app::{App, Inv, Place};
use sv_effect::{Halt, LeftRow, RowEffect, Rows};

/// The first of the table's invariants that is broken after the changes, and the least key at which it is.
fn first_in<R: Rows>(
    alloc: Global,
    app: &App,
    table: u16,
    invs: &[Inv],
    left: &[(Place, LeftRow)],
    rows: &mut R,
) -> Result<Verdict, Halt>
    requires declared { map invariant_of invs.now ≡ rules_of (slice_get (schema_of app.now.tables.items) table) }
    requires accepted { AcceptedSchema (schema_of app.now.tables.items) }
    requires rows { R.is_of rows.old (schema_of app.now.tables.items) }
    requires bounded { LeftBounded (schema_of app.now.tables.items) 0 left.now }
    ensures followed { IfOk result (λ verdict. Follows (R.face rows.old) (R.face rows.new) (R.noted rows.old) (R.noted rows.new)
        (TableSays (schema_of app.now.tables.items) left.now table verdict)) }
    ensures asked { Asked R.stays R.face rows.old rows.new result }
{
    for inv in invs {
        match least_broken(alloc, app, table, inv, left, rows)? {
            Some(key) => {
                return Ok(Verdict::Breaks {
                    inv: inv.number,
                    key,
                });
            }
            None => {}
        }
    }
    Ok(Verdict::Keeps)
}

/// The first invariant of all that is broken after the changes, and the least key at which it is.
fn first_broken<R: Rows>(
    alloc: Global,
    app: &App,
    left: &[(Place, LeftRow)],
    rows: &mut R,
) -> Result<Verdict, Halt>
    requires accepted { AcceptedSchema (schema_of app.now.tables.items) }
    requires rows { R.is_of rows.old (schema_of app.now.tables.items) }
    requires bounded { LeftBounded (schema_of app.now.tables.items) 0 left.now }
    ensures followed { IfOk result (λ verdict. Follows (R.face rows.old) (R.face rows.new) (R.noted rows.old) (R.noted rows.new)
        (AllSay (schema_of app.now.tables.items) left.now verdict)) }
    ensures asked { Asked R.stays R.face rows.old rows.new result }
{
    for table in 0..app.tables.len() {
        let invs = app.tables[table].invs.as_slice();
        match first_in(alloc, app, table as u16, invs, left, rows)? {
            Verdict::Breaks { inv, key } => return Ok(Verdict::Breaks { inv, key }),
            Verdict::Keeps => {}
        }
    }
    Ok(Verdict::Keeps)
}

/// Whether every invariant holds after the changes, each write winning, or which is broken, the first, and the least key
/// at which it is. So it is for all valid tables that agree with what was read, and in which each row that is updated or
/// removed is kept or was inserted by an earlier change. It asks for rows that the changes touch or refer to; for
/// uniqueness in a table that they touch, and where a row was removed to which others may refer, it walks the table that
/// holds the column. The
/// application is accepted, the rows are of it, the changes fit it, and there are at most 64.
#[tactic(auto, using(crate::proofs::VerdictLaws::judging))]
pub fn check_after<R: Rows>(
    alloc: Global,
    app: &App,
    effects: &[RowEffect],
    rows: &mut R,
) -> Result<Verdict, Halt>
    requires accepted { AcceptedSchema (schema_of app.now.tables.items) }
    requires rows { R.is_of rows.old (schema_of app.now.tables.items) }
    requires fits { AllFit (schema_of app.now.tables.items) effects.now }
    requires few { length effects.now ≤ 64 }
    ensures judged { IfOk result (λ verdict. Follows (R.face rows.old) (R.face rows.new) (R.noted rows.old) (R.noted rows.new)
        (Judges (schema_of app.now.tables.items) (map effect_of effects.now) verdict)) }
    ensures asked { Asked R.stays R.face rows.old rows.new result }
{
    let left = rows_after(alloc, app, effects, rows)?;
    let verdict = first_broken(alloc, app, &left, rows)?;
    Ok(verdict)
}
