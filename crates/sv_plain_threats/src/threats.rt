//! Whether a reason threatens a change.

ghost use Rattle.std.specs.Prelude.{◌≡◌, ◌↔◌, ◌+◌, ◌≤◌, length, map, IfOk, IsTrue};
ghost use Rattle.sv_app.specs.Schema.{declaration_of, invariant_of, schema_of};
ghost use Rattle.sv_effect.specs.RunChanges.{effect_of};
ghost use Rattle.sv_plain_threats.specs.ThreatenedWithin.{ThreatenedWithin};
ghost use Rattle.sv_plain_threats.specs.Tries.{any_invariant, any_table, invariant_in};

use crate::plain::is_plain_change;
use crate::rules::{Judged, threatens};
use std::alloc::Global;
use sv_app::{App, Inv, Reason, Table};
use sv_effect::RowEffect;
use sv_value::NoMemory;

/// The number of the invariant that the reason names.
fn invariant_in(reason: Reason) -> u16
    ensures { result ≡ invariant_in reason }
{
    match reason {
        Reason::Plain => 0,
        Reason::Unique(number)
        | Reason::Child(number)
        | Reason::Parent(number)
        | Reason::Check(number)
        | Reason::List(number) => number,
    }
}

/// Whether the reason threatens one of these invariants of the table of this number.
fn any_invariant(
    alloc: Global,
    judged: &Judged<'_>,
    number: usize,
    table: &Table,
    invs: &[Inv],
) -> Result<bool, NoMemory>
    ensures { IfOk result (λ found. found ≡ any_invariant judged.now.reach (schema_of judged.now.app.now.tables.items) (effect_of judged.now.change.now) judged.now.reason number (declaration_of table.now) (map invariant_of invs.now)) }
{
    match invs {
        [] => Ok(false),
        [inv, rest @ ..] => {
            if inv.number == invariant_in(judged.reason)
                && threatens(alloc, judged, number, table, &inv.body)?
            {
                return Ok(true);
            }
            any_invariant(alloc, judged, number, table, rest)
        }
    }
}

/// Whether the reason threatens an invariant of one of these tables, the first of which has this number.
fn any_table(
    alloc: Global,
    judged: &Judged<'_>,
    number: usize,
    tables: &[Table],
) -> Result<bool, NoMemory>
    requires { number + length tables.now ≤ length judged.now.app.now.tables.items }
    ensures { IfOk result (λ found. found ≡ any_table judged.now.reach (schema_of judged.now.app.now.tables.items) (effect_of judged.now.change.now) judged.now.reason number (schema_of tables.now)) }
{
    match tables {
        [] => Ok(false),
        [table, rest @ ..] => {
            if any_invariant(alloc, judged, number, table, table.invs.as_slice())? {
                return Ok(true);
            }
            any_table(alloc, judged, number + 1, rest)
        }
    }
}

/// Whether the reason threatens the change. For a check, rows are tried whose numbers lie between `-reach` and `reach`,
/// and no others. It fails for want of memory alone.
#[tactic(auto, using(crate::proofs::DecideLaws::by_plain))]
pub fn is_threatened(
    alloc: Global,
    app: &App,
    change: &RowEffect,
    reason: Reason,
    reach: u8,
) -> Result<bool, NoMemory>
    ensures { IfOk result (λ yes. IsTrue yes ↔ ThreatenedWithin reach (schema_of app.now.tables.items) (effect_of change.now) reason) }
{
    let judged = Judged {
        app,
        change,
        reason,
        reach,
    };
    match reason {
        Reason::Plain => Ok(is_plain_change(app, change)),
        Reason::Unique(_)
        | Reason::Child(_)
        | Reason::Parent(_)
        | Reason::Check(_)
        | Reason::List(_) => any_table(alloc, &judged, 0, app.tables.as_slice()),
    }
}
