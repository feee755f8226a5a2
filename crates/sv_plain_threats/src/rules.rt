//! Whether a reason threatens a rule.

ghost use Rattle.std.specs.Prelude.{◌≡◌, ◌==◌, ◌&&◌, IfOk, slice_get};
ghost use Rattle.sv_app.specs.Kinds.{is_grow_only};
ghost use Rattle.sv_app.specs.Schema.{declaration_of, rule_of, schema_of};
ghost use Rattle.sv_effect.specs.Needs.{grows};
ghost use Rattle.sv_effect.specs.RunChanges.{effect_of};
ghost use Rattle.sv_effect.specs.Threatened.{removes_from, touches, write_to};
ghost use Rattle.sv_plain_threats.specs.Tries.{breaks, is_text_of, sets_unlisted, threatens};

use crate::checks::{Question, breaks};
use crate::writes::{is_insert, is_set, write_to};
use std::alloc::Global;
use sv_app::{Act, App, Check, Ident, InvBody, Kind, Reason, Table};
use sv_effect::{RowEffect, Write};
use sv_value::{NoMemory, Text, Val};

/// An application and a change of it, the reason that is asked about, and how far the numbers of a row are tried.
#[derive(Clone, Copy)]
pub struct Judged<'a> {
    pub app: &'a App,
    pub change: &'a RowEffect,
    pub reason: Reason,
    pub reach: u8,
}

/// Whether the change inserts into the table, or sets its column.
fn touches(change: &RowEffect, table: usize, column: &Ident) -> bool
    ensures { result ≡ touches (effect_of change.now) table column.now }
{
    change.table as usize == table
        && (is_insert(change.act) || is_set(&write_to(column.num, change.writes.as_slice())))
}

fn removes_from(change: &RowEffect, table: u16) -> bool
    ensures { result ≡ removes_from (effect_of change.now) table }
{
    change.table == table && change.act == Act::Remove
}

fn is_grow_only(kind: Kind) -> bool
    ensures { result ≡ is_grow_only kind }
{
    match kind {
        Kind::Aoset | Kind::Uoset | Kind::Auset => true,
        Kind::Plain | Kind::Arset => false,
    }
}

/// Whether the rows of the table of this number are never removed.
fn grows(app: &App, number: u16) -> bool
    ensures { result ≡ grows (slice_get (schema_of app.now.tables.items) number) }
{
    match app.tables.get(number as usize) {
        Some(table) => is_grow_only(table.kind),
        None => false,
    }
}

/// Whether the value is one of the texts.
fn is_text_of(val: &Val, texts: &[Text]) -> bool
    ensures { result ≡ is_text_of val.now texts.now }
{
    match val {
        Val::Int(_) => false,
        Val::Text(text) => {
            for listed in texts {
                if text.cmp(listed).is_eq() {
                    return true;
                }
            }
            false
        }
    }
}

/// Whether what isn't one of the texts is set.
fn sets_unlisted(write: &Option<Write>, texts: &[Text]) -> bool
    ensures { result ≡ sets_unlisted write.now texts.now }
{
    match write {
        Some(Write::Set(val)) => !is_text_of(val, texts),
        Some(Write::Delta(_)) | None => false,
    }
}

/// Whether the change breaks the check of the table of this number.
fn breaks_check(
    alloc: Global,
    judged: &Judged<'_>,
    number: usize,
    table: &Table,
    check: &Check,
) -> Result<bool, NoMemory>
    ensures { IfOk result (λ found. found ≡ (judged.now.change.now.table == number && breaks judged.now.reach (declaration_of table.now) (effect_of judged.now.change.now) check.now)) }
{
    let change = judged.change;
    if change.table as usize != number {
        return Ok(false);
    }
    let question = Question {
        table,
        change,
        check,
    };
    breaks(alloc, &question, judged.reach)
}

/// Whether the reason threatens a rule of the table of this number.
pub fn threatens(
    alloc: Global,
    judged: &Judged<'_>,
    number: usize,
    table: &Table,
    body: &InvBody,
) -> Result<bool, NoMemory>
    ensures { IfOk result (λ found. found ≡ threatens judged.now.reach (schema_of judged.now.app.now.tables.items) (effect_of judged.now.change.now) judged.now.reason number (declaration_of table.now) (rule_of body.now)) }
{
    let change = judged.change;
    match (judged.reason, body) {
        (Reason::Unique(_), InvBody::Unique { col }) => Ok(touches(change, number, col)),
        (
            Reason::Child(_),
            InvBody::Refers {
                col,
                table: parent,
                ..
            },
        ) => Ok(!grows(judged.app, parent.num) && touches(change, number, col)),
        (Reason::Parent(_), InvBody::Refers { table: parent, .. }) => {
            Ok(removes_from(change, parent.num))
        }
        (Reason::Check(_), InvBody::Check(check)) => {
            breaks_check(alloc, judged, number, table, check)
        }
        (Reason::List(_), InvBody::List { col, texts }) => {
            let write = write_to(col.num, change.writes.as_slice());
            Ok(change.table as usize == number && sets_unlisted(&write, texts.as_slice()))
        }
        (
            Reason::Plain
            | Reason::Unique(_)
            | Reason::Child(_)
            | Reason::Parent(_)
            | Reason::Check(_)
            | Reason::List(_),
            InvBody::Check(_)
            | InvBody::List { .. }
            | InvBody::Unique { .. }
            | InvBody::Refers { .. },
        ) => Ok(false),
    }
}
