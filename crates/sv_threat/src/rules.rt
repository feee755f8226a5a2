//! In which way a change threatens a rule.

ghost use Rattle.std.specs.Prelude.{◌≡◌, slice_get};
ghost use Rattle.sv_app.specs.Kinds.{is_unmerged, is_annotated, is_grow_only};
ghost use Rattle.sv_app.specs.Schema.{schema_of, rule_of, declaration_of};
ghost use Rattle.sv_effect.specs.Needs.{grows};
ghost use Rattle.sv_effect.specs.RowChange.{turn_of};
ghost use Rattle.sv_effect.specs.RunChanges.{effect_of};
ghost use Rattle.sv_effect.specs.Threatened.{is_plain_column, writes_plain, turns, write_to, removes_from, is_set};
ghost use Rattle.sv_gains.specs.Gains.{noted_in};
ghost use Rattle.sv_threat.specs.Tests.{is_text_of, sets_unlisted, gives, threatens, is_plain_in};

use crate::cases::{check_fails, is_insert};
use crate::ways::Way;
use sv_app::{Act, App, Column, Ident, InvBody, Kind, Merge, Table};
use sv_effect::{RowEffect, Write};
use sv_gains::Gains;
use sv_value::{Text, Val};

fn is_unmerged(merge: Merge) -> bool
    ensures { result ≡ is_unmerged merge }
{
    match merge {
        Merge::Plain | Merge::Fresh => true,
        Merge::Lww | Merge::NumDelta => false,
    }
}

fn is_plain_column(columns: &[Column], number: u16) -> bool
    ensures { result ≡ is_plain_column columns.now number }
{
    let place = number as usize;
    place < columns.len() && is_unmerged(columns[place].merge)
}

/// Whether one of the columns that are written is plain.
fn writes_plain(columns: &[Column], writes: &[(u16, Write)]) -> bool
    ensures { result ≡ writes_plain columns.now writes.now }
{
    match writes {
        [] => false,
        [(number, _), rest @ ..] => {
            is_plain_column(columns, *number) || writes_plain(columns, rest)
        }
    }
}

/// Whether a row becomes present, or no longer is.
fn turns(act: Act) -> bool
    ensures { result ≡ turns (turn_of act) }
{
    match act {
        Act::Insert | Act::Fresh | Act::Remove => true,
        Act::Update => false,
    }
}

fn is_annotated(kind: Kind) -> bool
    ensures { result ≡ is_annotated kind }
{
    match kind {
        Kind::Plain => false,
        Kind::Aoset | Kind::Uoset | Kind::Auset | Kind::Arset => true,
    }
}

/// Whether the change writes a plain column, or inserts into or removes from an unannotated table. The table is the
/// change's.
pub fn is_plain_change(table: &Table, e: &RowEffect) -> bool
    ensures { result ≡ is_plain_in (declaration_of table.now) (effect_of e.now) }
{
    writes_plain(table.columns.as_slice(), e.writes.as_slice())
        || (turns(e.act) && !is_annotated(table.kind))
}

fn is_grow_only(kind: Kind) -> bool
    ensures { result ≡ is_grow_only kind }
{
    match kind {
        Kind::Aoset | Kind::Uoset | Kind::Auset => true,
        Kind::Plain | Kind::Arset => false,
    }
}

fn grows(tables: &[Table], number: u16) -> bool
    ensures { result ≡ grows (slice_get (schema_of tables.now) number) }
{
    match tables.get(number as usize) {
        Some(table) => is_grow_only(table.kind),
        None => false,
    }
}

/// Whether the column is set.
fn is_set(column: u16, writes: &[(u16, Write)]) -> bool
    ensures { result ≡ is_set (write_to column writes.now) }
{
    match writes {
        [] => false,
        [(number, write), rest @ ..] => {
            if *number == column {
                matches!(write, Write::Set(_))
            } else {
                is_set(column, rest)
            }
        }
    }
}

/// Whether the change inserts, or sets the column.
fn gives(e: &RowEffect, column: &Ident) -> bool
    ensures { result ≡ gives (effect_of e.now) column.now.num }
{
    is_insert(e.act) || is_set(column.num, e.writes.as_slice())
}

fn removes_from(e: &RowEffect, table: u16) -> bool
    ensures { result ≡ removes_from (effect_of e.now) table }
{
    e.table == table && e.act == Act::Remove
}

/// Whether the value is one of the texts.
fn is_text_of(val: &Val, texts: &[Text]) -> bool
    ensures { result ≡ is_text_of val.now texts.now }
{
    match val {
        Val::Int(_) => false,
        Val::Text(text) => {
            for listed in texts {
                if text.cmp(listed).is_eq() {
                    return true;
                }
            }
            false
        }
    }
}

/// Whether the column is set to a value that isn't one of the texts.
fn sets_unlisted(column: u16, texts: &[Text], writes: &[(u16, Write)]) -> bool
    ensures { result ≡ sets_unlisted (write_to column writes.now) texts.now }
{
    match writes {
        [] => false,
        [(number, write), rest @ ..] => {
            if *number != column {
                return sets_unlisted(column, texts, rest);
            }
            match write {
                Write::Delta(_) => false,
                Write::Set(val) => !is_text_of(val, texts),
            }
        }
    }
}

/// Whether the change threatens a rule in this way. The rule is of the change's table; a reference that loses its row may
/// be of any table.
pub fn threatens(way: Way, app: &App, gains: &Gains, e: &RowEffect, body: &InvBody) -> bool
    ensures { result ≡ threatens way (schema_of app.now.tables.items) (noted_in gains.now) (effect_of e.now) (rule_of body.now) }
{
    match (way, body) {
        (Way::Unique, InvBody::Unique { col }) => gives(e, col),
        (Way::Child, InvBody::Refers { col, table, .. }) => {
            !grows(app.tables.as_slice(), table.num) && gives(e, col)
        }
        (Way::Parent, InvBody::Refers { table, .. }) => removes_from(e, table.num),
        (Way::Check, InvBody::Check(check)) => check_fails(gains, check, e),
        (Way::List, InvBody::List { col, texts }) => {
            sets_unlisted(col.num, texts.as_slice(), e.writes.as_slice())
        }
        (Way::Unique, InvBody::Check(_) | InvBody::List { .. } | InvBody::Refers { .. })
        | (
            Way::Child | Way::Parent,
            InvBody::Check(_) | InvBody::List { .. } | InvBody::Unique { .. },
        )
        | (Way::Check, InvBody::List { .. } | InvBody::Unique { .. } | InvBody::Refers { .. })
        | (Way::List, InvBody::Check(_) | InvBody::Unique { .. } | InvBody::Refers { .. }) => false,
    }
}
