//! What a change in forms writes.

ghost use Rattle.std.specs.Prelude.{◌≡◌, slice_get, pos};
ghost use Rattle.std.specs.List.{list_any};
ghost use Rattle.std.specs.Option.{option_copied, option_map};
ghost use Rattle.sv_app.specs.Kinds.{is_unmerged, is_annotated, is_grow_only};
ghost use Rattle.sv_app.specs.Satisfiable.{number_of};
ghost use Rattle.sv_app.specs.Schema.{schema_of};
ghost use Rattle.sv_linear.specs.Atoms.{
  is_insert,
  is_draw,
  is_remove,
  write_to,
  write_at,
  is_delta,
  is_set,
  added_by,
  made_by,
  is_plain_at,
  is_plain_change,
  touches,
  grows,
};
ghost use Rattle.sv_linear.specs.Codes.{form_of, write_of, writes_of, effect_of};
ghost use Rattle.sv_linear.specs.Forms.{number};

use sv_app::{Act, Column, Ident, Kind, Merge, Table};
use sv_linear::{Form, SymEffect, SymVal, SymWrite};

/// Whether a row becomes present.
pub fn is_insert(act: Act) -> bool
    ensures { result ≡ is_insert act }
{
    match act {
        Act::Insert | Act::Fresh => true,
        Act::Update | Act::Remove => false,
    }
}

/// Whether the key of the row is drawn.
pub fn is_draw(act: Act) -> bool
    ensures { result ≡ is_draw act }
{
    match act {
        Act::Fresh => true,
        Act::Insert | Act::Update | Act::Remove => false,
    }
}

/// Whether the row is removed.
pub fn is_remove(act: Act) -> bool
    ensures { result ≡ is_remove act }
{
    match act {
        Act::Remove => true,
        Act::Insert | Act::Fresh | Act::Update => false,
    }
}

/// The write to a column.
pub fn write_to<'a>(column: u16, writes: &'a [(u16, SymWrite)]) -> Option<&'a SymWrite>
    ensures { option_map write_of (option_copied result) ≡ write_to column (writes_of writes.now) }
{
    match writes {
        [] => None,
        [write, rest @ ..] => {
            if write.0 == column {
                Some(&write.1)
            } else {
                write_to(column, rest)
            }
        }
    }
}

/// The write to the column of a side, where it isn't missing.
pub fn write_at<'a>(side: &Option<Ident>, writes: &'a [(u16, SymWrite)]) -> Option<&'a SymWrite>
    ensures { option_map write_of (option_copied result) ≡ write_at (number_of side.now) (writes_of writes.now) }
{
    match side {
        None => None,
        Some(column) => write_to(column.num, writes),
    }
}

/// Whether it is a number that is added.
pub fn is_delta(write: Option<&SymWrite>) -> bool
    ensures { result ≡ is_delta (option_map write_of (option_copied write.entry)) }
{
    match write {
        None | Some(SymWrite::Set(_)) => false,
        Some(SymWrite::Delta(_)) => true,
    }
}

/// Whether it is a value that is set.
pub fn is_set(write: Option<&SymWrite>) -> bool
    ensures { result ≡ is_set (option_map write_of (option_copied write.entry)) }
{
    match write {
        None | Some(SymWrite::Delta(_)) => false,
        Some(SymWrite::Set(_)) => true,
    }
}

/// What a write adds to its column; `zero` is the form of 0.
pub fn added_by<'a>(write: Option<&'a SymWrite>, zero: &'a Form) -> &'a Form
    requires { form_of zero.now ≡ number (pos 0) }
    ensures { form_of result.now ≡ added_by (option_map write_of (option_copied write.entry)) }
{
    match write {
        None | Some(SymWrite::Set(_)) => zero,
        Some(SymWrite::Delta(form)) => form,
    }
}

/// What a write makes of zero; `zero` is the form of 0.
pub fn made_by<'a>(write: Option<&'a SymWrite>, zero: &'a Form) -> &'a Form
    requires { form_of zero.now ≡ number (pos 0) }
    ensures { form_of result.now ≡ made_by (option_map write_of (option_copied write.entry)) }
{
    match write {
        None | Some(SymWrite::Set(SymVal::TextIs(_) | SymVal::TextSym(_))) => zero,
        Some(SymWrite::Delta(form) | SymWrite::Set(SymVal::Num(form))) => form,
    }
}

fn is_unmerged(merge: Merge) -> bool
    ensures { result ≡ is_unmerged merge }
{
    match merge {
        Merge::Plain | Merge::Fresh => true,
        Merge::Lww | Merge::NumDelta => false,
    }
}

fn is_plain_at(columns: &[Column], number: u16) -> bool
    ensures { result ≡ is_plain_at columns.now number }
{
    let place = number as usize;
    place < columns.len() && is_unmerged(columns[place].merge)
}

/// Whether one of the columns that are written is plain.
fn writes_plain(columns: &[Column], writes: &[(u16, SymWrite)]) -> bool
    ensures { result ≡ list_any (λ w. is_plain_at columns.now w.0) (writes_of writes.now) }
{
    match writes {
        [] => false,
        [write, rest @ ..] => is_plain_at(columns, write.0) || writes_plain(columns, rest),
    }
}

fn is_annotated(kind: Kind) -> bool
    ensures { result ≡ is_annotated kind }
{
    match kind {
        Kind::Plain => false,
        Kind::Aoset | Kind::Uoset | Kind::Auset | Kind::Arset => true,
    }
}

/// Whether the change writes a plain column, or inserts into or removes from an unannotated table.
pub fn is_plain_change(tables: &[Table], e: &SymEffect) -> bool
    ensures { result ≡ is_plain_change (slice_get (schema_of tables.now) e.now.table) (effect_of e.now) }
{
    match tables.get(e.table as usize) {
        None => false,
        Some(table) => {
            writes_plain(table.columns.as_slice(), e.writes.items())
                || ((is_insert(e.act) || is_remove(e.act)) && !is_annotated(table.kind))
        }
    }
}

/// Whether the change inserts, or sets the column.
pub fn touches(e: &SymEffect, column: &Ident) -> bool
    ensures { result ≡ touches (effect_of e.now) column.now }
{
    is_insert(e.act) || is_set(write_to(column.num, e.writes.items()))
}

fn is_grow_only(kind: Kind) -> bool
    ensures { result ≡ is_grow_only kind }
{
    match kind {
        Kind::Aoset | Kind::Uoset | Kind::Auset => true,
        Kind::Plain | Kind::Arset => false,
    }
}

/// Whether the rows of the table with this number are never removed.
pub fn grows(tables: &[Table], number: u16) -> bool
    ensures { result ≡ grows (slice_get (schema_of tables.now) number) }
{
    match tables.get(number as usize) {
        Some(table) => is_grow_only(table.kind),
        None => false,
    }
}
