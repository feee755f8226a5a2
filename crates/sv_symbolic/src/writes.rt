ghost use Rattle.std.specs.Prelude.{◌≡◌, ◌≤◌, ◌+◌, ◌==◌, [], length, if◌then◌else◌, slice_get, IfOk, OnOk};
ghost use Rattle.sv_app.specs.Kinds.{is_grow_only};
ghost use Rattle.sv_app.specs.Paths.{merge_in, now_way, sets_way};
ghost use Rattle.sv_app.specs.Schema.{declaration_of};
ghost use Rattle.sv_app.specs.Slots.{item};
ghost use Rattle.sv_app.specs.Symbols.{is_key_column};
ghost use Rattle.sv_app.specs.Trees.{sets_of};
ghost use Rattle.sv_app.specs.Writes.{in_order, writes_at};
ghost use Rattle.sv_effect.specs.RunChanges.{outside_key};
ghost use Rattle.sv_linear.specs.Codes.{sym_of, write_of, writes_of};
ghost use Rattle.sv_symbolic.specs.Routes.{draw_delta, draw_set, draw_sets, draw_insert, draw_inserts, first_write, first_writes};
ghost use Rattle.sv_symbolic.specs.Sketches.{zero_form};
ghost use Rattle.sv_symbolic.specs.States.{names_for, schema_for, way_of, sketch_of, syms_of, listed, kept_for, inserts_way, DrawsFrom};

use crate::copies::{copied, copied_write, linear, zero};
use crate::names::columns_at;
use crate::settings::Setting;
use crate::states::State;
use crate::values::value;
use std::alloc::Global;
use sv_app::{Column, Expr, Ident, Kind, Merge, Table, Ty};
use sv_effect::prepend;
use sv_linear::{SymVal, SymWrite};
use sv_value::{List, NoMemory};

/// A counter goes from a value to another.
fn delta(
    alloc: Global,
    val: SymVal,
    now: SymVal,
    state: &mut State<'_>,
) -> Result<SymWrite, NoMemory>
    ensures way { OnOk result (way_of state.new ≡ way_of state.old) }
    ensures told { IfOk result (λ w. DrawsFrom state.old state.new (draw_delta (sym_of val) (sym_of now) (sketch_of state.old)) (write_of w)) }
{
    let form = state.difference(alloc, val, now)?;
    Ok(SymWrite::Delta(form))
}

/// How a column is set: a counter by what is added to its value now.
fn set(
    alloc: Global,
    merge: Merge,
    col: u16,
    val: SymVal,
    state: &mut State<'_>,
) -> Result<SymWrite, NoMemory>
    ensures way { OnOk result (way_of state.new ≡ now_way merge col (way_of state.old)) }
    ensures told { IfOk result (λ w. DrawsFrom state.old state.new (draw_set merge col (sym_of val) (sketch_of state.old)) (write_of w)) }
{
    match merge {
        Merge::NumDelta => {
            let now = state.draw_old(alloc, col, Ty::Int)?;
            delta(alloc, val, now, state)
        }
        Merge::Plain | Merge::Lww | Merge::Fresh => Ok(SymWrite::Set(val)),
    }
}

fn merge_in(columns: &[Column], col: u16) -> Merge
    ensures { result ≡ merge_in (slice_get columns.now col) }
{
    match columns.get(col as usize) {
        Some(column) => column.merge,
        None => Merge::Plain,
    }
}

/// The writes of the sets of an update, in their order.
pub fn set_writes(
    setting: &Setting<'_>,
    table: u16,
    sets: &[(Ident, Expr)],
    state: &mut State<'_>,
) -> Result<List<(u16, SymWrite)>, NoMemory>
    ensures way { OnOk result (way_of state.new ≡ sets_way (schema_for setting.now) (names_for setting.now) table (sets_of sets.now) (way_of state.old)) }
    ensures told { IfOk result (λ ws. DrawsFrom state.old state.new
        (draw_sets (schema_for setting.now) (names_for setting.now) table (sets_of sets.now) (sketch_of state.old)) (writes_of ws)) }
{
    match sets {
        [] => Ok(List::new(setting.alloc)),
        [first, rest @ ..] => {
            let val = value(setting, table, &first.1, state)?;
            let col = first.0.num;
            let merge = merge_in(columns_at(setting.tables, table), col);
            let write = set(setting.alloc, merge, col, val, state)?;
            let writes = set_writes(setting, table, rest, state)?;
            let all = prepend((col, write), writes)?;
            Ok(all)
        }
    }
}

/// The write to a column, if there is one.
fn write_at(
    alloc: Global,
    number: u16,
    writes: &[(u16, SymWrite)],
) -> Result<Option<(u16, SymWrite)>, NoMemory>
    ensures { IfOk result (λ write. listed write ≡ writes_at number (writes_of writes.now)) }
{
    match writes {
        [] => Ok(None),
        [write, rest @ ..] => {
            if write.0 == number {
                Ok(Some((write.0, copied_write(alloc, &write.1)?)))
            } else {
                write_at(alloc, number, rest)
            }
        }
    }
}

fn is_key_column(key: &[Ident], number: u16) -> bool
    ensures { result ≡ is_key_column key.now number }
{
    key.iter().any(|name| name.num == number)
}

/// The write to a column outside the key.
fn write_outside(
    alloc: Global,
    key: &[Ident],
    number: u16,
    writes: &[(u16, SymWrite)],
) -> Result<Option<(u16, SymWrite)>, NoMemory>
    ensures { IfOk result (λ write. listed write
        ≡ (if is_key_column key.now number then [] else writes_at number (writes_of writes.now))) }
{
    if is_key_column(key, number) {
        return Ok(None);
    }
    write_at(alloc, number, writes)
}

/// The writes in the order of the columns, from one on.
pub fn in_order(
    alloc: Global,
    table: &Table,
    number: u16,
    columns: &[Column],
    writes: &[(u16, SymWrite)],
) -> Result<List<(u16, SymWrite)>, NoMemory>
    requires { number + length columns.now ≤ 16 }
    ensures { IfOk result (λ ws. writes_of ws ≡ in_order (declaration_of table.now) number columns.now (writes_of writes.now)) }
{
    match columns {
        [] => Ok(List::new(alloc)),
        [_, rest @ ..] => {
            let later = in_order(alloc, table, number + 1, rest, writes)?;
            match write_outside(alloc, &table.key, number, writes)? {
                Some(write) => prepend(write, later),
                None => Ok(later),
            }
        }
    }
}

/// Whether rows of such a table are never removed.
fn is_grow_only(kind: Kind) -> bool
    ensures { result ≡ is_grow_only kind }
{
    match kind {
        Kind::Aoset | Kind::Uoset | Kind::Auset => true,
        Kind::Plain | Kind::Arset => false,
    }
}

/// What a value writes into a row that wasn't there.
fn first_write(alloc: Global, merge: Merge, val: SymVal) -> SymWrite
    ensures { write_of result ≡ first_write merge (sym_of val) }
{
    match merge {
        Merge::NumDelta => SymWrite::Delta(linear(alloc, val)),
        Merge::Plain | Merge::Lww | Merge::Fresh => SymWrite::Set(val),
    }
}

/// How an insert writes a column: a counter by what is added to the value that is kept, unless nothing is.
fn insert(
    alloc: Global,
    grows: bool,
    merge: Merge,
    val: SymVal,
    state: &mut State<'_>,
) -> Result<SymWrite, NoMemory>
    ensures way { OnOk result (way_of state.new ≡ kept_for grows merge (way_of state.old)) }
    ensures told { IfOk result (λ w. DrawsFrom state.old state.new (draw_insert grows merge (sym_of val) (sketch_of state.old)) (write_of w)) }
{
    if grows {
        return Ok(first_write(alloc, merge, val));
    }
    match merge {
        Merge::NumDelta => {
            let kept = state.draw_symbol(alloc, Ty::Int)?;
            delta(alloc, val, kept, state)
        }
        Merge::Plain | Merge::Lww | Merge::Fresh => Ok(SymWrite::Set(val)),
    }
}

/// The value of that number; zero where there is none.
fn val_at(alloc: Global, vals: &[SymVal], number: u16) -> Result<SymVal, NoMemory>
    ensures { IfOk result (λ v. sym_of v ≡ item zero_form (syms_of vals.now) number) }
{
    match vals.get(number as usize) {
        Some(val) => copied(alloc, val),
        None => Ok(zero(alloc)),
    }
}

/// The writes of an insert to the columns outside the key, from one on.
pub fn insert_writes(
    alloc: Global,
    table: &Table,
    vals: &[SymVal],
    number: u16,
    columns: &[Column],
    state: &mut State<'_>,
) -> Result<List<(u16, SymWrite)>, NoMemory>
    requires { number + length columns.now ≤ 16 }
    ensures way { OnOk result (way_of state.new ≡ inserts_way (declaration_of table.now) number columns.now (way_of state.old)) }
    ensures told { IfOk result (λ ws. DrawsFrom state.old state.new
        (draw_inserts (declaration_of table.now) (syms_of vals.now) number columns.now (sketch_of state.old)) (writes_of ws)) }
{
    match columns {
        [] => Ok(List::new(alloc)),
        [first, rest @ ..] => {
            if is_key_column(&table.key, number) {
                return insert_writes(alloc, table, vals, number + 1, rest, state);
            }
            let val = val_at(alloc, vals, number)?;
            let grows = is_grow_only(table.kind);
            let write = insert(alloc, grows, first.merge, val, state)?;
            let writes = insert_writes(alloc, table, vals, number + 1, rest, state)?;
            let all = prepend((number, write), writes)?;
            Ok(all)
        }
    }
}

/// The writes of a row whose key is drawn, to the columns but the key from one on: a value for each.
pub fn first_writes(
    alloc: Global,
    table: &Table,
    number: u16,
    columns: &[Column],
    vals: &[SymVal],
) -> Result<List<(u16, SymWrite)>, NoMemory>
    requires { number + length columns.now ≤ 16 }
    ensures { IfOk result (λ ws. writes_of ws ≡ first_writes (outside_key (declaration_of table.now) number columns.now) (syms_of vals.now)) }
{
    match columns {
        [] => Ok(List::new(alloc)),
        [column, rest @ ..] => {
            if is_key_column(&table.key, number) {
                return first_writes(alloc, table, number + 1, rest, vals);
            }
            match vals {
                [] => Ok(List::new(alloc)),
                [val, later @ ..] => {
                    let writes = first_writes(alloc, table, number + 1, rest, later)?;
                    let val = copied(alloc, val)?;
                    prepend((number, first_write(alloc, column.merge, val)), writes)
                }
            }
        }
    }
}
