ghost use Rattle.std.specs.Prelude.{◌≡◌, ◌≤◌, ◌+◌, ◌==◌, [], length, IfOk, IfSome, map, drop, if◌then◌else◌};
ghost use Rattle.sv_value.specs.declared.values.Key.{Key as KeyValue};
ghost use Rattle.sv_app.specs.Schema.{declaration_of};
ghost use Rattle.sv_app.specs.Slots.{item};
ghost use Rattle.sv_app.specs.Symbols.{is_key_column};
ghost use Rattle.sv_app.specs.Trees.{terms_of};
ghost use Rattle.sv_app.specs.Kinds.{is_grow_only};
ghost use Rattle.sv_effect.specs.BareTables.{got_of};
ghost use Rattle.sv_effect.specs.RowChange.{zero_of, key_values, from_key, values_from, zero_values};
ghost use Rattle.sv_effect.specs.RunChanges.{writes_at, in_order, kept_to, insert_of, inserts};
ghost use Rattle.sv_effect.specs.RunChanges.{first_write, outside_key, writes_of_columns, key_of, key_in, second_of};
ghost use Rattle.sv_effect.specs.RunValues.{column, val_of, nothing, values_of};
ghost use Rattle.sv_effect.specs.TablesOfCut.{number_in};
ghost use Rattle.sv_interp.specs.Machine.{scope_of, evaluated, listed};

use crate::scopes::Scope;
use crate::values::{number_in, val_of, value};
use crate::writes::delta_to;
use std::alloc::Global;
use sv_app::{Column, Expr, Got, Ident, Kind, Merge, Table};
use sv_effect::{Write, column, prepend};
use sv_value::{Key, List, NoMemory, Val};

/// The values of expressions, from left to right; none where an integer leaves 64 bits.
pub fn values(
    alloc: Global,
    exprs: &[Expr],
    scope: &mut Scope,
) -> Result<Option<List<Val>>, NoMemory>
    ensures { IfOk result (λ vs. values_of (terms_of exprs.now) (scope_of scope.old) ≡ evaluated vs scope.new) }
{
    match exprs {
        [] => Ok(Some(List::new(alloc))),
        [expr, rest @ ..] => {
            let Some(val) = value(expr, scope)? else {
                return Ok(None);
            };
            let Some(vals) = values(alloc, rest, scope)? else {
                return Ok(None);
            };
            Ok(Some(prepend(val, vals)?))
        }
    }
}

/// The key of one or two values.
pub fn key_of(vals: &[Val]) -> Key
    ensures { result ≡ key_of vals.now }
{
    match vals {
        [] => Key {
            first: Val::Int(0),
            second: None,
        },
        [first] => Key {
            first: *first,
            second: None,
        },
        [first, second, ..] => Key {
            first: *first,
            second: Some(*second),
        },
    }
}

fn val_at(vals: &[Val], number: u16) -> Val
    ensures { result ≡ item nothing vals.now number }
{
    match vals.get(number as usize) {
        Some(val) => *val,
        None => Val::Int(0),
    }
}

fn key_parts(alloc: Global, key: &[Ident], vals: &[Val]) -> Result<List<Val>, NoMemory>
    ensures { IfOk result (λ parts. parts ≡ map (λ name. item nothing vals.now name.num) key.now) }
{
    match key {
        [] => Ok(List::new(alloc)),
        [name, rest @ ..] => {
            let parts = key_parts(alloc, rest, vals)?;
            prepend(val_at(vals, name.num), parts)
        }
    }
}

/// The key of a row with these values.
pub fn key_in(alloc: Global, key: &[Ident], vals: &[Val]) -> Result<Key, NoMemory>
    ensures { IfOk result (λ k. k ≡ key_in key.now vals.now) }
{
    let parts = key_parts(alloc, key, vals)?;
    Ok(key_of(parts.items()))
}

fn is_key_column(key: &[Ident], number: u16) -> bool
    ensures { result ≡ is_key_column key.now number }
{
    key.iter().any(|name| name.num == number)
}

fn write_at(number: u16, writes: &[(u16, Write)]) -> Option<(u16, Write)>
    ensures { listed result ≡ writes_at number writes.now }
{
    match writes {
        [] => None,
        [write, rest @ ..] => {
            if write.0 == number {
                Some(*write)
            } else {
                write_at(number, rest)
            }
        }
    }
}

/// The write to a column outside the key.
fn write_outside(key: &[Ident], number: u16, writes: &[(u16, Write)]) -> Option<(u16, Write)>
    ensures { listed result ≡ (if is_key_column key.now number then [] else writes_at number writes.now) }
{
    if is_key_column(key, number) {
        return None;
    }
    write_at(number, writes)
}

/// The writes in the order of the columns, from one on.
pub fn in_order(
    alloc: Global,
    table: &Table,
    number: u16,
    columns: &[Column],
    writes: &[(u16, Write)],
) -> Result<List<(u16, Write)>, NoMemory>
    requires { number + length columns.now ≤ 16 }
    ensures writes { IfOk result (λ ws. ws ≡ in_order (declaration_of table.now) number columns.now writes.now) }
    ensures few { IfOk result (λ ws. length ws ≤ length columns.now) }
{
    match columns {
        [] => Ok(List::new(alloc)),
        [_, rest @ ..] => {
            let later = in_order(alloc, table, number + 1, rest, writes)?;
            match write_outside(&table.key, number, writes) {
                Some(write) => prepend(write, later),
                None => Ok(later),
            }
        }
    }
}

fn kept_to(new: &Val, kept: &Got, scope: &mut Scope) -> Result<Option<Write>, NoMemory>
    ensures { IfOk result (λ w. kept_to new.now (val_of kept.now) (scope_of scope.old) ≡ evaluated w scope.new) }
{
    let Some(old) = val_of(*kept) else {
        return Ok(None);
    };
    scope.progress.put(&old)?;
    Ok(delta_to(new, &old))
}

/// How an insert writes a column.
fn insert_of(
    grows: bool,
    merge: Merge,
    val: &Val,
    kept: &Got,
    scope: &mut Scope,
) -> Result<Option<Write>, NoMemory>
    ensures { IfOk result (λ w. insert_of grows merge val.now kept.now (scope_of scope.old) ≡ evaluated w scope.new) }
{
    match merge {
        Merge::NumDelta => {
            if grows {
                Ok(Some(Write::Delta(number_in(val))))
            } else {
                kept_to(val, kept, scope)
            }
        }
        Merge::Plain | Merge::Lww | Merge::Fresh => Ok(Some(Write::Set(*val))),
    }
}

/// Whether rows of such a table are never removed.
pub fn is_grow_only(kind: Kind) -> bool
    ensures { result ≡ is_grow_only kind }
{
    match kind {
        Kind::Aoset | Kind::Uoset | Kind::Auset => true,
        Kind::Plain | Kind::Arset => false,
    }
}

/// The writes of an insert to the columns from one on; none where a number leaves 64 bits.
pub fn inserts(
    alloc: Global,
    table: &Table,
    vals: &[Val],
    kept: &[Got],
    number: u16,
    columns: &[Column],
    scope: &mut Scope,
) -> Result<Option<List<(u16, Write)>>, NoMemory>
    requires { number + length columns.now ≤ 16 }
    ensures writes { IfOk result (λ ws. inserts (declaration_of table.now) vals.now kept.now number columns.now (scope_of scope.old) ≡ evaluated ws scope.new) }
    ensures few { IfOk result (λ ws. IfSome ws (λ ws. length ws ≤ length columns.now)) }
{
    match columns {
        [] => Ok(Some(List::new(alloc))),
        [first, rest @ ..] => {
            let next = number + 1;
            if is_key_column(&table.key, number) {
                return inserts(alloc, table, vals, kept, next, rest, scope);
            }
            let grows = is_grow_only(table.kind);
            let val = val_at(vals, number);
            let Some(write) = insert_of(grows, first.merge, &val, &column(kept, number), scope)?
            else {
                return Ok(None);
            };
            let Some(writes) = inserts(alloc, table, vals, kept, next, rest, scope)? else {
                return Ok(None);
            };
            Ok(Some(prepend((number, write), writes)?))
        }
    }
}

/// What a value writes into a row that wasn't there.
fn first_write(merge: Merge, val: &Val) -> Write
    ensures { result ≡ first_write merge val.now }
{
    match merge {
        Merge::NumDelta => Write::Delta(number_in(val)),
        Merge::Plain | Merge::Lww | Merge::Fresh => Write::Set(*val),
    }
}

/// The writes of a row whose key is drawn, to the columns but the key from one on: a value for each.
pub fn drawn_writes(
    alloc: Global,
    table: &Table,
    number: u16,
    columns: &[Column],
    vals: &[Val],
) -> Result<List<(u16, Write)>, NoMemory>
    requires { number + length columns.now ≤ 16 }
    ensures writes { IfOk result (λ ws. ws ≡ writes_of_columns (outside_key (declaration_of table.now) number
        columns.now) vals.now) }
    ensures few { IfOk result (λ ws. length ws ≤ length columns.now) }
{
    match columns {
        [] => Ok(List::new(alloc)),
        [column, rest @ ..] => {
            if is_key_column(&table.key, number) {
                return drawn_writes(alloc, table, number + 1, rest, vals);
            }
            match vals {
                [] => Ok(List::new(alloc)),
                [val, later @ ..] => {
                    let writes = drawn_writes(alloc, table, number + 1, rest, later)?;
                    prepend((number, first_write(column.merge, val)), writes)
                }
            }
        }
    }
}
