//! Values as they stand in a row, and the values of a row that isn't kept.

ghost use Rattle.std.specs.Prelude.{◌≡◌, ◌+◌, ◌<◌, ◌^◌, pos, ◌∷◌, length, map, OnOk, IfOk};
ghost use Rattle.sv_value.specs.declared.values.Key.{Key as KeyValue};
ghost use Rattle.sv_app.specs.declared.gots.Got.TheVariants as gots;
ghost use Rattle.sv_app.specs.Schema.{declaration_of};
ghost use Rattle.sv_app.specs.Slots.{with_item};
ghost use Rattle.sv_effect.specs.BareTables.{got_of};
ghost use Rattle.sv_effect.specs.RowChange.{zero_of, key_values, from_key, values_from, zero_values};
ghost use Rattle.sv_effect.specs.RunValues.{column};
ghost use Rattle.sv_effect.specs.Words.{IsWordVal, AreWordGots};

use std::alloc::Global;
use sv_app::{Column, Got, Ident, Table, Ty};
use sv_value::{Key, List, NoMemory, Text, Val};

/// A value as it stands in a row; an integer is of 64 bits.
pub fn got_of(val: &Val) -> Got
    ensures value { result ≡ got_of val.now }
    ensures word { IsWordVal val.now }
{
    match val {
        Val::Int(number) => Got::Num(*number as i128),
        Val::Text(text) => Got::Text(*text),
    }
}

/// The value of a column by its number; one that isn't there counts as zero.
pub fn column(row: &[Got], number: u16) -> Got
    ensures { result ≡ column row.now number }
{
    match row.get(number as usize) {
        Some(got) => *got,
        None => Got::Num(0),
    }
}

/// Puts a value at its number, with zeros before it where the row is shorter.
#[tactic(auto, using(crate::proofs::SlotLaws::slots))]
pub fn put_got(row: &mut Vec<Got>, number: u16, got: &Got) -> Result<(), NoMemory>
    ensures { OnOk result (row.new.items ≡ with_item (gots.Num (pos 0)) number got.now row.old.items) }
{
    let at = number as usize;
    while row.len() < at {
        row.push(Got::Num(0))?;
    }
    if at < row.len() {
        row[at] = *got;
    } else {
        row.push(*got)?;
    }
    Ok(())
}

/// The list with an item before it.
pub fn prepend<T: Drop>(first: T, rest: List<T>) -> Result<List<T>, NoMemory>
    ensures { IfOk result (λ list. list ≡ first ∷ rest) }
{
    let mut items = rest.into_vec();
    items.insert(0, first)?;
    Ok(List::from_vec(items))
}

/// The value of a column in a row that nothing was written to.
pub fn zero_of(ty: Ty) -> Val
    ensures { result ≡ zero_of ty }
{
    match ty {
        Ty::Text => match Text::new(&[]) {
            Some(text) => Val::Text(text),
            None => unreachable!(),
        },
        Ty::Int | Ty::Ints => Val::Int(0),
    }
}

fn from_key(names: &[Ident], parts: &[Val], number: usize, zero: &Val) -> Val
    ensures { result ≡ from_key names.now parts.now number zero.now }
{
    match names {
        [] => *zero,
        [name, names @ ..] => match parts {
            [] => *zero,
            [part, parts @ ..] => {
                if name.num as usize == number {
                    *part
                } else {
                    from_key(names, parts, number, zero)
                }
            }
        },
    }
}

#[tactic(auto, using(crate::proofs::WordLaws::words))]
fn zeros_from(
    alloc: Global,
    table: &Table,
    parts: &[Val],
    number: usize,
    columns: &[Column],
) -> Result<List<Got>, NoMemory>
    requires { number + length columns.now < 2 ^ 63 }
    ensures values { IfOk result (λ row. (key : KeyValue) → key_values key ≡ parts.now → row ≡ map got_of (values_from (declaration_of table.now) key number columns.now)) }
    ensures words { IfOk result (λ row. AreWordGots row) }
{
    match columns {
        [] => Ok(List::new(alloc)),
        [first, rest @ ..] => {
            let later = zeros_from(alloc, table, parts, number + 1, rest)?;
            let val = from_key(&table.key, parts, number, &zero_of(first.ty));
            prepend(got_of(&val), later)
        }
    }
}

/// The values of a key.
pub fn key_values(alloc: Global, key: &Key) -> Result<List<Val>, NoMemory>
    ensures { IfOk result (λ parts. key_values key.now ≡ parts) }
{
    let mut parts = List::new(alloc);
    parts.push(key.first)?;
    if let Some(second) = key.second {
        parts.push(second)?;
    }
    Ok(parts)
}

/// The values of a row that isn't kept: its key, and zeros; its integers are of 64 bits.
pub fn zeros(alloc: Global, table: &Table, key: &Key) -> Result<List<Got>, NoMemory>
    ensures values { IfOk result (λ row. row ≡ map got_of (zero_values (declaration_of table.now) key.now)) }
    ensures words { IfOk result (λ row. AreWordGots row) }
{
    let parts = key_values(alloc, key)?;
    zeros_from(alloc, table, parts.items(), 0, &table.columns)
}
