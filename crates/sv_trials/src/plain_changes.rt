use crate::halts::{End, Halted};
use crate::plain_rows::{PlainRow, find, find_present, put};
use crate::plain_states::{Machine, Origin, column as column_of, narrow};
use crate::plain_values::{difference, key_of, value, values};
use arrayvec::ArrayVec;
use std::alloc::Global;
use sv_app::{Act, Column, Expr, Got, Ident, Kind, Merge, Place, Table, Ty};
use sv_effect::{RowEffect, Write};
use sv_value::{NoMemory, Text, Val};

/// The most changes of a run.
const MOST_CHANGES: usize = 64;

/// Whether the rows of such tables are never removed.
pub fn is_grow_only(kind: Kind) -> bool {
    matches!(kind, Kind::Aoset | Kind::Uoset | Kind::Auset)
}

/// Whether the key has a value of that column.
pub fn is_key_column(table: &Table, col: u16) -> bool {
    for name in &table.key {
        if name.num == col {
            return true;
        }
    }
    false
}

/// What a row shows of a value.
pub fn got_of(val: &Val) -> Got {
    match val {
        Val::Int(number) => Got::Num(*number as i128),
        Val::Text(text) => Got::Text(*text),
    }
}

fn zero_of(column: &Column) -> Got {
    match (column.ty, Text::new(b"")) {
        (Ty::Text, Some(text)) => Got::Text(text),
        _ => Got::Num(0),
    }
}

fn column_number(at: usize) -> Result<u16, NoMemory> {
    match u16::try_from(at) {
        Ok(number) => Ok(number),
        Err(_) => Err(NoMemory),
    }
}

fn val_at(vals: &[Val], col: u16) -> Val {
    match vals.get(col as usize) {
        Some(val) => *val,
        None => Val::Int(0),
    }
}

fn added(got: &Got, delta: i64) -> Got {
    match got {
        Got::Num(number) => match number.checked_add(delta as i128) {
            Some(sum) => Got::Num(sum),
            None => Got::Num(*number),
        },
        Got::Text(text) => Got::Text(*text),
    }
}

fn written(got: &Got, write: &Write) -> Got {
    match write {
        Write::Delta(delta) => added(got, *delta),
        Write::Set(val) => got_of(val),
    }
}

fn carried(writes: &[(u16, Write)]) -> Result<ArrayVec<(u16, Write), 16>, Halted> {
    let mut carried = ArrayVec::new();
    for write in writes {
        if carried.try_push(*write).is_err() {
            return Err(Halted::NoMemory);
        }
    }
    Ok(carried)
}

/// The values after the writes.
fn write_all(values: &mut Vec<Got>, writes: &[(u16, Write)]) {
    for (col, write) in writes {
        let at = *col as usize;
        if at < values.len() {
            values[at] = written(&values[at], write);
        }
    }
}

/// Makes a change: the row is kept with its values and these writes.
fn change(
    machine: &mut Machine,
    act: Act,
    row: PlainRow,
    writes: &[(u16, Write)],
) -> Result<(), Halted> {
    if machine.effects.len() >= MOST_CHANGES {
        return Err(Halted::Ended(End::TooLarge));
    }
    let PlainRow {
        place,
        mut values,
        present,
    } = row;
    write_all(&mut values, writes);
    let number = machine.progress.number;
    machine
        .effects
        .push(effect_of(&place, act, carried(writes)?, number))?;
    put(
        &mut machine.rows,
        PlainRow {
            place,
            values,
            present,
        },
    )?;
    Ok(())
}

fn effect_of(
    place: &Place,
    act: Act,
    writes: ArrayVec<(u16, Write), 16>,
    instance: u32,
) -> RowEffect {
    RowEffect {
        table: place.table,
        key: place.key,
        act,
        writes,
        instance,
    }
}

/// The key that the values of all columns give.
fn key_values(alloc: Global, table: &Table, vals: &[Val]) -> Result<Vec<Val>, NoMemory> {
    let mut keys = Vec::new(alloc);
    for name in &table.key {
        keys.push(val_at(vals, name.num))?;
    }
    Ok(keys)
}

/// The values of a row that nothing was written to, with the key of these values.
fn zero_values(alloc: Global, table: &Table, vals: &[Val]) -> Result<Vec<Got>, NoMemory> {
    let mut gots = Vec::new(alloc);
    for (at, column) in table.columns.iter().enumerate() {
        let col = column_number(at)?;
        if is_key_column(table, col) {
            gots.push(got_of(&val_at(vals, col)))?;
        } else {
            gots.push(zero_of(column))?;
        }
    }
    Ok(gots)
}

/// What an insert writes to the columns outside the key, where these values are kept.
fn insert_writes(
    alloc: Global,
    machine: &mut Machine,
    table: &Table,
    vals: &[Val],
    kept: &[Got],
) -> Result<Vec<(u16, Write)>, Halted> {
    let mut writes = Vec::new(alloc);
    for (at, column) in table.columns.iter().enumerate() {
        let col = column_number(at)?;
        if is_key_column(table, col) {
            continue;
        }
        let val = val_at(vals, col);
        if column.merge != Merge::NumDelta {
            writes.push((col, Write::Set(val)))?;
        } else if is_grow_only(table.kind) {
            writes.push((col, Write::Delta(difference(&val, &Val::Int(0))?)))?;
        } else {
            let before = narrow(&column_of(kept, col))?;
            machine.bring_new(&before)?;
            writes.push((col, Write::Delta(difference(&val, &before)?)))?;
        }
    }
    Ok(writes)
}

/// Inserts a row, where none is present.
pub fn insert(
    alloc: Global,
    machine: &mut Machine,
    table: &Table,
    number: u16,
    exprs: &[Expr],
) -> Result<(), Halted> {
    let vals = values(alloc, machine, exprs)?;
    let place = Place {
        table: number,
        key: key_of(&key_values(alloc, table, &vals)?),
    };
    let kept = match find(&machine.rows, &place) {
        None => zero_values(alloc, table, &vals)?,
        Some(row) => {
            if row.present {
                return Err(Halted::Ended(End::Exists));
            }
            Vec::from_slice(alloc, &row.values)?
        }
    };
    let writes = insert_writes(alloc, machine, table, &vals, &kept)?;
    let row = PlainRow {
        place,
        values: kept,
        present: true,
    };
    change(machine, Act::Insert, row, &writes)
}

/// The next key that is drawn: the first, and one more for each key that the run drew.
fn next_key(machine: &Machine) -> Result<Val, Halted> {
    let mut key = machine.first;
    for effect in machine.effects.items() {
        if effect.act == Act::Fresh {
            key = key.checked_add(1).ok_or(Halted::NoMemory)?;
        }
    }
    Ok(Val::Int(key))
}

/// The values of all columns: the key in its own, and these in the others.
fn with_key(alloc: Global, table: &Table, key: &Val, vals: &[Val]) -> Result<Vec<Val>, NoMemory> {
    let mut whole = Vec::from_slice(alloc, vals)?;
    let at = match table.key.as_slice() {
        [name, ..] => name.num as usize,
        [] => 0,
    };
    whole.insert(at.min(vals.len()), *key)?;
    Ok(whole)
}

/// What is written into a row that wasn't there.
fn first_writes(alloc: Global, table: &Table, vals: &[Val]) -> Result<Vec<(u16, Write)>, Halted> {
    let mut writes = Vec::new(alloc);
    for (at, column) in table.columns.iter().enumerate() {
        let col = column_number(at)?;
        if is_key_column(table, col) {
            continue;
        }
        let val = val_at(vals, col);
        if column.merge == Merge::NumDelta {
            writes.push((col, Write::Delta(difference(&val, &Val::Int(0))?)))?;
        } else {
            writes.push((col, Write::Set(val)))?;
        }
    }
    Ok(writes)
}

/// Inserts a row under the next key that is drawn, where none is kept, and gives the variable that key.
pub fn fresh(
    alloc: Global,
    machine: &mut Machine,
    table: &Table,
    number: u16,
    var: u16,
    exprs: &[Expr],
) -> Result<(), Halted> {
    let given = values(alloc, machine, exprs)?;
    let key = next_key(machine)?;
    let place = Place {
        table: number,
        key: key_of(&[key]),
    };
    if find(&machine.rows, &place).is_some() {
        return Err(Halted::Ended(End::Exists));
    }
    let vals = with_key(alloc, table, &key, &given)?;
    let writes = first_writes(alloc, table, &vals)?;
    let row = PlainRow {
        place,
        values: zero_values(alloc, table, &vals)?,
        present: true,
    };
    change(machine, Act::Fresh, row, &writes)?;
    machine.bring_new(&key)?;
    machine.assign(var, key)?;
    Ok(())
}

/// The row of the place, which has to be present.
pub fn present_row(alloc: Global, machine: &Machine, place: &Place) -> Result<PlainRow, Halted> {
    match find_present(&machine.rows, place) {
        None => Err(Halted::Ended(End::NoRow)),
        Some(row) => Ok(PlainRow {
            place: row.place,
            values: Vec::from_slice(alloc, &row.values)?,
            present: true,
        }),
    }
}

fn is_counter(table: &Table, col: u16) -> bool {
    match table.columns.get(col as usize) {
        Some(column) => column.merge == Merge::NumDelta,
        None => false,
    }
}

/// The sets of an update, in the order in which they are evaluated.
fn sets_made(
    alloc: Global,
    machine: &mut Machine,
    table: &Table,
    sets: &[(Ident, Expr)],
) -> Result<Vec<(u16, Write)>, Halted> {
    let mut writes = Vec::new(alloc);
    for (name, expr) in sets {
        let val = value(machine, expr)?;
        if is_counter(table, name.num) {
            let before = machine.old_field(name.num)?;
            writes.push((name.num, Write::Delta(difference(&val, &before)?)))?;
        } else {
            writes.push((name.num, Write::Set(val)))?;
        }
    }
    Ok(writes)
}

/// The writes in the order of the columns.
fn in_order(
    alloc: Global,
    table: &Table,
    writes: &[(u16, Write)],
) -> Result<Vec<(u16, Write)>, NoMemory> {
    let mut ordered = Vec::new(alloc);
    for at in 0..table.columns.len() {
        for (col, write) in writes {
            if *col as usize == at {
                ordered.push((*col, *write))?;
            }
        }
    }
    Ok(ordered)
}

/// Sets columns of a row.
pub fn update(
    alloc: Global,
    machine: &mut Machine,
    table: &Table,
    number: u16,
    key: &[Expr],
    sets: &[(Ident, Expr)],
) -> Result<(), Halted> {
    let place = Place {
        table: number,
        key: key_of(&values(alloc, machine, key)?),
    };
    let row = present_row(alloc, machine, &place)?;
    machine.old = Vec::from_slice(alloc, &row.values)?;
    machine
        .progress
        .origins
        .retain(|origin| !matches!(origin, Origin::Old(_)));
    let sets = sets_made(alloc, machine, table, sets)?;
    let writes = in_order(alloc, table, &sets)?;
    change(machine, Act::Update, row, &writes)
}

/// Removes a row.
pub fn remove(
    alloc: Global,
    machine: &mut Machine,
    number: u16,
    key: &[Expr],
) -> Result<(), Halted> {
    let place = Place {
        table: number,
        key: key_of(&values(alloc, machine, key)?),
    };
    let mut row = present_row(alloc, machine, &place)?;
    row.present = false;
    change(machine, Act::Remove, row, &[])
}
