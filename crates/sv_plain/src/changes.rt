//! The changes that a cut holds of the row at a place, and the writes that they make to a column.

ghost use Rattle.std.specs.Prelude.{◌≡◌, ◌≤◌, ◌+◌, ◌*◌, ◌++◌, ◌∷◌, [], map, take, length, IfOk, OnOk};
ghost use Rattle.sv_value.specs.Cuts.{counts};
ghost use Rattle.sv_effect.specs.Applied.{changes_of};
ghost use Rattle.sv_effect.specs.Cut.{held};
ghost use Rattle.sv_effect.specs.TablesOfCut.{at_place, changes_by, changes_at, to_column, writes_to};
ghost use Rattle.sv_plain.specs.Held.{medium_of, change_of, write_of, all_at, AreShort};
ghost use Rattle.sv_plain.specs.Few.{FewChanges};

use std::alloc::Global;
use sv_app::Place;
use sv_effect::{Op, RowEffect, Write, is_place};
use sv_value::{Cut, NoMemory, Stamp};

/// A held change, with its stamp.
#[derive(Clone, Copy)]
pub struct HeldChange<'a> {
    pub effect: &'a RowEffect,
    pub stamp: Stamp,
}

/// A held write, with the stamp of its change.
#[derive(Clone, Copy)]
pub struct HeldWrite {
    pub write: Write,
    pub stamp: Stamp,
}

/// Those of the operations of a list that are among its first so many.
pub fn held(published: &[Vec<Op>], origin: usize, count: u32) -> &[Op]
    ensures { result.now ≡ take count (medium_of (map (λ ops. ops.items) published.now) origin) }
{
    if origin >= published.len() {
        return &[];
    }
    let ops = published[origin].as_slice();
    &ops[..ops.len().min(count as usize)]
}

/// Appends the change if it is one of the row at the place.
fn put_change<'a>(
    changes: &mut Vec<HeldChange<'a>>,
    change: HeldChange<'a>,
    place: &Place,
) -> Result<(), NoMemory>
    ensures { OnOk result (map change_of changes.new.items ≡ map change_of changes.old.items ++ at_place place.now
        (change_of change.entry ∷ [])) }
{
    let own = Place {
        table: change.effect.table,
        key: change.effect.key,
    };
    if is_place(place, &own) {
        changes.push(change)?;
    }
    Ok(())
}

/// Appends the operation's changes of the row at the place.
fn put_changes_of<'a>(
    changes: &mut Vec<HeldChange<'a>>,
    op: &'a Op,
    place: &Place,
) -> Result<(), NoMemory>
    requires { length op.now.effects ≤ 65536 }
    ensures { OnOk result (map change_of changes.new.items ≡ map change_of changes.old.items ++ at_place place.now
        (changes_of op.now)) }
{
    let effects = op.effects.items();
    for (number, effect) in effects.iter().enumerate() {
        let stamp = Stamp {
            time: op.time,
            site: op.site.number(),
            place: number as u16,
        };
        put_change(changes, HeldChange { effect, stamp }, place)?;
    }
    Ok(())
}

/// Appends the operations' changes of the row at the place.
fn put_changes<'a>(
    changes: &mut Vec<HeldChange<'a>>,
    ops: &'a [Op],
    place: &Place,
) -> Result<(), NoMemory>
    requires { AreShort ops.now }
    ensures { OnOk result (map change_of changes.new.items ≡ map change_of changes.old.items ++ at_place place.now
        (changes_by ops.now)) }
{
    for op in ops {
        put_changes_of(changes, op, place)?;
    }
    Ok(())
}

/// The changes of the row at the place that the cut holds of the reds.
pub fn red_changes<'a>(
    alloc: Global,
    published: &'a [Vec<Op>],
    cut: &Cut,
    place: &Place,
) -> Result<Vec<HeldChange<'a>>, NoMemory>
    requires { FewChanges (map (λ ops. ops.items) published.now) }
    ensures { IfOk result (λ changes. map change_of changes.items ≡ changes_at place.now (held (medium_of (map (λ
        ops. ops.items) published.now)) (counts cut.now)) 0) }
{
    let mut changes = Vec::new(alloc);
    put_changes(&mut changes, held(published, 0, cut.reds), place)?;
    Ok(changes)
}

/// The changes of the row at the place that the cut holds, first the reds and then those of each site.
pub fn all_changes<'a>(
    alloc: Global,
    published: &'a [Vec<Op>],
    cut: &Cut,
    place: &Place,
) -> Result<Vec<HeldChange<'a>>, NoMemory>
    requires { FewChanges (map (λ ops. ops.items) published.now) }
    ensures { IfOk result (λ changes. map change_of changes.items ≡ all_at place.now (held (medium_of (map (λ ops.
        ops.items) published.now)) (counts cut.now))) }
{
    let mut changes = red_changes(alloc, published, cut, place)?;
    for site in 0..8usize {
        put_changes(
            &mut changes,
            held(published, site + 1, cut.blue[site]),
            place,
        )?;
    }
    Ok(changes)
}

/// What the cut holds of the row at a place: the changes of the reds, and those of all lists, the reds first.
#[derive(Drop)]
pub struct Gathered<'a> {
    pub reds: Vec<HeldChange<'a>>,
    pub all: Vec<HeldChange<'a>>,
}

/// Appends the write if it is one to the column.
fn put_write(
    writes: &mut Vec<HeldWrite>,
    column: usize,
    number: u16,
    held: &HeldWrite,
) -> Result<(), NoMemory>
    ensures value { OnOk result (map write_of writes.new.items ≡ map write_of writes.old.items ++ to_column column
        held.now.stamp ((number, held.now.write) ∷ [])) }
    ensures few { OnOk result (length writes.new.items ≤ length writes.old.items + 1) }
{
    if number as usize != column {
        return Ok(());
    }
    let stamp = held.stamp;
    let write = match held.write {
        Write::Delta(delta) => Write::Delta(delta),
        Write::Set(val) => Write::Set(val),
    };
    writes.push(HeldWrite { write, stamp })?;
    Ok(())
}

/// Appends the writes that the change makes to the column.
fn put_writes(
    writes: &mut Vec<HeldWrite>,
    column: usize,
    change: &HeldChange<'_>,
) -> Result<(), NoMemory>
    ensures value { OnOk result (map write_of writes.new.items ≡ map write_of writes.old.items ++ to_column column
        change.now.stamp change.now.effect.now.writes.items) }
    ensures few { OnOk result (length writes.new.items ≤ length writes.old.items + 16) }
{
    for (number, write) in change.effect.writes.as_slice() {
        let held = HeldWrite {
            write: *write,
            stamp: change.stamp,
        };
        put_write(writes, column, *number, &held)?;
    }
    Ok(())
}

/// The writes that the changes make to the column.
pub fn writes_to(
    alloc: Global,
    column: usize,
    changes: &[HeldChange<'_>],
) -> Result<Vec<HeldWrite>, NoMemory>
    ensures value { IfOk result (λ writes. map write_of writes.items ≡ writes_to column (map change_of changes.now)) }
    ensures few { IfOk result (λ writes. length writes.items ≤ 16 * length changes.now) }
{
    let mut writes = Vec::new(alloc);
    for change in changes {
        put_writes(&mut writes, column, change)?;
    }
    Ok(writes)
}
