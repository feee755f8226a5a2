//! The cells and the mark that held changes leave of a row.

ghost use Rattle.std.specs.Prelude.{◌≡◌, ◌≤◌, ◌*◌, ◌^◌, ◌+ℤ◌, length, map};
ghost use Rattle.sv_effect.specs.StampedTables.{zero_stamp};
ghost use Rattle.sv_effect.specs.Fits.{IsNarrow};
ghost use Rattle.sv_effect.specs.RowChange.{later, turn_of};
ghost use Rattle.sv_effect.specs.TablesOfCut.{
  number_in,
  delta_of,
  sum_of,
  set_by,
  sets_of,
  turn_by,
  turns_of,
  greatest,
  last,
  started,
};
ghost use Rattle.sv_plain.specs.Held.{change_of, write_of, val_of, mark_of, IsWithin};

use crate::changes::{HeldChange, HeldWrite};
use sv_app::Act;
use sv_effect::Write;
use sv_value::{Stamp, Val};

/// A value, with the stamp of the change that set it.
#[derive(Clone, Copy)]
pub struct HeldVal {
    pub val: Val,
    pub stamp: Stamp,
}

/// A mark, with the stamp of the change that turned it.
#[derive(Clone, Copy)]
pub struct HeldMark {
    pub on: bool,
    pub stamp: Stamp,
}

/// The stamp of what was there from the start.
pub fn zero_stamp() -> Stamp
    ensures { result ≡ zero_stamp }
{
    Stamp {
        time: 0,
        site: 0,
        place: 0,
    }
}

/// A value as a number; a text counts as zero.
fn number_in(val: &Val) -> i64
    ensures { result ≡ number_in val.now }
{
    match val {
        Val::Int(number) => *number,
        Val::Text(_) => 0,
    }
}

fn delta_of(write: &Write) -> i64
    ensures { result ≡ delta_of write.now }
{
    match write {
        Write::Delta(delta) => *delta,
        Write::Set(_) => 0,
    }
}

/// What the writes add.
fn sum_of(writes: &[HeldWrite]) -> i128
    ensures value { result ≡ sum_of (map write_of writes.now) }
    ensures bounded { IsWithin (length writes.now * 2 ^ 63) result }
{
    let mut sum: i128 = 0;
    for held in writes {
        sum += delta_of(&held.write) as i128;
    }
    sum
}

/// A counter: its value from the start, and what the writes add.
pub fn count_of(first: &Val, writes: &[HeldWrite]) -> i128
    requires { length writes.now ≤ 2 ^ 20 }
    ensures value { result ≡ (number_in first.now +ℤ sum_of (map write_of writes.now)) }
    ensures narrow { IsNarrow result }
{
    number_in(first) as i128 + sum_of(writes)
}

/// The one of the greater stamp.
fn later_val(old: HeldVal, new: HeldVal) -> HeldVal
    ensures { val_of result ≡ later (val_of old) (val_of new) }
{
    if old.stamp.cmp(&new.stamp).is_lt() {
        new
    } else {
        old
    }
}

fn later_mark(old: HeldMark, new: HeldMark) -> HeldMark
    ensures { mark_of result ≡ later (mark_of old) (mark_of new) }
{
    if old.stamp.cmp(&new.stamp).is_lt() {
        new
    } else {
        old
    }
}

fn greatest_with(old: HeldVal, held: &HeldWrite) -> HeldVal
    ensures { val_of result ≡ greatest (val_of old) (set_by held.now.write held.now.stamp) }
{
    match held.write {
        Write::Set(val) => later_val(
            old,
            HeldVal {
                val,
                stamp: held.stamp,
            },
        ),
        Write::Delta(_) => old,
    }
}

fn last_with(old: HeldVal, held: &HeldWrite) -> HeldVal
    ensures { val_of result ≡ last (val_of old) (set_by held.now.write held.now.stamp) }
{
    match held.write {
        Write::Set(val) => HeldVal {
            val,
            stamp: held.stamp,
        },
        Write::Delta(_) => old,
    }
}

/// The value of the greatest stamp that these writes set, or that was there from the start.
pub fn greatest_set(first: Val, writes: &[HeldWrite]) -> HeldVal
    ensures { val_of result ≡ greatest (started first) (sets_of (map write_of writes.now)) }
{
    let mut greatest = HeldVal {
        val: first,
        stamp: zero_stamp(),
    };
    for held in writes {
        greatest = greatest_with(greatest, held);
    }
    greatest
}

/// The value that the last of these writes set that sets one, or that was there from the start.
pub fn last_set(first: Val, writes: &[HeldWrite]) -> HeldVal
    ensures { val_of result ≡ last (started first) (sets_of (map write_of writes.now)) }
{
    let mut last = HeldVal {
        val: first,
        stamp: zero_stamp(),
    };
    for held in writes {
        last = last_with(last, held);
    }
    last
}

/// How a change turns the mark: on by an insert, off by a remove.
fn turn_of(act: Act) -> Option<bool>
    ensures { result ≡ turn_of act }
{
    match act {
        Act::Insert | Act::Fresh => Some(true),
        Act::Update => None,
        Act::Remove => Some(false),
    }
}

fn greatest_turned(old: HeldMark, change: &HeldChange<'_>) -> HeldMark
    ensures { mark_of result ≡ greatest (mark_of old) (turn_by (turn_of change.now.effect.now.act) change.now.stamp) }
{
    match turn_of(change.effect.act) {
        Some(on) => later_mark(
            old,
            HeldMark {
                on,
                stamp: change.stamp,
            },
        ),
        None => old,
    }
}

fn last_turned(old: HeldMark, change: &HeldChange<'_>) -> HeldMark
    ensures { mark_of result ≡ last (mark_of old) (turn_by (turn_of change.now.effect.now.act) change.now.stamp) }
{
    match turn_of(change.effect.act) {
        Some(on) => HeldMark {
            on,
            stamp: change.stamp,
        },
        None => old,
    }
}

/// The mark of the greatest stamp to which these changes turned it, or that was there from the start.
pub fn greatest_mark(first: bool, changes: &[HeldChange<'_>]) -> HeldMark
    ensures { mark_of result ≡ greatest (started first) (turns_of (map change_of changes.now)) }
{
    let mut greatest = HeldMark {
        on: first,
        stamp: zero_stamp(),
    };
    for change in changes {
        greatest = greatest_turned(greatest, change);
    }
    greatest
}

/// The mark to which the last of these changes turned it that turns it, or that was there from the start.
pub fn last_mark(first: bool, changes: &[HeldChange<'_>]) -> HeldMark
    ensures { mark_of result ≡ last (started first) (turns_of (map change_of changes.now)) }
{
    let mut last = HeldMark {
        on: first,
        stamp: zero_stamp(),
    };
    for change in changes {
        last = last_turned(last, change);
    }
    last
}
