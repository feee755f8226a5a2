//! The published operations: nine lists, that of the reds and then that of each site, site 1 first.

ghost use Rattle.std.specs.Prelude.{◌≡◌, ◌<◌, ◌≤◌, ◌^◌, [], ℕ, map, take, length, slice_get, option_copied, Some, IfOk, OnOk};
ghost use Rattle.sv_value.specs.Cuts.{counts, number, origin};
ghost use Rattle.sv_effect.specs.Takes.{as_insert, inserts};
ghost use Rattle.sv_effect.specs.TablesOfCut.{all_to};
ghost use Rattle.sv_core.specs.Clock.{latest_in, latest_of};
ghost use Rattle.sv_core.specs.History.{with_news};
ghost use Rattle.sv_core.specs.Room.{changes_in, inserts_in};
ghost use Rattle.sv_plain.specs.Held.{medium_of};

use std::alloc::Global;
use sv_app::Act;
use sv_effect::{Op, RowEffect};
use sv_value::{Cut, NoMemory, Packet};

/// Nine lists without operations.
pub fn empty_lists(alloc: Global) -> Result<Vec<Vec<Op>>, NoMemory>
    ensures nine { IfOk result (λ lists. length lists.items ≡ 9) }
    ensures empty { IfOk result (λ lists. (o : ℕ) → medium_of (map (λ ops. ops.items) lists.items) o ≡ []) }
{
    let mut lists: Vec<Vec<Op>> = Vec::new(alloc);
    for _ in 0..9usize {
        lists.push(Vec::new(alloc))?;
    }
    Ok(lists)
}

/// The origin that the packet names.
fn origin_of(packet: &Packet) -> usize
    ensures value { result ≡ origin packet.now }
    ensures small { result < 9 }
{
    match packet {
        Packet::Blue { site, .. } => site.number() as usize,
        Packet::Red { .. } => 0,
    }
}

/// The number that the packet has in the list of its origin.
fn number_of(packet: &Packet) -> usize
    ensures { result ≡ number packet.now }
{
    match packet {
        Packet::Blue { seq, .. } => *seq as usize,
        Packet::Red { slot } => *slot as usize,
    }
}

/// Puts an operation at the end of the list that its packet names.
pub fn publish(lists: &mut Vec<Vec<Op>>, packet: &Packet, op: Op) -> Result<(), NoMemory>
    requires { length lists.old.items ≡ 9 }
    ensures nine { length lists.new.items ≡ 9 }
    ensures lists { OnOk result ((o : ℕ) → medium_of (map (λ ops. ops.items) lists.new.items) o ≡ with_news (Some (origin packet.now, op)) (medium_of (map (λ ops. ops.items) lists.old.items)) o) }
{
    lists[origin_of(packet)].push(op)?;
    Ok(())
}

/// The list of an origin.
pub fn list_of(lists: &[Vec<Op>], origin: usize) -> &[Op]
    ensures { result.now ≡ medium_of (map (λ ops. ops.items) lists.now) origin }
{
    if origin < lists.len() {
        lists[origin].as_slice()
    } else {
        &[]
    }
}

/// The operation that the packet names; `None` where it isn't published.
pub fn op_at<'a>(lists: &'a [Vec<Op>], packet: &Packet) -> Option<&'a Op>
    ensures { option_copied result ≡ slice_get (medium_of (map (λ ops. ops.items) lists.now) (origin packet.now)) (number packet.now) }
{
    list_of(lists, origin_of(packet)).get(number_of(packet))
}

/// The first so many operations of an origin.
fn held(lists: &[Vec<Op>], origin: usize, count: u32) -> &[Op]
    ensures { result.now ≡ take count (medium_of (map (λ ops. ops.items) lists.now) origin) }
{
    let ops = list_of(lists, origin);
    &ops[..(count as usize).min(ops.len())]
}

/// The greatest time of these operations; zero where there are none.
fn latest_of(ops: &[Op]) -> u64
    ensures { result ≡ latest_of ops.now }
{
    let mut latest = 0;
    for op in ops {
        latest = op.time.max(latest);
    }
    latest
}

/// The greatest time of the operations that the cut has.
pub fn latest_in(lists: &[Vec<Op>], cut: &Cut) -> u64
    ensures { result ≡ latest_in (medium_of (map (λ ops. ops.items) lists.now)) (counts cut.now) }
{
    let mut latest = latest_of(held(lists, 0, cut.reds));
    for site in 0..8usize {
        latest = latest_of(held(lists, site + 1, cut.blue[site])).max(latest);
    }
    latest
}

fn as_insert(act: Act) -> usize
    ensures value { result ≡ as_insert act }
    ensures few { result ≤ 1 }
{
    match act {
        Act::Insert | Act::Fresh => 1,
        Act::Update | Act::Remove => 0,
    }
}

/// How many of the changes insert a row.
pub fn inserts_of(effects: &[RowEffect]) -> usize
    ensures value { result ≡ inserts effects.now }
    ensures few { result ≤ length effects.now }
{
    match effects {
        [] => 0,
        [effect, rest @ ..] => as_insert(effect.act) + inserts_of(rest),
    }
}

/// How many rows the operations insert.
fn inserts_in(ops: &[Op]) -> usize
    requires { inserts_in ops.now < 2 ^ 32 }
    ensures { result ≡ inserts_in ops.now }
{
    match ops {
        [] => 0,
        [op, rest @ ..] => inserts_of(op.effects.items()) + inserts_in(rest),
    }
}

/// How many changes the operations make.
fn changes_in(ops: &[Op]) -> usize
    requires { changes_in ops.now < 2 ^ 32 }
    ensures { result ≡ changes_in ops.now }
{
    match ops {
        [] => 0,
        [op, rest @ ..] => op.effects.len() + changes_in(rest),
    }
}

/// How many rows all operations insert.
pub fn all_inserts(lists: &[Vec<Op>]) -> usize
    requires { inserts_in (all_to (medium_of (map (λ ops. ops.items) lists.now)) 9) < 2 ^ 32 }
    ensures { result ≡ inserts_in (all_to (medium_of (map (λ ops. ops.items) lists.now)) 9) }
{
    let mut count = 0;
    for origin in 0..9usize {
        count += inserts_in(list_of(lists, origin));
    }
    count
}

/// How many changes all operations make.
pub fn all_changes(lists: &[Vec<Op>]) -> usize
    requires { changes_in (all_to (medium_of (map (λ ops. ops.items) lists.now)) 9) < 2 ^ 32 }
    ensures { result ≡ changes_in (all_to (medium_of (map (λ ops. ops.items) lists.now)) 9) }
{
    let mut count = 0;
    for origin in 0..9usize {
        count += changes_in(list_of(lists, origin));
    }
    count
}
