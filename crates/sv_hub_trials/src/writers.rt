ghost use Rattle.std.specs.Prelude.{◌≡◌, ◌<◌, Some, OnOk, slice_get};
ghost use Rattle.sv_hub.specs.Extends.{Extends};
ghost use Rattle.sv_hub.specs.Sight.{Belongs};

use crate::books::{Book, Line};
use std::sync::Wait;
use std::thread;
use std::thread::Threads;
use sv_hub::{Hub, Pass};
use sv_value::NoMemory;

/// Writes a line in a turn of its own. The pass has then seen it as the newest.
#[tactic(auto, using(sv_hub::proofs::ExtendsLaws::extending))]
pub fn write_in_turn<R: Wait>(
    rt: &R,
    hub: &Hub<Book>,
    pass: Pass<Book>,
    line: Line,
) -> (Pass<Book>, Result<(), NoMemory>)
    requires { Belongs hub.now pass }
    ensures own { Belongs hub.now result.0 }
    ensures seen { Extends result.0.seen pass.seen }
    ensures written { OnOk result.1 (slice_get result.0.seen 0 ≡ Some line) }
{
    let mut turn = hub.enter(rt, pass);
    let written = turn.value_mut().write(line);
    (hub.leave(turn), written)
}

/// Writes a line into two books, while both turns are held.
#[tactic(auto, using(sv_hub::proofs::ExtendsLaws::extending))]
pub fn write_in_both<R: Wait>(
    rt: &R,
    one: &Hub<Book>,
    other: &Hub<Book>,
    one_pass: Pass<Book>,
    other_pass: Pass<Book>,
    line: Line,
) -> (Pass<Book>, Pass<Book>)
    requires { Belongs one.now one_pass × Belongs other.now other_pass }
    ensures own { Belongs one.now result.0 × Belongs other.now result.1 }
    ensures one { Extends result.0.seen one_pass.seen }
    ensures other { Extends result.1.seen other_pass.seen }
{
    let mut first = one.enter(rt, one_pass);
    let mut second = other.enter(rt, other_pass);
    let _written = first.value_mut().write(line);
    let _written = second.value_mut().write(line);
    let one_pass = one.leave(first);
    (one_pass, other.leave(second))
}

/// Writes so many lines, each in a turn of its own.
#[tactic(auto, using(sv_hub::proofs::ExtendsLaws::extending))]
pub fn write_lines<R: Wait>(
    rt: &R,
    hub: &Hub<Book>,
    pass: Pass<Book>,
    writer: u8,
    count: u32,
) -> Pass<Book>
    requires { Belongs hub.now pass }
    ensures own { Belongs hub.now result }
    ensures seen { Extends result.seen pass.seen }
{
    let mut mine = pass;
    for number in 0..count {
        let (next, _written) = write_in_turn(rt, hub, mine, Line { writer, number });
        mine = next;
    }
    mine
}

/// Writes a line in a turn of its own, unless the newest is the writer's own, and says whether it did.
#[tactic(auto, using(sv_hub::proofs::ExtendsLaws::extending))]
fn write_behind_others<R: Wait>(
    rt: &R,
    hub: &Hub<Book>,
    pass: Pass<Book>,
    line: Line,
) -> (Pass<Book>, bool)
    requires { Belongs hub.now pass }
    ensures own { Belongs hub.now result.0 }
    ensures seen { Extends result.0.seen pass.seen }
{
    let mut turn = hub.enter(rt, pass);
    if turn.value().last_writer() == Some(line.writer) {
        return (hub.leave(turn), false);
    }
    let written = turn.value_mut().write(line).is_ok();
    (hub.leave(turn), written)
}

/// Writes so many lines, none behind one of its own. It gives up after ten million turns.
#[tactic(auto, using(sv_hub::proofs::ExtendsLaws::extending))]
fn write_alternating<R: Wait>(
    rt: &R,
    hub: &Hub<Book>,
    pass: Pass<Book>,
    writer: u8,
    count: u32,
) -> Pass<Book>
    requires { Belongs hub.now pass }
    ensures own { Belongs hub.now result }
    ensures seen { Extends result.seen pass.seen }
{
    let mut mine = pass;
    let mut number = 0;
    for _ in 0..10_000_000 {
        if number == count {
            break;
        }
        let (next, written) = write_behind_others(rt, hub, mine, Line { writer, number });
        mine = next;
        if written {
            number += 1;
        }
        thread::yield_now();
    }
    mine
}

/// Two writers in threads of their own.
fn two_writers<R: Threads + Wait + Sync>(
    rt: &R,
    hub: &Hub<Book>,
    pass: Pass<Book>,
    first: u8,
    count: u32,
) -> Pass<Book>
    requires { Belongs hub.now pass × (first < 255) }
    ensures { Belongs hub.now result }
{
    let (one, other) = hub.split(pass);
    let (one, other) = thread::join(
        rt,
        || -> Pass<Book>
            requires { Belongs hub.now one }
            ensures { Belongs hub.entry.now result }
        { write_lines(rt, hub, one, first, count) },
        || -> Pass<Book>
            requires { Belongs hub.now other × (first < 255) }
            ensures { Belongs hub.entry.now result }
        { write_lines(rt, hub, other, first + 1, count) },
    );
    hub.join(one, other)
}

/// Four writers in threads of their own, with the numbers 1 to 4.
pub fn four_writers<R: Threads + Wait + Sync>(
    rt: &R,
    hub: &Hub<Book>,
    pass: Pass<Book>,
    count: u32,
) -> Pass<Book>
    requires { Belongs hub.now pass }
    ensures { Belongs hub.now result }
{
    let (one, other) = hub.split(pass);
    let (one, other) = thread::join(
        rt,
        || -> Pass<Book>
            requires { Belongs hub.now one }
            ensures { Belongs hub.entry.now result }
        { two_writers(rt, hub, one, 1, count) },
        || -> Pass<Book>
            requires { Belongs hub.now other }
            ensures { Belongs hub.entry.now result }
        { two_writers(rt, hub, other, 3, count) },
    );
    hub.join(one, other)
}

/// Two writers in threads of their own, with the numbers 1 and 2, whose lines alternate.
pub fn alternating_writers<R: Threads + Wait + Sync>(
    rt: &R,
    hub: &Hub<Book>,
    pass: Pass<Book>,
    count: u32,
) -> Pass<Book>
    requires { Belongs hub.now pass }
    ensures { Belongs hub.now result }
{
    let (one, other) = hub.split(pass);
    let (one, other) = thread::join(
        rt,
        || -> Pass<Book>
            requires { Belongs hub.now one }
            ensures { Belongs hub.entry.now result }
        { write_alternating(rt, hub, one, 1, count) },
        || -> Pass<Book>
            requires { Belongs hub.now other }
            ensures { Belongs hub.entry.now result }
        { write_alternating(rt, hub, other, 2, count) },
    );
    hub.join(one, other)
}
