ghost use Rattle.std.specs.Prelude.{◌≡◌, ◌≤◌, ◌<◌, ◌-◌, map, true, false, Some, None};
ghost use Rattle.sv_app.specs.Trees.{command_of};
ghost use Rattle.sv_reader.specs.Reading.{Reads};
ghost use Rattle.sv_txn_reader.specs.Reading.{head_at, may_begin, with_head, if_at, else_at, for_at, each_at, loop_at, statement_step, goes_on, inside_at, block_at};
ghost use Rattle.sv_txn_reader.specs.Standing.{counts, plus};

use crate::beginnings::{head, may_begin};
use crate::conditions::cond;
use crate::counts::Counts;
use crate::heads::Head;
use crate::statements::{
    abort, assign, fresh, get, insert, let_statement, remove, reply, update, where_part,
};
use std::alloc::Global;
use sv_app::limits::{MOST_LOOPS, MOST_STATEMENTS};
use sv_app::{Stmt, each, if_else, rows};
use sv_lex::Mark;
use sv_reader::{ReadStop, Reader};

/// Whether a block goes on.
fn goes_on(reader: &Reader<'_>) -> bool
    ensures { result ≡ goes_on reader.now.rest.now }
{
    match reader.rest {
        [_, ..] => !reader.is_mark(Mark::RightBrace),
        [] => false,
    }
}

/// Reads the second block of an `if`, if one is written.
#[cycle(blocks)]
#[tactic(auto, unfolding(crate::specs::Reading::else_at))]
fn else_block(
    alloc: Global,
    reader: &mut Reader<'_>,
    counts: &mut Counts,
    looped: bool,
    room: usize,
) -> Result<Vec<Stmt>, ReadStop>
    requires { room < 8 }
    ensures { Reads (λ stmts. (map command_of stmts.items, counts.new)) result reader.new.rest.now (else_at (block_at room) looped counts.old reader.old.rest.now) }
{
    if reader.is_word(b"else") {
        reader.word(b"else")?;
        return block(alloc, reader, counts, looped, room);
    }
    Ok(Vec::new(alloc))
}

/// Reads an `if`.
#[cycle(blocks)]
#[tactic(auto, unfolding(crate::specs::Reading::if_at))]
fn if_statement(
    alloc: Global,
    reader: &mut Reader<'_>,
    counts: &mut Counts,
    looped: bool,
    room: usize,
) -> Result<Stmt, ReadStop>
    requires { room < 8 }
    ensures { Reads (λ stmt. (command_of stmt, counts.new)) result reader.new.rest.now (if_at (block_at room) looped counts.old reader.old.rest.now) }
{
    reader.word(b"if")?;
    let cond = cond(alloc, reader)?;
    let yes = block(alloc, reader, counts, looped, room)?;
    let no = else_block(alloc, reader, counts, looped, room)?;
    Ok(if_else(cond, yes, no))
}

/// Reads a loop over rows.
#[cycle(blocks)]
#[tactic(auto, unfolding(crate::specs::Reading::for_at))]
fn for_rows(
    alloc: Global,
    reader: &mut Reader<'_>,
    counts: &mut Counts,
    room: usize,
) -> Result<Stmt, ReadStop>
    requires { room < 8 }
    ensures { Reads (λ stmt. (command_of stmt, counts.new)) result reader.new.rest.now (for_at (block_at room) counts.old reader.old.rest.now) }
{
    reader.word(b"for")?;
    let row = reader.name()?;
    reader.word(b"in")?;
    let table = reader.name()?;
    let cond = where_part(alloc, reader)?;
    let body = block(alloc, reader, counts, true, room)?;
    Ok(rows(row, table, cond, body))
}

/// Reads a loop over a list.
#[cycle(blocks)]
#[tactic(auto, unfolding(crate::specs::Reading::each_at))]
fn for_each(
    alloc: Global,
    reader: &mut Reader<'_>,
    counts: &mut Counts,
    room: usize,
) -> Result<Stmt, ReadStop>
    requires { room < 8 }
    ensures { Reads (λ stmt. (command_of stmt, counts.new)) result reader.new.rest.now (each_at (block_at room) counts.old reader.old.rest.now) }
{
    reader.word(b"each")?;
    let var = reader.name()?;
    reader.word(b"in")?;
    let list = reader.name()?;
    let body = block(alloc, reader, counts, true, room)?;
    Ok(each(var, list, body))
}

/// Reads a loop over rows, if there is room for one more loop.
#[cycle(blocks)]
#[tactic(auto, unfolding(crate::specs::Reading::loop_at))]
fn counted_for(
    alloc: Global,
    reader: &mut Reader<'_>,
    counts: &mut Counts,
    room: usize,
) -> Result<Stmt, ReadStop>
    requires { room < 8 }
    ensures { Reads (λ stmt. (command_of stmt, counts.new)) result reader.new.rest.now (loop_at (for_at (block_at room)) counts.old reader.old.rest.now) }
{
    if counts.loops >= MOST_LOOPS {
        return Err(ReadStop::Faulty(reader.too_many()));
    }
    counts.loops += 1;
    for_rows(alloc, reader, counts, room)
}

/// Reads a loop over a list, if there is room for one more loop.
#[cycle(blocks)]
#[tactic(auto, unfolding(crate::specs::Reading::loop_at))]
fn counted_each(
    alloc: Global,
    reader: &mut Reader<'_>,
    counts: &mut Counts,
    room: usize,
) -> Result<Stmt, ReadStop>
    requires { room < 8 }
    ensures { Reads (λ stmt. (command_of stmt, counts.new)) result reader.new.rest.now (loop_at (each_at (block_at room)) counts.old reader.old.rest.now) }
{
    if counts.loops >= MOST_LOOPS {
        return Err(ReadStop::Faulty(reader.too_many()));
    }
    counts.loops += 1;
    for_each(alloc, reader, counts, room)
}

/// Reads a statement that begins with this.
#[cycle(blocks)]
fn statement(
    alloc: Global,
    reader: &mut Reader<'_>,
    counts: &mut Counts,
    looped: bool,
    room: usize,
    head: Option<Head>,
) -> Result<Stmt, ReadStop>
    requires { room < 8 }
    ensures { Reads (λ stmt. (command_of stmt, counts.new)) result reader.new.rest.now (with_head (block_at room) looped counts.old head reader.old.rest.now) }
{
    match head {
        Some(Head::Let) => let_statement(alloc, reader, counts),
        Some(Head::Assign) => assign(alloc, reader),
        Some(Head::Get) => get(alloc, reader),
        Some(Head::If) => if_statement(alloc, reader, counts, looped, room),
        Some(Head::For) => counted_for(alloc, reader, counts, room),
        Some(Head::Each) => counted_each(alloc, reader, counts, room),
        Some(Head::Insert) => insert(alloc, reader),
        Some(Head::Fresh) => fresh(alloc, reader, counts),
        Some(Head::Update) => update(alloc, reader),
        Some(Head::Remove) => remove(alloc, reader),
        Some(Head::Abort) => abort(reader),
        Some(Head::Reply) => reply(alloc, reader),
        None => Err(ReadStop::Faulty(reader.misplaced())),
    }
}

/// Reads one more statement, if there is room for it.
#[cycle(blocks)]
#[tactic(auto, unfolding(crate::specs::Reading::statement_step))]
fn add_statement(
    alloc: Global,
    reader: &mut Reader<'_>,
    counts: &mut Counts,
    looped: bool,
    room: usize,
    stmts: &mut Vec<Stmt>,
) -> Result<(), ReadStop>
    requires { room < 8 }
    ensures { Reads (λ _. (map command_of stmts.new.items, counts.new)) result reader.new.rest.now (statement_step (block_at room) looped (map command_of stmts.old.items, counts.old) reader.old.rest.now) }
{
    let head = head(reader);
    if !may_begin(looped, head) {
        return Err(ReadStop::Faulty(reader.misplaced()));
    }
    if counts.statements >= MOST_STATEMENTS {
        return Err(ReadStop::Faulty(reader.too_many()));
    }
    counts.statements += 1;
    let stmt = statement(alloc, reader, counts, looped, room, head)?;
    stmts.push(stmt)?;
    Ok(())
}

/// Reads the statements of a block, up to its brace; blocks nest so deep in it at most.
#[cycle(blocks)]
#[tactic(auto, unfolding(crate::specs::Reading::inside_at), using(crate::proofs::BlockRoomLaws::statements))]
fn inside(
    alloc: Global,
    reader: &mut Reader<'_>,
    counts: &mut Counts,
    looped: bool,
    room: usize,
) -> Result<Vec<Stmt>, ReadStop>
    requires { room < 8 }
    ensures { Reads (λ stmts. (map command_of stmts.items, counts.new)) result reader.new.rest.now (inside_at (block_at room) looped counts.old reader.old.rest.now) }
{
    let mut stmts = Vec::new(alloc);
    while goes_on(reader) {
        add_statement(alloc, reader, counts, looped, room, &mut stmts)?;
    }
    reader.mark(Mark::RightBrace)?;
    Ok(stmts)
}

/// Reads a block in which, with itself, blocks nest so deep at most.
#[cycle(blocks)]
#[tactic(auto, unfolding(crate::specs::Reading::braces_at), using(crate::proofs::BlockRoomLaws::block_read))]
pub fn block(
    alloc: Global,
    reader: &mut Reader<'_>,
    counts: &mut Counts,
    looped: bool,
    room: usize,
) -> Result<Vec<Stmt>, ReadStop>
    requires { room ≤ 8 }
    ensures { Reads (λ stmts. (map command_of stmts.items, counts.new)) result reader.new.rest.now (block_at room looped counts.old reader.old.rest.now) }
{
    if room == 0 {
        if reader.is_mark(Mark::LeftBrace) {
            return Err(ReadStop::Faulty(reader.too_many()));
        }
        return Err(ReadStop::Faulty(reader.misplaced()));
    }
    reader.mark(Mark::LeftBrace)?;
    inside(alloc, reader, counts, looped, room - 1)
}
