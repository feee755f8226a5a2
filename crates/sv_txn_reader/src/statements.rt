ghost use Rattle.std.specs.Prelude.{◌≡◌, [], false};
ghost use Rattle.sv_app.specs.Trees.{command_of, test_of, block_of};
ghost use Rattle.sv_reader.specs.Reading.{Reads, token_at};
ghost use Rattle.sv_txn_reader.specs.Reading.{natural_of, is_large, variable_at, let_at, assign_at, get_at, insert_at, fresh_at, update_at, remove_at, abort_at, reply_at, where_at};
ghost use Rattle.std.specs.Option.{option_map};

use crate::conditions::cond;
use crate::counts::Counts;
use crate::terms::expr;
use crate::values::{index, listed, sets, setting, values};
use std::alloc::Global;
use sv_app::limits::{MOST_CODE, MOST_VARIABLES};
use sv_app::{Cond, Stmt};
use sv_lex::{Mark, Token, TokenKind};
use sv_reader::{ReadStop, Reader};

/// Counts one variable more, if there is room for it where its name comes next.
#[tactic(auto, unfolding(crate::specs::Reading::variable_at))]
fn variable(reader: &Reader<'_>, counts: &mut Counts) -> Result<(), ReadStop>
    ensures { Reads (λ _. counts.new) result reader.now.rest.now (variable_at counts.old reader.now.rest.now) }
{
    if !reader.is_name() {
        return Err(ReadStop::Faulty(reader.misplaced()));
    }
    if counts.variables >= MOST_VARIABLES {
        return Err(ReadStop::Faulty(reader.too_many()));
    }
    counts.variables += 1;
    Ok(())
}

/// Reads a declaration, if there is room for one more variable.
#[tactic(auto, unfolding(crate::specs::Reading::let_at))]
pub fn let_statement(
    alloc: Global,
    reader: &mut Reader<'_>,
    counts: &mut Counts,
) -> Result<Stmt, ReadStop>
    ensures { Reads (λ stmt. (command_of stmt, counts.new)) result reader.new.rest.now (let_at counts.old reader.old.rest.now) }
{
    reader.word(b"let")?;
    variable(reader, counts)?;
    let (var, value) = setting(alloc, reader)?;
    reader.mark(Mark::Semi)?;
    Ok(Stmt::Let { var, value })
}

/// Reads an assignment.
#[tactic(auto, unfolding(crate::specs::Reading::assign_at))]
pub fn assign(alloc: Global, reader: &mut Reader<'_>) -> Result<Stmt, ReadStop>
    ensures { Reads command_of result reader.new.rest.now (assign_at reader.old.rest.now) }
{
    let (var, value) = setting(alloc, reader)?;
    reader.mark(Mark::Semi)?;
    Ok(Stmt::Assign { var, value })
}

/// Reads what takes a row of a table.
#[tactic(auto, unfolding(crate::specs::Reading::get_at))]
pub fn get(alloc: Global, reader: &mut Reader<'_>) -> Result<Stmt, ReadStop>
    ensures { Reads command_of result reader.new.rest.now (get_at reader.old.rest.now) }
{
    reader.word(b"get")?;
    let row = reader.name()?;
    reader.mark(Mark::Eq)?;
    let table = reader.name()?;
    let key = index(alloc, reader)?;
    reader.mark(Mark::Semi)?;
    Ok(Stmt::Get { row, table, key })
}

/// Reads an insert.
#[tactic(auto, unfolding(crate::specs::Reading::insert_at))]
pub fn insert(alloc: Global, reader: &mut Reader<'_>) -> Result<Stmt, ReadStop>
    ensures { Reads command_of result reader.new.rest.now (insert_at reader.old.rest.now) }
{
    reader.word(b"insert")?;
    let table = reader.name()?;
    reader.mark(Mark::LeftParen)?;
    let values = values(alloc, reader)?;
    reader.mark(Mark::RightParen)?;
    reader.mark(Mark::Semi)?;
    Ok(Stmt::Insert { table, values })
}

/// Reads an insert under a key that is drawn, if there is room for one more variable.
#[tactic(auto, unfolding(crate::specs::Reading::fresh_at))]
pub fn fresh(alloc: Global, reader: &mut Reader<'_>, counts: &mut Counts) -> Result<Stmt, ReadStop>
    ensures { Reads (λ stmt. (command_of stmt, counts.new)) result reader.new.rest.now (fresh_at counts.old reader.old.rest.now) }
{
    reader.word(b"fresh")?;
    variable(reader, counts)?;
    let var = reader.name()?;
    reader.mark(Mark::Eq)?;
    let table = reader.name()?;
    reader.mark(Mark::LeftParen)?;
    let values = listed(alloc, reader)?;
    reader.mark(Mark::RightParen)?;
    reader.mark(Mark::Semi)?;
    Ok(Stmt::Fresh { var, table, values })
}

/// Reads an update.
#[tactic(auto, unfolding(crate::specs::Reading::update_at))]
pub fn update(alloc: Global, reader: &mut Reader<'_>) -> Result<Stmt, ReadStop>
    ensures { Reads command_of result reader.new.rest.now (update_at reader.old.rest.now) }
{
    reader.word(b"update")?;
    let table = reader.name()?;
    let key = index(alloc, reader)?;
    reader.word(b"set")?;
    let sets = sets(alloc, reader)?;
    reader.mark(Mark::Semi)?;
    Ok(Stmt::Update { table, key, sets })
}

/// Reads a remove.
#[tactic(auto, unfolding(crate::specs::Reading::remove_at))]
pub fn remove(alloc: Global, reader: &mut Reader<'_>) -> Result<Stmt, ReadStop>
    ensures { Reads command_of result reader.new.rest.now (remove_at reader.old.rest.now) }
{
    reader.word(b"remove")?;
    let table = reader.name()?;
    let key = index(alloc, reader)?;
    reader.mark(Mark::Semi)?;
    Ok(Stmt::Remove { table, key })
}

/// Whether a number above those of aborts comes next.
fn is_large(reader: &Reader<'_>) -> bool
    ensures { result ≡ is_large reader.now.rest.now }
{
    match reader.rest {
        [token, ..] => match &token.kind {
            TokenKind::Number(number) => *number > MOST_CODE,
            _ => false,
        },
        [] => false,
    }
}

/// Reads the number of an abort.
fn code(reader: &mut Reader<'_>) -> Result<u16, ReadStop>
    requires { is_large reader.old.rest.now ≡ false }
    ensures { Reads (λ n. n) result reader.new.rest.now (token_at natural_of reader.old.rest.now) }
{
    if let [token, rest @ ..] = reader.rest {
        if let TokenKind::Number(number) = &token.kind {
            if *number >= 0 {
                let code = *number as u16;
                reader.rest = rest;
                return Ok(code);
            }
        }
    }
    Err(ReadStop::Faulty(reader.misplaced()))
}

/// Reads an abort.
#[tactic(auto, unfolding(crate::specs::Reading::abort_at))]
pub fn abort(reader: &mut Reader<'_>) -> Result<Stmt, ReadStop>
    ensures { Reads command_of result reader.new.rest.now (abort_at reader.old.rest.now) }
{
    reader.word(b"abort")?;
    if is_large(reader) {
        return Err(ReadStop::Faulty(reader.too_many()));
    }
    let code = code(reader)?;
    reader.mark(Mark::Semi)?;
    Ok(Stmt::Abort { code })
}

/// Reads a reply.
#[tactic(auto, unfolding(crate::specs::Reading::reply_at))]
pub fn reply(alloc: Global, reader: &mut Reader<'_>) -> Result<Stmt, ReadStop>
    ensures { Reads command_of result reader.new.rest.now (reply_at reader.old.rest.now) }
{
    reader.word(b"reply")?;
    let value = expr(alloc, reader)?;
    reader.mark(Mark::Semi)?;
    Ok(Stmt::Reply(value))
}

/// Reads the condition of a loop over rows, if one is written.
#[tactic(auto, unfolding(crate::specs::Reading::where_at))]
pub fn where_part(alloc: Global, reader: &mut Reader<'_>) -> Result<Option<Cond>, ReadStop>
    ensures { Reads (λ c. option_map test_of c) result reader.new.rest.now (where_at reader.old.rest.now) }
{
    if reader.is_word(b"where") {
        reader.word(b"where")?;
        let cond = cond(alloc, reader)?;
        return Ok(Some(cond));
    }
    Ok(None)
}
