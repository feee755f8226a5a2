ghost use Rattle.std.specs.Prelude.{◌≡◌, ◌≤◌, ◌<◌, IfOk};
ghost use Rattle.sv_app.specs.Trees.{test_of, Negation, Both, Either};
ghost use Rattle.sv_reader.specs.Reading.{Reads, token_at, is_next, turns_at, keep};
ghost use Rattle.sv_txn_reader.specs.Reading.{relation_named, relation_of, comparison_at, negation_at, bracket_at, literal_with, literal_at, sums_at, literal_below, and_turn, conjunctions_with, conjunctions_at, conjunctions_below, or_turn, disjunctions_with, disjunctions_at, disjunctions_below, cond_at};

use crate::graded::Judged;
use crate::terms::sums;
use std::alloc::{AllocError, Global};
use sv_app::limits::MOST_DEPTH;
use sv_app::{Cond, Rel};
use sv_lex::{Mark, Token, TokenKind};
use sv_reader::{ReadStop, Reader};

/// How much deeper a condition may be than a comparison of names: at most 16 deep.
const MOST_EXTRA: usize = MOST_DEPTH - 2;

fn relation_named(mark: Mark) -> Option<Rel>
    ensures { result ≡ relation_named mark }
{
    match mark {
        Mark::Eq => Some(Rel::Eq),
        Mark::Ne => Some(Rel::Ne),
        Mark::Lt => Some(Rel::Lt),
        Mark::Le => Some(Rel::Le),
        Mark::Gt => Some(Rel::Gt),
        Mark::Ge => Some(Rel::Ge),
        _ => None,
    }
}

fn relation_of(token: &Token) -> Option<Rel>
    ensures { result ≡ relation_of token.now }
{
    match &token.kind {
        TokenKind::Mark(mark) => relation_named(*mark),
        _ => None,
    }
}

/// Reads how two values compare.
fn relation(reader: &mut Reader<'_>) -> Result<Rel, ReadStop>
    ensures { Reads (λ by. by) result reader.new.rest.now (token_at relation_of reader.old.rest.now) }
{
    if let [token, rest @ ..] = reader.rest {
        if let Some(by) = relation_of(token) {
            reader.rest = rest;
            return Ok(by);
        }
    }
    Err(ReadStop::Faulty(reader.misplaced()))
}

fn negation(alloc: Global, inner: Cond) -> Result<Cond, AllocError>
    ensures { IfOk result (λ c. test_of c ≡ Negation (test_of inner)) }
{
    let inner = Box::new(alloc, inner)?;
    Ok(Cond::Not(inner))
}

fn both(alloc: Global, left: Cond, right: Cond) -> Result<Cond, AllocError>
    ensures { IfOk result (λ c. test_of c ≡ Both (test_of left) (test_of right)) }
{
    let left = Box::new(alloc, left)?;
    let right = Box::new(alloc, right)?;
    Ok(Cond::And(left, right))
}

fn either(alloc: Global, left: Cond, right: Cond) -> Result<Cond, AllocError>
    ensures { IfOk result (λ c. test_of c ≡ Either (test_of left) (test_of right)) }
{
    let left = Box::new(alloc, left)?;
    let right = Box::new(alloc, right)?;
    Ok(Cond::Or(left, right))
}

/// Reads a comparison whose sides have so much room.
#[tactic(auto, unfolding(crate::specs::Reading::comparison_at))]
fn comparison(alloc: Global, reader: &mut Reader<'_>, room: usize) -> Result<Judged, ReadStop>
    requires small { room ≤ 16 }
    ensures read { Reads (λ c. (test_of c.cond, c.extra)) result reader.new.rest.now (comparison_at (sums_at room) reader.old.rest.now) }
    ensures fits { IfOk result (λ c. c.extra ≤ room) }
{
    let left = sums(alloc, reader, room)?;
    let rel = relation(reader)?;
    let right = sums(alloc, reader, room)?;
    let extra = left.extra.max(right.extra);
    Ok(Judged {
        cond: Cond::Cmp {
            left: left.expr,
            rel,
            right: right.expr,
        },
        extra,
    })
}

/// Reads a negation, where there is so much room.
#[cycle(conditions)]
#[tactic(auto, unfolding(crate::specs::Reading::negation_at), using(crate::proofs::TestRoomLaws::literal_below_is))]
fn negated(alloc: Global, reader: &mut Reader<'_>, room: usize) -> Result<Judged, ReadStop>
    requires some { 1 ≤ room }
    requires small { room ≤ 16 }
    ensures read { Reads (λ c. (test_of c.cond, c.extra)) result reader.new.rest.now (negation_at (literal_below room) reader.old.rest.now) }
    ensures fits { IfOk result (λ c. c.extra ≤ room) }
{
    reader.word(b"not")?;
    let inner = literal(alloc, reader, room - 1)?;
    let cond = negation(alloc, inner.cond)?;
    Ok(Judged {
        cond,
        extra: inner.extra + 1,
    })
}

/// Reads a condition between brackets, where there is so much room.
#[cycle(conditions)]
#[tactic(auto, unfolding(crate::specs::Reading::bracket_at), using(crate::proofs::TestRoomLaws::disjunctions_below_is))]
fn bracketed(alloc: Global, reader: &mut Reader<'_>, room: usize) -> Result<Judged, ReadStop>
    requires some { 1 ≤ room }
    requires small { room ≤ 16 }
    ensures read { Reads (λ c. (test_of c.cond, c.extra)) result reader.new.rest.now (bracket_at (disjunctions_below room) reader.old.rest.now) }
    ensures fits { IfOk result (λ c. c.extra ≤ room) }
{
    reader.mark(Mark::LeftBracket)?;
    let inner = disjunctions(alloc, reader, room - 1)?;
    reader.mark(Mark::RightBracket)?;
    Ok(Judged {
        cond: inner.cond,
        extra: inner.extra + 1,
    })
}

/// Reads a literal where there is so much room.
#[cycle(conditions)]
#[tactic(auto, unfolding(crate::specs::Reading::literal_with), using(crate::proofs::TestRoomLaws::literal_read))]
fn literal(alloc: Global, reader: &mut Reader<'_>, room: usize) -> Result<Judged, ReadStop>
    requires small { room ≤ 16 }
    ensures read { Reads (λ c. (test_of c.cond, c.extra)) result reader.new.rest.now (literal_at room reader.old.rest.now) }
    ensures fits { IfOk result (λ c. c.extra ≤ room) }
{
    if reader.is_word(b"not") {
        if room == 0 {
            return Err(ReadStop::Faulty(reader.too_many()));
        }
        return negated(alloc, reader, room);
    }
    if reader.is_mark(Mark::LeftBracket) {
        if room == 0 {
            return Err(ReadStop::Faulty(reader.too_many()));
        }
        return bracketed(alloc, reader, room);
    }
    comparison(alloc, reader, room)
}

/// Reads one more literal of a conjunction.
#[cycle(conditions)]
#[tactic(auto, unfolding(crate::specs::Reading::and_turn), using(crate::proofs::TestRoomLaws::literal_below_is))]
fn conjoined(
    alloc: Global,
    reader: &mut Reader<'_>,
    left: Judged,
    room: usize,
) -> Result<Judged, ReadStop>
    requires small { room ≤ 16 }
    ensures read { Reads (λ c. (test_of c.cond, c.extra)) result reader.new.rest.now (and_turn room (literal_below room) (test_of left.cond, left.extra) reader.old.rest.now) }
    ensures fits { IfOk result (λ c. c.extra ≤ room) }
{
    if room <= left.extra {
        return Err(ReadStop::Faulty(reader.too_many()));
    }
    reader.word(b"and")?;
    let right = literal(alloc, reader, room - 1)?;
    let extra = left.extra.max(right.extra) + 1;
    let cond = both(alloc, left.cond, right.cond)?;
    Ok(Judged { cond, extra })
}

/// Reads a conjunction where there is so much room.
#[cycle(conditions)]
#[tactic(auto, unfolding(crate::specs::Reading::conjunctions_with), using(crate::proofs::TestRoomLaws::ands))]
fn conjunctions(alloc: Global, reader: &mut Reader<'_>, room: usize) -> Result<Judged, ReadStop>
    requires small { room ≤ 16 }
    ensures read { Reads (λ c. (test_of c.cond, c.extra)) result reader.new.rest.now (conjunctions_at room reader.old.rest.now) }
    ensures fits { IfOk result (λ c. c.extra ≤ room) }
{
    let mut left = literal(alloc, reader, room)?;
    while reader.is_word(b"and") {
        left = conjoined(alloc, reader, left, room)?;
    }
    Ok(left)
}

/// Reads one more conjunction of a disjunction.
#[cycle(conditions)]
#[tactic(auto, unfolding(crate::specs::Reading::or_turn), using(crate::proofs::TestRoomLaws::conjunctions_below_is))]
fn disjoined(
    alloc: Global,
    reader: &mut Reader<'_>,
    left: Judged,
    room: usize,
) -> Result<Judged, ReadStop>
    requires small { room ≤ 16 }
    ensures read { Reads (λ c. (test_of c.cond, c.extra)) result reader.new.rest.now (or_turn room (conjunctions_below room) (test_of left.cond, left.extra) reader.old.rest.now) }
    ensures fits { IfOk result (λ c. c.extra ≤ room) }
{
    if room <= left.extra {
        return Err(ReadStop::Faulty(reader.too_many()));
    }
    reader.word(b"or")?;
    let right = conjunctions(alloc, reader, room - 1)?;
    let extra = left.extra.max(right.extra) + 1;
    let cond = either(alloc, left.cond, right.cond)?;
    Ok(Judged { cond, extra })
}

/// Reads a condition where there is so much room.
#[cycle(conditions)]
#[tactic(auto, unfolding(crate::specs::Reading::disjunctions_with), using(crate::proofs::TestRoomLaws::ors))]
fn disjunctions(alloc: Global, reader: &mut Reader<'_>, room: usize) -> Result<Judged, ReadStop>
    requires small { room ≤ 16 }
    ensures read { Reads (λ c. (test_of c.cond, c.extra)) result reader.new.rest.now (disjunctions_at room reader.old.rest.now) }
    ensures fits { IfOk result (λ c. c.extra ≤ room) }
{
    let mut left = conjunctions(alloc, reader, room)?;
    while reader.is_word(b"or") {
        left = disjoined(alloc, reader, left, room)?;
    }
    Ok(left)
}

/// Reads a condition.
#[tactic(auto, unfolding(crate::specs::Reading::cond_at))]
pub fn cond(alloc: Global, reader: &mut Reader<'_>) -> Result<Cond, ReadStop>
    ensures { Reads test_of result reader.new.rest.now (cond_at reader.old.rest.now) }
{
    let whole = disjunctions(alloc, reader, MOST_EXTRA)?;
    Ok(whole.cond)
}
