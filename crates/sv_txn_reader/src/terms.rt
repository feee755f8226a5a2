ghost use Rattle.std.specs.Prelude.{◌≡◌, ◌≤◌, ◌-◌, ◌<◌, suc, IfOk};
ghost use Rattle.std.specs.Option.{option_map};
ghost use Rattle.sv_app.specs.TermTypes.{spot_of};
ghost use Rattle.sv_app.specs.Trees.{term_of, Minus, Sum, Difference, Product};
ghost use Rattle.sv_reader.specs.Reading.{Reads, token_at, is_next, turns_at, keep};
ghost use Rattle.sv_txn_reader.specs.Grammar.{placed};
ghost use Rattle.sv_txn_reader.specs.Reading.{literal_of, field_at, old_at, leaf_at, sign_at, group_at, factor_with, factor_at, product_turn, products_with, products_at, is_sign, joined_at, factor_below, products_below, sums_below, sum_turn, sums_with, sums_at, expr_at};

use crate::graded::Graded;
use std::alloc::{AllocError, Global};
use sv_app::limits::MOST_DEPTH;
use sv_app::{Expr, Ident, spot_of};
use sv_lex::{Mark, Token, TokenKind};
use sv_reader::{ReadStop, Reader};
use sv_value::Spot;

/// How much deeper an expression may be than a name: at most 16 deep.
const MOST_EXTRA: usize = MOST_DEPTH - 1;

/// The expression, which begins at this place.
fn placed(expr: Expr, spot: Spot) -> Expr
    ensures { term_of result ≡ placed spot (term_of expr) }
{
    match expr {
        Expr::Int(number, _) => Expr::Int(number, spot),
        Expr::Text(text, _) => Expr::Text(text, spot),
        Expr::Var(name, _) => Expr::Var(name, spot),
        Expr::Field { row, col, .. } => Expr::Field { row, col, spot },
        Expr::Old(col, _) => Expr::Old(col, spot),
        Expr::Neg(inner, _) => Expr::Neg(inner, spot),
        Expr::Add(left, right, _) => Expr::Add(left, right, spot),
        Expr::Sub(left, right, _) => Expr::Sub(left, right, spot),
        Expr::Mul(left, right, _) => Expr::Mul(left, right, spot),
    }
}

fn literal_of(token: &Token) -> Option<Expr>
    ensures { option_map (λ e. (term_of e, 0)) result ≡ literal_of token.now }
{
    match &token.kind {
        TokenKind::Number(number) => Some(Expr::Int(*number, token.spot)),
        TokenKind::Text(text) => Some(Expr::Text(*text, token.spot)),
        _ => None,
    }
}

fn literal(reader: &mut Reader<'_>) -> Result<Graded, ReadStop>
    ensures read { Reads (λ e. (term_of e.expr, e.extra)) result reader.new.rest.now (token_at literal_of reader.old.rest.now) }
    ensures flat { IfOk result (λ e. e.extra ≡ 0) }
{
    if let [token, rest @ ..] = reader.rest {
        if let Some(expr) = literal_of(token) {
            reader.rest = rest;
            return Ok(Graded { expr, extra: 0 });
        }
    }
    Err(ReadStop::Faulty(reader.misplaced()))
}

/// Reads what may stand behind a name in an expression.
#[tactic(auto, unfolding(crate::specs::Reading::field_at))]
fn field(reader: &mut Reader<'_>, name: Ident) -> Result<Graded, ReadStop>
    ensures read { Reads (λ e. (term_of e.expr, e.extra)) result reader.new.rest.now (field_at name reader.old.rest.now) }
    ensures flat { IfOk result (λ e. e.extra ≡ 0) }
{
    if reader.is_mark(Mark::Dot) {
        reader.mark(Mark::Dot)?;
        let col = reader.name()?;
        return Ok(Graded {
            expr: Expr::Field {
                row: name,
                col,
                spot: name.spot,
            },
            extra: 0,
        });
    }
    Ok(Graded {
        expr: Expr::Var(name, name.spot),
        extra: 0,
    })
}

#[tactic(auto, unfolding(crate::specs::Reading::old_at))]
fn old(reader: &mut Reader<'_>) -> Result<Graded, ReadStop>
    ensures read { Reads (λ e. (term_of e.expr, e.extra)) result reader.new.rest.now (old_at reader.old.rest.now) }
    ensures flat { IfOk result (λ e. e.extra ≡ 0) }
{
    let spot = reader.word(b"old")?;
    reader.mark(Mark::Dot)?;
    let col = reader.name()?;
    Ok(Graded {
        expr: Expr::Old(col, spot),
        extra: 0,
    })
}

#[tactic(auto, unfolding(crate::specs::Reading::leaf_at))]
fn leaf(reader: &mut Reader<'_>) -> Result<Graded, ReadStop>
    ensures read { Reads (λ e. (term_of e.expr, e.extra)) result reader.new.rest.now (leaf_at reader.old.rest.now) }
    ensures flat { IfOk result (λ e. e.extra ≡ 0) }
{
    if reader.is_word(b"old") {
        return old(reader);
    }
    if reader.is_name() {
        let name = reader.name()?;
        return field(reader, name);
    }
    literal(reader)
}

/// An expression with a sign before it.
fn negative(alloc: Global, inner: Expr, spot: Spot) -> Result<Expr, AllocError>
    ensures { IfOk result (λ e. term_of e ≡ Minus (term_of inner) spot) }
{
    let inner = Box::new(alloc, inner)?;
    Ok(Expr::Neg(inner, spot))
}

fn product(alloc: Global, left: Expr, right: Expr) -> Result<Expr, AllocError>
    ensures { IfOk result (λ e. term_of e ≡ Product (term_of left) (term_of right) (spot_of (term_of left))) }
{
    let spot = spot_of(&left);
    let left = Box::new(alloc, left)?;
    let right = Box::new(alloc, right)?;
    Ok(Expr::Mul(left, right, spot))
}

fn sum(alloc: Global, left: Expr, right: Expr) -> Result<Expr, AllocError>
    ensures { IfOk result (λ e. term_of e ≡ Sum (term_of left) (term_of right) (spot_of (term_of left))) }
{
    let spot = spot_of(&left);
    let left = Box::new(alloc, left)?;
    let right = Box::new(alloc, right)?;
    Ok(Expr::Add(left, right, spot))
}

fn difference(alloc: Global, left: Expr, right: Expr) -> Result<Expr, AllocError>
    ensures { IfOk result (λ e. term_of e ≡ Difference (term_of left) (term_of right) (spot_of (term_of left))) }
{
    let spot = spot_of(&left);
    let left = Box::new(alloc, left)?;
    let right = Box::new(alloc, right)?;
    Ok(Expr::Sub(left, right, spot))
}

/// Whether a sum or a difference goes on.
fn is_sign(reader: &Reader<'_>) -> bool
    ensures { result ≡ is_sign reader.now.rest.now }
{
    reader.is_mark(Mark::Plus) || reader.is_mark(Mark::Minus)
}

/// Reads a factor with a sign before it, where there is so much room.
#[cycle(terms)]
#[tactic(auto, unfolding(crate::specs::Reading::sign_at), using(crate::proofs::RoomLaws::factor_below_is))]
fn signed(alloc: Global, reader: &mut Reader<'_>, room: usize) -> Result<Graded, ReadStop>
    requires some { 1 ≤ room }
    requires small { room ≤ 16 }
    ensures read { Reads (λ e. (term_of e.expr, e.extra)) result reader.new.rest.now (sign_at (factor_below room) reader.old.rest.now) }
    ensures fits { IfOk result (λ e. e.extra ≤ room) }
{
    let spot = reader.mark(Mark::Minus)?;
    let inner = factor(alloc, reader, room - 1)?;
    let expr = negative(alloc, inner.expr, spot)?;
    Ok(Graded {
        expr,
        extra: inner.extra + 1,
    })
}

/// Reads an expression between parentheses, where there is so much room.
#[cycle(terms)]
#[tactic(auto, unfolding(crate::specs::Reading::group_at), using(crate::proofs::RoomLaws::sums_below_is))]
fn group(alloc: Global, reader: &mut Reader<'_>, room: usize) -> Result<Graded, ReadStop>
    requires some { 1 ≤ room }
    requires small { room ≤ 16 }
    ensures read { Reads (λ e. (term_of e.expr, e.extra)) result reader.new.rest.now (group_at (sums_below room) reader.old.rest.now) }
    ensures fits { IfOk result (λ e. e.extra ≤ room) }
{
    let spot = reader.mark(Mark::LeftParen)?;
    let inner = sums(alloc, reader, room - 1)?;
    reader.mark(Mark::RightParen)?;
    Ok(Graded {
        expr: placed(inner.expr, spot),
        extra: inner.extra + 1,
    })
}

/// Reads a factor where there is so much room.
#[cycle(terms)]
#[tactic(auto, unfolding(crate::specs::Reading::factor_with), using(crate::proofs::RoomLaws::factor_read))]
fn factor(alloc: Global, reader: &mut Reader<'_>, room: usize) -> Result<Graded, ReadStop>
    requires small { room ≤ 16 }
    ensures read { Reads (λ e. (term_of e.expr, e.extra)) result reader.new.rest.now (factor_at room reader.old.rest.now) }
    ensures fits { IfOk result (λ e. e.extra ≤ room) }
{
    if reader.is_mark(Mark::Minus) {
        if room == 0 {
            return Err(ReadStop::Faulty(reader.too_many()));
        }
        return signed(alloc, reader, room);
    }
    if reader.is_mark(Mark::LeftParen) {
        if room == 0 {
            return Err(ReadStop::Faulty(reader.too_many()));
        }
        return group(alloc, reader, room);
    }
    leaf(reader)
}

/// Reads one more factor of a product.
#[cycle(terms)]
#[tactic(auto, unfolding(crate::specs::Reading::product_turn), using(crate::proofs::RoomLaws::factor_below_is))]
fn multiplied(
    alloc: Global,
    reader: &mut Reader<'_>,
    left: Graded,
    room: usize,
) -> Result<Graded, ReadStop>
    requires small { room ≤ 16 }
    ensures read { Reads (λ e. (term_of e.expr, e.extra)) result reader.new.rest.now (product_turn room (factor_below room) (term_of left.expr, left.extra) reader.old.rest.now) }
    ensures fits { IfOk result (λ e. e.extra ≤ room) }
{
    if room <= left.extra {
        return Err(ReadStop::Faulty(reader.too_many()));
    }
    reader.mark(Mark::Star)?;
    let right = factor(alloc, reader, room - 1)?;
    let extra = left.extra.max(right.extra) + 1;
    let expr = product(alloc, left.expr, right.expr)?;
    Ok(Graded { expr, extra })
}

/// Reads a product where there is so much room.
#[cycle(terms)]
#[tactic(auto, unfolding(crate::specs::Reading::products_with), using(crate::proofs::RoomLaws::products))]
fn products(alloc: Global, reader: &mut Reader<'_>, room: usize) -> Result<Graded, ReadStop>
    requires small { room ≤ 16 }
    ensures read { Reads (λ e. (term_of e.expr, e.extra)) result reader.new.rest.now (products_at room reader.old.rest.now) }
    ensures fits { IfOk result (λ e. e.extra ≤ room) }
{
    let mut left = factor(alloc, reader, room)?;
    while reader.is_mark(Mark::Star) {
        left = multiplied(alloc, reader, left, room)?;
    }
    Ok(left)
}

/// Reads a sign and what it joins to an expression.
#[cycle(terms)]
#[tactic(auto, unfolding(crate::specs::Reading::joined_at), using(crate::proofs::RoomLaws::products_below_is))]
fn joined(
    alloc: Global,
    reader: &mut Reader<'_>,
    left: Graded,
    room: usize,
) -> Result<Graded, ReadStop>
    requires some { left.extra < room }
    requires small { room ≤ 16 }
    ensures read { Reads (λ e. (term_of e.expr, e.extra)) result reader.new.rest.now (joined_at (products_below room) (term_of left.expr, left.extra) reader.old.rest.now) }
    ensures fits { IfOk result (λ e. e.extra ≤ room) }
{
    if reader.is_mark(Mark::Plus) {
        reader.mark(Mark::Plus)?;
        let right = products(alloc, reader, room - 1)?;
        let extra = left.extra.max(right.extra) + 1;
        let expr = sum(alloc, left.expr, right.expr)?;
        return Ok(Graded { expr, extra });
    }
    reader.mark(Mark::Minus)?;
    let right = products(alloc, reader, room - 1)?;
    let extra = left.extra.max(right.extra) + 1;
    let expr = difference(alloc, left.expr, right.expr)?;
    Ok(Graded { expr, extra })
}

/// Reads one more product of a sum or a difference.
#[cycle(terms)]
#[tactic(auto, unfolding(crate::specs::Reading::sum_turn))]
fn added(
    alloc: Global,
    reader: &mut Reader<'_>,
    left: Graded,
    room: usize,
) -> Result<Graded, ReadStop>
    requires small { room ≤ 16 }
    ensures read { Reads (λ e. (term_of e.expr, e.extra)) result reader.new.rest.now (sum_turn room (products_below room) (term_of left.expr, left.extra) reader.old.rest.now) }
    ensures fits { IfOk result (λ e. e.extra ≤ room) }
{
    if room <= left.extra {
        return Err(ReadStop::Faulty(reader.too_many()));
    }
    joined(alloc, reader, left, room)
}

/// Reads an expression where there is so much room.
#[cycle(terms)]
#[tactic(auto, unfolding(crate::specs::Reading::sums_with), using(crate::proofs::RoomLaws::sums))]
pub fn sums(alloc: Global, reader: &mut Reader<'_>, room: usize) -> Result<Graded, ReadStop>
    requires small { room ≤ 16 }
    ensures read { Reads (λ e. (term_of e.expr, e.extra)) result reader.new.rest.now (sums_at room reader.old.rest.now) }
    ensures fits { IfOk result (λ e. e.extra ≤ room) }
{
    let mut left = products(alloc, reader, room)?;
    while is_sign(reader) {
        left = added(alloc, reader, left, room)?;
    }
    Ok(left)
}

/// Reads an expression.
#[tactic(auto, unfolding(crate::specs::Reading::expr_at))]
pub fn expr(alloc: Global, reader: &mut Reader<'_>) -> Result<Expr, ReadStop>
    ensures { Reads term_of result reader.new.rest.now (expr_at reader.old.rest.now) }
{
    let whole = sums(alloc, reader, MOST_EXTRA)?;
    Ok(whole.expr)
}
