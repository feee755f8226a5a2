ghost use Rattle.std.specs.Prelude.{◌≡◌, neg_ℤ, pos, ◌-ℤ◌, Some};
ghost use Rattle.sv_schema_reader.specs.Grammar.{named, fixed, check_of};
ghost use Rattle.sv_reader.specs.Reading.{given, Reads, token_at};
ghost use Rattle.sv_schema_reader.specs.Reading.{order_of, order_named, fits64, fixed_of, side_of, fixed_at, side_at};

use crate::parts::{Order, Side};
use sv_app::{Check, Ident};
use sv_lex::{Mark, Token, TokenKind};
use sv_reader::{ReadStop, Reader};
use sv_value::Spot;

fn order_named(mark: Mark) -> Option<Order>
    ensures { result ≡ order_named mark }
{
    match mark {
        Mark::Le => Some(Order::AtMost),
        Mark::Lt => Some(Order::Below),
        Mark::Ge => Some(Order::AtLeast),
        Mark::Gt => Some(Order::Above),
        _ => None,
    }
}

fn order_of(token: &Token) -> Option<Order>
    ensures { result ≡ order_of token.now.kind }
{
    match &token.kind {
        TokenKind::Mark(mark) => order_named(*mark),
        _ => None,
    }
}

/// A column and a number that is added to it.
fn named(ident: Ident, number: i64) -> Side
    ensures { result ≡ named ident number }
{
    Side {
        spot: ident.spot,
        col: Some(ident),
        plus: i128::from(number),
    }
}

/// A column and a number that is taken from it.
fn named_less(ident: Ident, number: i64) -> Side
    ensures { result ≡ named ident (neg_ℤ number) }
{
    Side {
        spot: ident.spot,
        col: Some(ident),
        plus: -i128::from(number),
    }
}

/// A number alone.
fn fixed(spot: Spot, number: i64) -> Side
    ensures { result ≡ fixed spot number }
{
    Side {
        spot,
        col: None,
        plus: i128::from(number),
    }
}

/// A number with a sign before it.
fn negated(spot: Spot, number: i64) -> Side
    ensures { result ≡ fixed spot (neg_ℤ number) }
{
    Side {
        spot,
        col: None,
        plus: -i128::from(number),
    }
}

/// What the number of one side is more than that of another, if it has 64 bits.
fn difference(more: &Side, less: &Side) -> Option<i64>
    ensures { result ≡ given (fits64 (more.now.plus -ℤ less.now.plus)) (more.now.plus -ℤ less.now.plus) }
{
    let most = more.plus.checked_sub(less.plus)?;
    i64::try_from(most).ok()
}

/// One less than what the number of one side is more than that of another, if it has 64 bits.
fn difference_less_one(more: &Side, less: &Side) -> Option<i64>
    ensures { result ≡ given (fits64 (more.now.plus -ℤ less.now.plus -ℤ pos 1)) (more.now.plus -ℤ less.now.plus -ℤ pos 1) }
{
    let most = more.plus.checked_sub(less.plus)?.checked_sub(1)?;
    i64::try_from(most).ok()
}

/// The bound of a check of these sides, if it has 64 bits.
fn most_of(left: &Side, by: Order, right: &Side) -> Option<i64>
    ensures { result ≡ given (fits64 (check_of left.now by right.now).most) (check_of left.now by right.now).most }
{
    match by {
        Order::AtMost => difference(right, left),
        Order::Below => difference_less_one(right, left),
        Order::AtLeast => difference(left, right),
        Order::Above => difference_less_one(left, right),
    }
}

/// The check of these sides, if its bound has 64 bits.
pub fn check_of(left: &Side, by: Order, right: &Side) -> Option<Check>
    ensures { result ≡ given (fits64 (check_of left.now by right.now).most) (check_of left.now by right.now) }
{
    let most = most_of(left, by, right)?;
    let (hi, lo) = match by {
        Order::AtMost | Order::Below => (left.col, right.col),
        Order::AtLeast | Order::Above => (right.col, left.col),
    };
    Some(Check {
        hi,
        lo,
        most,
        spot: left.spot,
    })
}

fn plain_number(reader: &mut Reader<'_>) -> Result<Side, ReadStop>
    ensures { Reads (λ side. side) result reader.new.rest.now (token_at fixed_of reader.old.rest.now) }
{
    if let [token, rest @ ..] = reader.rest {
        if let TokenKind::Number(number) = &token.kind {
            let side = fixed(token.spot, *number);
            reader.rest = rest;
            return Ok(side);
        }
    }
    Err(ReadStop::Faulty(reader.misplaced()))
}

/// Reads what may stand behind the column of a side.
#[tactic(auto, unfolding(crate::specs::Reading::side_of))]
pub fn side_of(reader: &mut Reader<'_>, col: Ident) -> Result<Side, ReadStop>
    ensures { Reads (λ side. side) result reader.new.rest.now (side_of col reader.old.rest.now) }
{
    if reader.is_mark(Mark::Plus) {
        reader.mark(Mark::Plus)?;
        let number = reader.number()?;
        return Ok(named(col, number));
    }
    if reader.is_mark(Mark::Minus) {
        reader.mark(Mark::Minus)?;
        let number = reader.number()?;
        return Ok(named_less(col, number));
    }
    Ok(named(col, 0))
}

/// Reads a side without a column.
#[tactic(auto, unfolding(crate::specs::Reading::fixed_at))]
pub fn fixed_side(reader: &mut Reader<'_>) -> Result<Side, ReadStop>
    ensures { Reads (λ side. side) result reader.new.rest.now (fixed_at reader.old.rest.now) }
{
    if reader.is_mark(Mark::Minus) {
        let spot = reader.mark(Mark::Minus)?;
        let number = reader.number()?;
        return Ok(negated(spot, number));
    }
    plain_number(reader)
}

/// Reads a side.
#[tactic(auto, unfolding(crate::specs::Reading::side_at))]
pub fn side(reader: &mut Reader<'_>) -> Result<Side, ReadStop>
    ensures { Reads (λ side. side) result reader.new.rest.now (side_at reader.old.rest.now) }
{
    if reader.is_name() {
        let col = reader.name()?;
        return side_of(reader, col);
    }
    fixed_side(reader)
}

/// Reads how two sides compare.
pub fn order(reader: &mut Reader<'_>) -> Result<Order, ReadStop>
    ensures { Reads (λ by. by) result reader.new.rest.now (token_at (λ token. order_of token.kind) reader.old.rest.now) }
{
    if let [token, rest @ ..] = reader.rest {
        if let Some(by) = order_of(token) {
            reader.rest = rest;
            return Ok(by);
        }
    }
    Err(ReadStop::Faulty(reader.misplaced()))
}
