//! Rows of guesses, and whether they meet checks.

ghost use Rattle.std.specs.Prelude.{◌≡◌, ◌-ℤ◌, int_le, map};
ghost use Rattle.sv_app.specs.Satisfiable.{number_of, value_of};
ghost use Rattle.sv_app.specs.Schema.{invariant_of, rule_of};
ghost use Rattle.sv_effect.specs.Fits.{IsNarrow};
ghost use Rattle.sv_effect.specs.RunChanges.{effect_of};
ghost use Rattle.sv_plain_threats.specs.Tries.{numbers_of, wins_of, numbers_left, is_met, is_rule_met, are_met, is_guessed};

use crate::guesses::Guess;
use crate::writes::{number_after, write_to};
use sv_app::{Check, Ident, Inv, InvBody};
use sv_effect::RowEffect;

/// The column's number before the change; zero where none is tried.
fn number_before(row: &[(u16, Guess)], column: u16) -> i64
    ensures { result ≡ numbers_of row.now column }
{
    match row {
        [] => 0,
        [(number, guess), rest @ ..] => {
            if *number == column {
                guess.number
            } else {
                number_before(rest, column)
            }
        }
    }
}

/// Whether the write to the column wins.
fn wins(row: &[(u16, Guess)], column: u16) -> bool
    ensures { result ≡ wins_of row.now column }
{
    match row {
        [] => true,
        [(number, guess), rest @ ..] => {
            if *number == column {
                guess.wins
            } else {
                wins(rest, column)
            }
        }
    }
}

/// Whether something is tried for the column.
pub fn is_guessed(row: &[(u16, Guess)], column: u16) -> bool
    ensures { result ≡ is_guessed row.now column }
{
    match row {
        [] => false,
        [(number, _), rest @ ..] => *number == column || is_guessed(rest, column),
    }
}

/// The number of a side before the change.
fn side_before(row: &[(u16, Guess)], side: &Option<Ident>) -> i128
    ensures value { result ≡ value_of (numbers_of row.now) (number_of side.now) }
    ensures narrow { IsNarrow result }
{
    match side {
        None => 0,
        Some(column) => number_before(row, column.num) as i128,
    }
}

/// The number of a side after the change.
fn side_after(row: &[(u16, Guess)], change: &RowEffect, side: &Option<Ident>) -> i128
    ensures value { result ≡ value_of (numbers_left row.now (effect_of change.now)) (number_of side.now) }
    ensures narrow { IsNarrow result }
{
    match side {
        None => 0,
        Some(column) => {
            let write = write_to(column.num, change.writes.as_slice());
            number_after(
                wins(row, column.num),
                &write,
                number_before(row, column.num),
            )
        }
    }
}

fn difference(hi: i128, lo: i128) -> i128
    requires hi { IsNarrow hi }
    requires lo { IsNarrow lo }
    ensures { result ≡ (hi -ℤ lo) }
{
    hi - lo
}

fn is_at_most(difference: i128, most: i64) -> bool
    ensures { result ≡ int_le difference most }
{
    difference <= most as i128
}

fn is_met_before(row: &[(u16, Guess)], check: &Check) -> bool
    ensures { result ≡ is_met (numbers_of row.now) check.now }
{
    let hi = side_before(row, &check.hi);
    let lo = side_before(row, &check.lo);
    is_at_most(difference(hi, lo), check.most)
}

/// Whether the row meets the check after the change.
pub fn is_met_after(row: &[(u16, Guess)], change: &RowEffect, check: &Check) -> bool
    ensures { result ≡ is_met (numbers_left row.now (effect_of change.now)) check.now }
{
    let hi = side_after(row, change, &check.hi);
    let lo = side_after(row, change, &check.lo);
    is_at_most(difference(hi, lo), check.most)
}

/// Whether the row meets the rule before the change, if it is a check.
fn is_rule_met(row: &[(u16, Guess)], body: &InvBody) -> bool
    ensures { result ≡ is_rule_met (numbers_of row.now) (rule_of body.now) }
{
    match body {
        InvBody::Check(check) => is_met_before(row, check),
        InvBody::List { .. } | InvBody::Unique { .. } | InvBody::Refers { .. } => true,
    }
}

/// Whether the row meets all checks among the invariants before the change.
pub fn meets_all(row: &[(u16, Guess)], invs: &[Inv]) -> bool
    ensures { result ≡ are_met (numbers_of row.now) (map invariant_of invs.now) }
{
    match invs {
        [] => true,
        [inv, rest @ ..] => is_rule_met(row, &inv.body) && meets_all(row, rest),
    }
}
