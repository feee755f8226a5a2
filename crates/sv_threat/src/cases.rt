//! Cases of a check on one change.

ghost use Rattle.std.specs.Prelude.{◌≡◌, ◌^◌};
ghost use Rattle.sv_app.specs.Satisfiable.{number_of};
ghost use Rattle.sv_bounds.specs.Differences.{Within};
ghost use Rattle.sv_effect.specs.Acts.{is_insert, is_draw};
ghost use Rattle.sv_effect.specs.RunChanges.{effect_of};
ghost use Rattle.sv_effect.specs.Threatened.{write_to};
ghost use Rattle.sv_gains.specs.Gains.{IsShort, noted_in};
ghost use Rattle.sv_threat.specs.Cases.{is_added, is_set, added, made, given, left_before, bound_of, move_of, move_at, moves_of};
ghost use Rattle.sv_threat.specs.Tests.{IsShortMove, is_asked, is_at_most, case_fails, any_fails, check_fails};

use crate::moves::{Case, Move};
use sv_app::{Act, Check, Ident};
use sv_effect::{RowEffect, Write};
use sv_gains::{Gains, side};
use sv_value::Val;

/// All cases of a check.
const CASES: [Case; 5] = [
    Case::BothLose,
    Case::HiWins,
    Case::LoWins,
    Case::BothWin,
    Case::FromNothing,
];

fn is_added(to: Move) -> bool
    ensures { result ≡ is_added to }
{
    match to {
        Move::Adds(_) => true,
        Move::Leaves | Move::Sets(_) => false,
    }
}

fn is_set(to: Move) -> bool
    ensures { result ≡ is_set to }
{
    match to {
        Move::Sets(_) => true,
        Move::Leaves | Move::Adds(_) => false,
    }
}

/// What a move adds where it doesn't win.
fn added(to: Move) -> i128
    requires { IsShortMove to }
    ensures is { result ≡ added to }
    ensures short { Within (2 ^ 64) result }
{
    match to {
        Move::Adds(number) => number,
        Move::Leaves | Move::Sets(_) => 0,
    }
}

/// What a move makes of zero where it wins.
fn made(to: Move) -> i128
    requires { IsShortMove to }
    ensures is { result ≡ made to }
    ensures short { Within (2 ^ 64) result }
{
    match to {
        Move::Leaves => 0,
        Move::Adds(number) | Move::Sets(number) => number,
    }
}

fn is_draw(act: Act) -> bool
    ensures { result ≡ is_draw act }
{
    match act {
        Act::Fresh => true,
        Act::Insert | Act::Update | Act::Remove => false,
    }
}

/// Whether a row becomes present.
pub fn is_insert(act: Act) -> bool
    ensures { result ≡ is_insert act }
{
    match act {
        Act::Insert | Act::Fresh => true,
        Act::Update | Act::Remove => false,
    }
}

fn is_asked(act: Act, hi: Move, lo: Move, case: Case) -> bool
    ensures { result ≡ is_asked act hi lo case }
{
    match case {
        Case::BothLose => !is_draw(act) && (is_added(hi) || is_added(lo)),
        Case::HiWins => !is_draw(act) && is_set(hi),
        Case::LoWins => !is_draw(act) && is_set(lo),
        Case::BothWin => !is_draw(act) && is_set(hi) && is_set(lo),
        Case::FromNothing => is_insert(act),
    }
}

/// What the change itself gives to `hi - lo`.
fn given(hi: Move, lo: Move, case: Case) -> i128
    requires hi { IsShortMove hi }
    requires lo { IsShortMove lo }
    ensures { result ≡ given hi lo case }
{
    match case {
        Case::BothLose => added(hi) - added(lo),
        Case::HiWins => made(hi) - added(lo),
        Case::LoWins => added(hi) - made(lo),
        Case::BothWin | Case::FromNothing => made(hi) - made(lo),
    }
}

/// The greatest difference that stands of the row before.
fn left_before(gains: &Gains, check: &Check, case: Case) -> Option<i128>
    ensures is { result ≡ left_before (noted_in gains.now) check.now case }
    ensures short { IsShort result }
{
    match case {
        Case::BothLose => gains.gain(side(&check.hi), side(&check.lo)),
        Case::HiWins => gains.gain(None, side(&check.lo)),
        Case::LoWins => gains.gain(side(&check.hi), None),
        Case::BothWin | Case::FromNothing => Some(0),
    }
}

/// The most that the change may give.
fn bound_of(gains: &Gains, check: &Check, case: Case) -> Option<i128>
    ensures { result ≡ bound_of (noted_in gains.now) check.now case }
{
    match left_before(gains, check, case) {
        None => None,
        Some(gain) => Some(check.most as i128 - gain),
    }
}

fn is_at_most(given: i128, most: Option<i128>) -> bool
    ensures { result ≡ is_at_most given most }
{
    match most {
        None => false,
        Some(most) => given <= most,
    }
}

/// Whether the case is asked and fails.
fn case_fails(gains: &Gains, check: &Check, act: Act, hi: Move, lo: Move, case: Case) -> bool
    requires hi { IsShortMove hi }
    requires lo { IsShortMove lo }
    ensures { result ≡ case_fails (noted_in gains.now) check.now act hi lo case }
{
    is_asked(act, hi, lo, case) && !is_at_most(given(hi, lo, case), bound_of(gains, check, case))
}

/// Whether one of the cases fails.
fn any_fails(gains: &Gains, check: &Check, act: Act, hi: Move, lo: Move, cases: &[Case]) -> bool
    requires hi { IsShortMove hi }
    requires lo { IsShortMove lo }
    ensures { result ≡ any_fails (noted_in gains.now) check.now act hi lo cases.now }
{
    match cases {
        [] => false,
        [case, rest @ ..] => {
            case_fails(gains, check, act, hi, lo, *case)
                || any_fails(gains, check, act, hi, lo, rest)
        }
    }
}

/// What a write does to the number of its column.
fn move_of(write: &Write) -> Move
    ensures is { result ≡ move_of (Some write.now) }
    ensures short { IsShortMove result }
{
    match write {
        Write::Delta(number) => Move::Adds(*number as i128),
        Write::Set(Val::Int(number)) => Move::Sets(*number as i128),
        Write::Set(Val::Text(_)) => Move::Sets(0),
    }
}

/// What the writes do to the number of a column.
fn move_to(column: u16, writes: &[(u16, Write)]) -> Move
    ensures is { result ≡ move_of (write_to column writes.now) }
    ensures short { IsShortMove result }
{
    match writes {
        [] => Move::Leaves,
        [(number, write), rest @ ..] => {
            if *number == column {
                move_of(write)
            } else {
                move_to(column, rest)
            }
        }
    }
}

/// What the change does to the number of a side; a missing column stays zero.
fn move_at(column: &Option<Ident>, e: &RowEffect) -> Move
    ensures is { result ≡ move_at (moves_of (effect_of e.now)) (number_of column.now) }
    ensures short { IsShortMove result }
{
    match column {
        None => Move::Leaves,
        Some(column) => move_to(column.num, e.writes.as_slice()),
    }
}

/// Whether some case of the check fails on the change.
pub fn check_fails(gains: &Gains, check: &Check, e: &RowEffect) -> bool
    ensures { result ≡ check_fails (noted_in gains.now) check.now (effect_of e.now) }
{
    let hi = move_at(&check.hi, e);
    let lo = move_at(&check.lo, e);
    any_fails(gains, check, e.act, hi, lo, &CASES)
}
