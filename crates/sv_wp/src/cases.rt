//! Cases of a check on a change in forms.

ghost use Rattle.std.specs.Prelude.{◌≡◌, ◌^◌, true, false, pos, Some, IfOk, IfErr, IfSome};
ghost use Rattle.std.specs.List.{flat_map};
ghost use Rattle.std.specs.Option.{option_copied, option_map};
ghost use Rattle.sv_bounds.specs.Differences.{Within};
ghost use Rattle.sv_gains.specs.Gains.{IsShort};
ghost use Rattle.sv_linear.specs.Atoms.{asked_tests, less, meets_wide, tests_by};
ghost use Rattle.sv_linear.specs.Codes.{form_of, write_of, effect_of, test_of};
ghost use Rattle.sv_linear.specs.Forms.{is_narrow};
ghost use Rattle.sv_linear.specs.Sums.{IsStopOf};
ghost use Rattle.sv_wp.specs.Cases.{is_asked, given, most_of, asked_in};
ghost use Rattle.sv_wp.specs.Listing.{IsShortTest, IsStopIn, tests_in};

use crate::gains::GainTeller;
use crate::writes::{added_by, is_delta, is_draw, is_insert, is_set, made_by, write_at};
use std::alloc::Global;
use sv_app::{Act, Check};
use sv_gains::side;
use sv_linear::{Form, FormStop, SymEffect, SymWrite, Test, number, sub};
use sv_threat::Case;

fn is_asked(act: Act, hi: Option<&SymWrite>, lo: Option<&SymWrite>, case: Case) -> bool
    ensures { result ≡ is_asked act (option_map write_of (option_copied hi.entry)) (option_map write_of (option_copied lo.entry)) case }
{
    match case {
        Case::BothLose => !is_draw(act) && (is_delta(hi) || is_delta(lo)),
        Case::HiWins => !is_draw(act) && is_set(hi),
        Case::LoWins => !is_draw(act) && is_set(lo),
        Case::BothWin => !is_draw(act) && is_set(hi) && is_set(lo),
        Case::FromNothing => is_insert(act),
    }
}

/// What the change itself gives to `hi - lo`.
fn given(
    alloc: Global,
    hi: Option<&SymWrite>,
    lo: Option<&SymWrite>,
    case: Case,
) -> Result<Form, FormStop>
    ensures form { IfOk result (λ form. form_of form ≡ given (option_map write_of (option_copied hi.entry)) (option_map write_of (option_copied lo.entry)) case) }
    ensures wide { IfErr result (IsStopOf (given (option_map write_of (option_copied hi.entry)) (option_map write_of (option_copied lo.entry)) case)) }
{
    let zero = number(alloc, 0);
    match case {
        Case::BothLose => sub(alloc, added_by(hi, &zero), added_by(lo, &zero)),
        Case::HiWins => sub(alloc, made_by(hi, &zero), added_by(lo, &zero)),
        Case::LoWins => sub(alloc, added_by(hi, &zero), made_by(lo, &zero)),
        Case::BothWin | Case::FromNothing => { sub(alloc, made_by(hi, &zero), made_by(lo, &zero)) }
    }
}

/// What is left of the bound.
fn less(bound: i64, gain: Option<i128>) -> Option<i128>
    requires { IsShort gain }
    ensures is { result ≡ less bound gain }
    ensures short { IfSome result (Within (2 ^ 69)) }
{
    match gain {
        None => None,
        Some(gain) => Some(bound as i128 - gain),
    }
}

/// The most that the change may give.
fn most_of<G: GainTeller>(gains: &G, table: u16, check: &Check, case: Case) -> Option<i128>
    ensures is { result ≡ most_of (G.told gains.now table) check.now case }
    ensures short { IfSome result (Within (2 ^ 69)) }
{
    let hi = side(&check.hi);
    let lo = side(&check.lo);
    match case {
        Case::BothLose => less(check.most, gains.gain(table, hi, lo)),
        Case::HiWins => less(check.most, gains.gain(table, None, lo)),
        Case::LoWins => less(check.most, gains.gain(table, hi, None)),
        Case::BothWin | Case::FromNothing => Some(check.most as i128),
    }
}

/// The test that the form is at most this, its constant moved to the bound; none where it has no symbols and holds.
fn at_most(form: Form, most: i128) -> Option<Test>
    requires { Within (2 ^ 69) most }
    ensures is { tests_in (option_map test_of result) ≡ tests_by (form_of form) (Some most) }
    ensures short { IfSome result (λ test. IsShortTest (test_of test)) }
{
    let Form { terms, plus } = form;
    let most = most - plus as i128;
    if terms.is_empty() {
        if most >= 0 { None } else { Some(Test::Never) }
    } else {
        Some(Test::AtMost {
            form: Form { terms, plus: 0 },
            most,
        })
    }
}

/// The test of a case, where it is asked and its test isn't left out.
pub fn case_test<G: GainTeller>(
    alloc: Global,
    gains: &G,
    e: &SymEffect,
    check: &Check,
    case: Case,
) -> Result<Option<Test>, FormStop>
    ensures test { IfOk result (λ test. tests_in (option_map test_of test) ≡ flat_map asked_tests (asked_in (G.told gains.now e.now.table) (effect_of e.now) check.now case)) }
    ensures short { IfOk result (λ test. IfSome test (λ t. IsShortTest (test_of t))) }
    ensures narrow { IfOk result (λ test. meets_wide (asked_in (G.told gains.now e.now.table) (effect_of e.now) check.now case) ≡ false) }
    ensures wide { IfErr result (IsStopIn (asked_in (G.told gains.now e.now.table) (effect_of e.now) check.now case)) }
{
    let hi = write_at(&check.hi, e.writes.items());
    let lo = write_at(&check.lo, e.writes.items());
    if !is_asked(e.act, hi, lo, case) {
        return Ok(None);
    }
    match most_of(gains, e.table, check, case) {
        None => Ok(Some(Test::Never)),
        Some(most) => match given(alloc, hi, lo, case) {
            Err(stop) => Err(stop),
            Ok(form) => Ok(at_most(form, most)),
        },
    }
}
