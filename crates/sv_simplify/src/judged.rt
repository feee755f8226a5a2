//! What the facts of a path say of one test.

ghost use Rattle.std.specs.Prelude.{◌≡◌, ◌<◌, ◌≤◌, ◌^◌, length, Some, IfOk};
ghost use Rattle.sv_bounds.specs.Answers.{IsSystem, above_row};
ghost use Rattle.sv_bounds.specs.Differences.{Within};
ghost use Rattle.sv_linear.specs.Apart.{found_of};
ghost use Rattle.sv_linear.specs.Codes.{form_of, test_of};
ghost use Rattle.sv_linear.specs.Left.{apart, false_row};
ghost use Rattle.sv_simplify.specs.Judged.{IsOver, IsJudged};

use std::alloc::Global;
use sv_bounds::{Answer, System, above};
use sv_linear::{Apart, Form, Test, difference_of};
use sv_value::{List, NoMemory};

/// What the facts say of a test.
#[derive(Debug, Drop)]
pub enum Judged {
    /// It is left to the run; a difference of symbols with values that meet the facts and make it false.
    Kept(Option<List<i128>>),
    /// They make it true, as a cycle of them and the row of its negation shows.
    Dropped(List<u32>),
}

/// The form as a difference of two symbols, or of a symbol and zero, where it is one.
fn apart(form: &Form) -> Option<Apart>
    ensures { found_of result ≡ apart (form_of form.now) }
{
    if form.terms.is_empty() || form.plus != 0 {
        return None;
    }
    difference_of(form)
}

/// What the facts of the system say of a test over its variables.
pub fn judge(alloc: Global, system: &System, test: &Test) -> Result<Judged, NoMemory>
    requires system { IsSystem system.now }
    requires room { length system.now.rows ≤ 4095 }
    requires test { IsOver system.now (test_of test.now) }
    ensures { IfOk result (λ judged. IsJudged system.now (false_row (test_of test.now)) judged) }
{
    match test {
        Test::AtMost { form, most } => match apart(form) {
            None => Ok(Judged::Kept(None)),
            Some(d) => judge_above(alloc, system, &d, *most + 1),
        },
        Test::InList { .. } | Test::Never => Ok(Judged::Kept(None)),
    }
}

/// What the facts say of a test that is false where the difference is at least so much.
fn judge_above(alloc: Global, system: &System, d: &Apart, least: i128) -> Result<Judged, NoMemory>
    requires system { IsSystem system.now }
    requires room { length system.now.rows ≤ 4095 }
    requires x { d.now.x < system.now.vars }
    requires y { d.now.y < system.now.vars }
    requires least { Within (2 ^ 70) least }
    ensures { IfOk result (λ judged. IsJudged system.now (Some (above_row d.now.x d.now.y least)) judged) }
{
    match above(alloc, system, d.x, d.y, least)? {
        Answer::Values(values) => Ok(Judged::Kept(Some(values))),
        Answer::Cycle(cycle) => Ok(Judged::Dropped(cycle)),
    }
}
