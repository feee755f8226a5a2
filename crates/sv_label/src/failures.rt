//! The first atom of a template that is false on a tape.

ghost use Rattle.std.specs.Prelude.{◌≡◌, [], ◌∷◌, ◌++◌, List};
ghost use Rattle.sv_app.specs.Schema.{schema_of};
ghost use Rattle.sv_linear.specs.declared.tests.Atom.{Atom as Asked};
ghost use Rattle.sv_label.specs.Decided.{asked};
ghost use Rattle.sv_label.specs.Failures.{IsFirstOf, failed_by, sooner};

use crate::templates::Template;
use sv_app::{App, Reason};
use sv_linear::{Atom, holds};
use sv_value::Val;

/// An atom that is false: the place of its change, and what threatens it.
#[derive(Clone, Copy, Debug)]
pub struct Failed {
    pub place: u32,
    pub reason: Reason,
}

/// With one more atom behind those that were looked at.
fn with_atom(app: &App, tape: &[Val], atom: &Atom, held: Option<Failed>) -> Option<Failed>
    ensures { (before : List Asked) → IsFirstOf (schema_of app.now.tables.items) tape.now before held → IsFirstOf (schema_of app.now.tables.items) tape.now (before ++ atom.now ∷ []) result }
{
    if holds(app, &atom.test, tape) {
        return held;
    }
    match held {
        Some(found) => Some(sooner(found, atom)),
        None => Some(failed_by(atom)),
    }
}

fn failed_by(atom: &Atom) -> Failed
    ensures { result ≡ failed_by atom.now }
{
    Failed {
        place: atom.place,
        reason: atom.reason,
    }
}

/// The one of the lesser place; of equal places the one that was found.
fn sooner(found: Failed, atom: &Atom) -> Failed
    ensures { result ≡ sooner found atom.now }
{
    if atom.place < found.place {
        failed_by(atom)
    } else {
        found
    }
}

/// The first atom of a template that is false on a tape: by place, and then in the order of the list.
pub fn first_failed(app: &App, template: &Template, tape: &[Val]) -> Option<Failed>
    ensures { IsFirstOf (schema_of app.now.tables.items) tape.now (asked template.now) result }
{
    let mut held = None;
    for kept in template.left.kept.items() {
        held = with_atom(app, tape, &kept.atom, held);
    }
    match &template.left.never {
        None => held,
        Some(atom) => with_atom(app, tape, atom, held),
    }
}
