//! What is left of the atoms of a path.

ghost use Rattle.std.specs.Prelude.{◌≡◌, ◌≤◌, length, map, Some, None, IfOk};
ghost use Rattle.sv_linear.specs.Atoms.{is_never};
ghost use Rattle.sv_linear.specs.Codes.{atom_of, test_of, left_of};
ghost use Rattle.sv_linear.specs.Left.{IsLeft, system_of, nothing_left};
ghost use Rattle.sv_linear.specs.Named.{AreFacts, AreAtoms};
ghost use Rattle.sv_simplify.specs.Judged.{with_judged};

use crate::judged::{Judged, judge};
use std::alloc::Global;
use sv_bounds::{Diff, System};
use sv_linear::{Atom, Dropped, KeptAtom, Left, Test};
use sv_value::{List, NoMemory};

/// What is left of the atoms of a path: an atom whose form is a difference of two symbols, or one symbol or its
/// negation, is dropped exactly where no whole numbers meet the facts and make it false; every other one is kept. Both
/// carry certificates. The first atom that nothing meets ends them. Facts and atoms are over symbols 1 to `symbols`, at
/// most 64, there are at most 4,095 facts, and all bounds lie strictly between -2^70 and 2^70.
pub fn simplify(
    alloc: Global,
    facts: &[Diff],
    symbols: u8,
    atoms: List<Atom>,
) -> Result<Left, NoMemory>
    requires few { symbols ≤ 64 }
    requires many { length facts.now ≤ 4095 }
    requires facts { AreFacts symbols facts.now }
    requires atoms { AreAtoms symbols (map atom_of atoms) }
    ensures { IfOk result (λ left. IsLeft facts.now symbols (map atom_of atoms) (left_of left)) }
{
    let system = system_of(alloc, facts, symbols)?;
    let mut left = nothing(alloc);
    for atom in atoms.into_vec() {
        if is_never(&atom.test) {
            return Ok(ended(left, atom));
        }
        let found = judge(alloc, &system, &atom.test)?;
        left = with(left, atom, found)?;
    }
    Ok(left)
}

/// The facts as a system over variable 0 and the symbols.
fn system_of(alloc: Global, facts: &[Diff], symbols: u8) -> Result<System, NoMemory>
    requires { symbols ≤ 64 }
    ensures { IfOk result (λ system. system ≡ system_of facts.now symbols) }
{
    Ok(System {
        vars: symbols + 1,
        rows: List::from_vec(Vec::from_slice(alloc, facts)?),
    })
}

fn nothing(alloc: Global) -> Left
    ensures { left_of result ≡ nothing_left None }
{
    Left {
        kept: List::new(alloc),
        dropped: List::new(alloc),
        never: None,
    }
}

/// Whether nothing meets the test.
fn is_never(test: &Test) -> bool
    ensures { result ≡ is_never (test_of test.now) }
{
    match test {
        Test::AtMost { .. } | Test::InList { .. } => false,
        Test::Never => true,
    }
}

/// With an atom that nothing meets as the last.
fn ended(left: Left, atom: Atom) -> Left
    ensures { left_of result ≡ record (left_of left) { never = Some (atom_of atom) } }
{
    let mut left = left;
    left.never = Some(atom);
    left
}

/// With one more atom.
fn with(left: Left, atom: Atom, judged: Judged) -> Result<Left, NoMemory>
    ensures { IfOk result (λ more. left_of more ≡ with_judged (left_of left) (atom_of atom) judged) }
{
    let mut left = left;
    match judged {
        Judged::Kept(shown) => left.kept.push(KeptAtom { atom, shown })?,
        Judged::Dropped(cycle) => left.dropped.push(Dropped {
            atom,
            after: left.kept.len() as u64,
            cycle,
        })?,
    }
    Ok(left)
}
