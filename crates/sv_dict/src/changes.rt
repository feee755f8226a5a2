ghost use Rattle.std.specs.Prelude.{◌≡◌, ◌++◌, map, OnOk, IfOk, IfErr};
ghost use Rattle.std.specs.List.{list_any};
ghost use Rattle.sv_linear.specs.Atoms.{is_never};
ghost use Rattle.sv_linear.specs.Codes.{atom_of, effect_of, test_of};
ghost use Rattle.sv_dict.specs.Standing.{Lists, IsReady, IsStop, schema_in, told_in};

use crate::settings::Setting;
use sv_linear::{Atom, FormStop, SymEffect, Test};
use sv_value::{List, NoMemory};
use sv_wp::atoms_by;

/// Moves all of these behind the atoms.
fn append(atoms: &mut List<Atom>, more: List<Atom>) -> Result<(), NoMemory>
    ensures { OnOk result (atoms.new ≡ atoms.old ++ more) }
{
    for atom in more.into_vec() {
        atoms.push(atom)?;
    }
    Ok(())
}

/// Whether nothing meets the test.
fn is_never(test: &Test) -> bool
    ensures { result ≡ is_never (test_of test.now) }
{
    match test {
        Test::AtMost { .. } | Test::InList { .. } => false,
        Test::Never => true,
    }
}

/// Whether nothing meets one of the atoms.
fn has_never(atoms: &[Atom]) -> bool
    ensures { result ≡ list_any (λ a. is_never (test_of a.test)) atoms.now }
{
    atoms.iter().any(|atom| is_never(&atom.test))
}

/// Lists the atoms of these changes, which stand from this place on, up to and with the first that nothing meets. What
/// follows it isn't asked.
///
/// # Errors
///
/// `Wide` exactly where a form is wide that is asked for before anything that nothing meets. A place that leaves 32 bits
/// is answered `NoMemory`; no unit has as many statements.
pub fn put_changes(
    setting: &Setting<'_>,
    changes: &[SymEffect],
    place: u32,
    atoms: &mut List<Atom>,
) -> Result<(), FormStop>
    requires { IsReady setting.now }
    ensures listed { IfOk result (λ _. Lists (told_in setting.now) (schema_in setting.now) place (map effect_of changes.now) (map atom_of atoms.old) (map atom_of atoms.new)) }
    ensures stops { IfErr result (IsStop (told_in setting.now) (schema_in setting.now) (map effect_of changes.now)) }
{
    match changes {
        [] => Ok(()),
        [first, rest @ ..] => {
            match atoms_by(setting.alloc, setting.app, first, place, setting.gains) {
                Err(stop) => Err(stop),
                Ok(listed) => {
                    let ended = has_never(listed.items());
                    append(atoms, listed)?;
                    if ended {
                        return Ok(());
                    }
                    let Some(next) = place.checked_add(1) else {
                        return Err(FormStop::NoMemory);
                    };
                    put_changes(setting, rest, next, atoms)
                }
            }
        }
    }
}
