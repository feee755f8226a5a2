ghost use Rattle.std.specs.Prelude.{◌≡◌, [], map, IfOk, IfErr};
ghost use Rattle.sv_linear.specs.Codes.{atom_of};
ghost use Rattle.sv_paths.specs.Numbered.{part_of};
ghost use Rattle.sv_symbolic.specs.Executes.{effects_of};
ghost use Rattle.sv_listing.specs.Frugal.{IsTemplate};
ghost use Rattle.sv_dict.specs.Refused.{IsExcess, by_form, by_shape};
ghost use Rattle.sv_dict.specs.Standing.{Lists, IsPathOf, IsReady, IsStop, schema_in, told_in, txns_in};

use crate::answers::Excess;
use crate::changes::put_changes;
use crate::settings::Setting;
use sv_label::Template;
use sv_linear::{Atom, FormStop, Shape};
use sv_paths::{Path, Unit};
use sv_simplify::simplify;
use sv_symbolic::{ShapeStop, execute};
use sv_value::List;

fn by_shape(stop: ShapeStop) -> Excess
    ensures { result ≡ by_shape stop }
{
    match stop {
        ShapeStop::Many | ShapeStop::Wide => Excess::TooMuch,
        ShapeStop::NoMemory => Excess::NoMemory,
    }
}

fn by_form(stop: FormStop) -> Excess
    ensures { result ≡ by_form stop }
{
    match stop {
        FormStop::Wide => Excess::TooMuch,
        FormStop::NoMemory => Excess::NoMemory,
    }
}

/// The atoms of the changes of a path.
fn atoms_of(setting: &Setting<'_>, shape: &Shape) -> Result<List<Atom>, FormStop>
    requires { IsReady setting.now }
    ensures listed { IfOk result (λ atoms. Lists (told_in setting.now) (schema_in setting.now) 1 (effects_of shape.now) [] (map atom_of atoms)) }
    ensures stops { IfErr result (IsStop (told_in setting.now) (schema_in setting.now) (effects_of shape.now)) }
{
    let mut atoms = List::new(setting.alloc);
    match put_changes(setting, shape.effects.items(), 1, &mut atoms) {
        Err(stop) => Err(stop),
        Ok(()) => Ok(atoms),
    }
}

/// The template of a path.
pub fn template_of(setting: &Setting<'_>, unit: &Unit<'_>, path: &Path) -> Result<Template, Excess>
    requires ready { IsReady setting.now }
    requires path { IsPathOf (txns_in setting.now) (part_of unit.now) path.now }
    ensures template { IfOk result (IsTemplate (schema_in setting.now) (txns_in setting.now) (part_of unit.now) path.now.choices) }
    ensures excess { IfErr result (IsExcess (schema_in setting.now) (txns_in setting.now) unit.now.txn) }
{
    match execute(setting.alloc, setting.app, unit, path) {
        Err(stop) => Err(by_shape(stop)),
        Ok(shape) => match atoms_of(setting, &shape) {
            Err(stop) => Err(by_form(stop)),
            Ok(atoms) => {
                let facts = shape.facts.items();
                match simplify(setting.alloc, facts, shape.symbols, atoms) {
                    Err(_) => Err(Excess::NoMemory),
                    Ok(left) => Ok(Template {
                        left,
                        facts: shape.facts,
                        symbols: shape.symbols,
                    }),
                }
            }
        },
    }
}
