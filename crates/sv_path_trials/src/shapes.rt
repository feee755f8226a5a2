//! What the units of a transaction do on the paths that instances took.
ghost use Rattle.std.specs.Prelude.{◌≡◌, map};
ghost use Rattle.sv_app.specs.Accepted.{AcceptedApp};
ghost use Rattle.sv_app.specs.Schema.{schema_of};
ghost use Rattle.sv_app.specs.Trees.{block_of, transactions_of};
ghost use Rattle.sv_paths.specs.Numbered.{part_of};
ghost use Rattle.sv_paths.specs.Paths.{AreAllPaths};
ghost use Rattle.sv_symbolic.specs.Executes.{parts_in};
ghost use Rattle.sv_path_trials.specs.Shaped.{IsUnitIn};

use std::alloc::Global;
use sv_app::{App, Instance};
use sv_calls::Trouble;
use sv_linear::Shape;
use sv_paths::{Path, PathStop, Unit, paths, units};
use sv_symbolic::{ShapeStop, execute};

/// The number of the one path with these choices.
fn number_of(paths: &[Path], choices: &[bool]) -> Result<usize, Trouble> {
    let mut found = None;
    for (number, path) in paths.iter().enumerate() {
        if path.choices.items() == choices {
            if found.is_some() {
                return Err(Trouble::Wrong("two paths with the same choices"));
            }
            found = Some(number);
        }
    }
    found.ok_or(Trouble::Wrong("no path with these choices"))
}

/// What the unit does on the path with these choices.
#[tactic(auto, using(crate::proofs::ShapeLaws::shaping))]
fn shape_in(
    alloc: Global,
    app: &App,
    units: &[Unit<'_>],
    txn: u16,
    instance: &Instance,
) -> Result<Shape, Trouble>
    requires accepted { AcceptedApp (schema_of app.now.tables.items) (transactions_of app.now.txns.items) }
    requires units { map part_of units.now ≡ parts_in app.now.txns.items txn }
{
    let number = instance.unit as usize;
    if number >= units.len() {
        return Err(Trouble::Wrong("no such unit"));
    }
    let unit = &units[number];
    match paths(alloc, unit) {
        Err(PathStop::NoMemory) => Err(Trouble::NoMemory),
        Err(PathStop::Many { .. }) => Err(Trouble::Wrong("too many paths")),
        Ok(all) => shape_among(alloc, app, unit, &all, instance.choices.items()),
    }
}

/// The same of a unit and all its paths.
#[tactic(auto, using(crate::proofs::ShapeLaws::shaping))]
fn shape_among(
    alloc: Global,
    app: &App,
    unit: &Unit<'_>,
    paths: &[Path],
    choices: &[bool],
) -> Result<Shape, Trouble>
    requires accepted { AcceptedApp (schema_of app.now.tables.items) (transactions_of app.now.txns.items) }
    requires unit { IsUnitIn app.now.txns.items unit.now }
    requires paths { AreAllPaths (block_of unit.now.body.now) paths.now }
{
    let number = number_of(paths, choices)?;
    if number >= paths.len() {
        return Err(Trouble::Wrong("no such path"));
    }
    let path = &paths[number];
    if path.aborts {
        return Err(Trouble::Wrong("a path that aborts"));
    }
    match execute(alloc, app, unit, path) {
        Ok(shape) => Ok(shape),
        Err(ShapeStop::NoMemory) => Err(Trouble::NoMemory),
        Err(ShapeStop::Many) => Err(Trouble::Wrong("too many symbols")),
        Err(ShapeStop::Wide) => Err(Trouble::Wrong("a wide form")),
    }
}

/// What the unit of the instance does on the path that it took.
#[tactic(auto, using(crate::proofs::ShapeLaws::shaping))]
pub fn shape(alloc: Global, app: &App, txn: u16, instance: &Instance) -> Result<Shape, Trouble>
    requires accepted { AcceptedApp (schema_of app.now.tables.items) (transactions_of app.now.txns.items) }
{
    let units = units(alloc, app, txn)?;
    shape_in(alloc, app, &units, txn, instance)
}
