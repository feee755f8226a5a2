ghost use Rattle.std.specs.Prelude.{◌≡◌, ◌<◌, ◌≤◌, ◌+◌, suc, length, map, take, [], IfOk, IfErr};
ghost use Rattle.sv_linear.specs.Codes.{left_of};
ghost use Rattle.sv_paths.specs.Numbered.{part_of};
ghost use Rattle.sv_listing.specs.Frugal.{parts_from};
ghost use Rattle.sv_dict.specs.Refused.{IsExcess, by_paths};
ghost use Rattle.sv_dict.specs.Standing.{
  ArePathsOf,
  HasPaths,
  HasUnits,
  IsCount,
  IsReady,
  IsRoomFor,
  IsTemplateAt,
  IsUnit,
  parts_at,
  parts_before,
  schema_in,
  txns_in,
};

use crate::answers::Excess;
use crate::settings::Setting;
use crate::templates::template_of;
use std::alloc::Global;
use sv_label::{Dictionary, Template};
use sv_linear::Left;
use sv_paths::{Path, PathStop, Unit, paths, units};

/// How many templates a dictionary has at most.
pub const MOST_TEMPLATES: u32 = 8192;

/// How many atoms are listed in it at most, whether they are left to the run or dropped.
pub const MOST_ATOMS: usize = 65536;

/// A dictionary, and how many atoms are listed in it.
#[derive(Drop)]
pub struct Counted {
    pub dict: Dictionary,
    pub atoms: usize,
}

impl Counted {
    /// An empty dictionary.
    pub fn new(alloc: Global) -> Counted
        ensures dict { result.dict ≡ [] }
        ensures atoms { result.atoms ≡ 0 }
    {
        Counted {
            dict: Dictionary::new(alloc),
            atoms: 0,
        }
    }
}

/// How many atoms are listed in what is left of a path, where they are not too many for any dictionary.
fn listed_in(left: &Left) -> Option<usize>
    ensures { IsCount (left_of left.now) result }
{
    let kept = left.kept.len();
    let dropped = left.dropped.len();
    if kept > MOST_ATOMS || dropped > MOST_ATOMS {
        None
    } else {
        Some(kept + dropped + usize::from(left.never.is_some()))
    }
}

/// How many atoms one template more has, where it passes no limit.
fn room_for(counted: &Counted, left: &Left) -> Option<usize>
    requires { counted.now.atoms ≤ 65536 }
    ensures { IsRoomFor counted.now.dict counted.now.atoms (left_of left.now) result }
{
    let listed = listed_in(left)?;
    if counted.dict.entries() < MOST_TEMPLATES && listed <= MOST_ATOMS - counted.atoms {
        Some(listed)
    } else {
        None
    }
}

/// With the template of a path.
fn with_template(
    setting: &Setting<'_>,
    unit: &Unit<'_>,
    paths: &[Path],
    at: usize,
    template: Template,
    counted: Counted,
) -> Result<Counted, Excess>
    requires within { at < length paths.now }
    requires template { IsTemplateAt (schema_in setting.now) (txns_in setting.now) (part_of unit.now) paths.now at template }
    requires has { HasPaths setting.now (part_of unit.now) (take at paths.now) counted }
    ensures has { IfOk result (HasPaths setting.now (part_of unit.now) (take (suc at) paths.now)) }
    ensures excess { IfErr result (IsExcess (schema_in setting.now) (txns_in setting.now) unit.now.txn) }
{
    match room_for(&counted, &template.left) {
        None => Err(Excess::TooMuch),
        Some(listed) => {
            let Counted { mut dict, atoms } = counted;
            let choices = paths[at].choices.items();
            match dict.add(unit.txn, unit.number, choices, template) {
                Err(_) => Err(Excess::NoMemory),
                Ok(()) => Ok(Counted {
                    dict,
                    atoms: atoms + listed,
                }),
            }
        }
    }
}

/// With the template of a path, if it doesn't abort.
fn with_path(
    setting: &Setting<'_>,
    unit: &Unit<'_>,
    paths: &[Path],
    at: usize,
    counted: Counted,
) -> Result<Counted, Excess>
    requires ready { IsReady setting.now }
    requires paths { ArePathsOf (txns_in setting.now) (part_of unit.now) paths.now }
    requires within { at < length paths.now }
    requires has { HasPaths setting.now (part_of unit.now) (take at paths.now) counted }
    ensures has { IfOk result (HasPaths setting.now (part_of unit.now) (take (suc at) paths.now)) }
    ensures excess { IfErr result (IsExcess (schema_in setting.now) (txns_in setting.now) unit.now.txn) }
{
    let path = &paths[at];
    if path.aborts {
        return Ok(counted);
    }
    match template_of(setting, unit, path) {
        Err(excess) => Err(excess),
        Ok(template) => with_template(setting, unit, paths, at, template, counted),
    }
}

/// With the templates of all paths of a unit.
fn with_paths(
    setting: &Setting<'_>,
    unit: &Unit<'_>,
    paths: &[Path],
    counted: Counted,
) -> Result<Counted, Excess>
    requires ready { IsReady setting.now }
    requires paths { ArePathsOf (txns_in setting.now) (part_of unit.now) paths.now }
    requires has { HasPaths setting.now (part_of unit.now) [] counted }
    ensures has { IfOk result (HasPaths setting.now (part_of unit.now) paths.now) }
    ensures excess { IfErr result (IsExcess (schema_in setting.now) (txns_in setting.now) unit.now.txn) }
{
    let mut counted = counted;
    for at in 0..paths.len() {
        match with_path(setting, unit, paths, at, counted) {
            Err(excess) => return Err(excess),
            Ok(more) => counted = more,
        }
    }
    Ok(counted)
}

fn by_paths(stop: PathStop) -> Excess
    ensures { result ≡ by_paths stop }
{
    match stop {
        PathStop::Many { .. } => Excess::TooMuch,
        PathStop::NoMemory => Excess::NoMemory,
    }
}

/// With the templates of a unit.
fn with_unit(setting: &Setting<'_>, unit: &Unit<'_>, counted: Counted) -> Result<Counted, Excess>
    requires ready { IsReady setting.now }
    requires unit { IsUnit (txns_in setting.now) (part_of unit.now) }
    requires has { HasUnits setting.now (parts_before (txns_in setting.now) unit.now.txn unit.now.number) counted }
    ensures has { IfOk result (HasUnits setting.now (parts_before (txns_in setting.now) unit.now.txn (suc unit.now.number))) }
    ensures excess { IfErr result (IsExcess (schema_in setting.now) (txns_in setting.now) unit.now.txn) }
{
    match paths(setting.alloc, unit) {
        Err(stop) => Err(by_paths(stop)),
        Ok(all) => with_paths(setting, unit, &all, counted),
    }
}

/// With the templates of the units of a transaction.
pub fn with_txn(setting: &Setting<'_>, number: u16, counted: Counted) -> Result<Counted, Excess>
    requires ready { IsReady setting.now }
    requires within { number < length (txns_in setting.now) }
    requires has { HasUnits setting.now (parts_from 0 (take number (txns_in setting.now))) counted }
    ensures has { IfOk result (HasUnits setting.now (parts_from 0 (take (suc number) (txns_in setting.now)))) }
    ensures excess { IfErr result (IsExcess (schema_in setting.now) (txns_in setting.now) number) }
{
    match units(setting.alloc, setting.app, number) {
        Err(_) => Err(Excess::NoMemory),
        Ok(all) => with_units(setting, number, &all, counted),
    }
}

/// With the templates of all these units of a transaction.
fn with_units(
    setting: &Setting<'_>,
    number: u16,
    units: &[Unit<'_>],
    counted: Counted,
) -> Result<Counted, Excess>
    requires ready { IsReady setting.now }
    requires within { number < length (txns_in setting.now) }
    requires units { map part_of units.now ≡ parts_at (txns_in setting.now) number }
    requires has { HasUnits setting.now (parts_before (txns_in setting.now) number 0) counted }
    ensures has { IfOk result (HasUnits setting.now (parts_from 0 (take (suc number) (txns_in setting.now)))) }
    ensures excess { IfErr result (IsExcess (schema_in setting.now) (txns_in setting.now) number) }
{
    let mut counted = counted;
    for at in 0..units.len() {
        let unit = &units[at];
        match with_unit(setting, unit, counted) {
            Err(excess) => return Err(excess),
            Ok(more) => counted = more,
        }
    }
    Ok(counted)
}
