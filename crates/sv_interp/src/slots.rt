ghost use Rattle.std.specs.Prelude.{◌≡◌, ◌≤◌, pos, ◌∷◌, [], length, OnOk, IfOk};
ghost use Rattle.sv_app.specs.declared.gots.Got.TheVariants as gots;
ghost use Rattle.sv_app.specs.Slots.{with_item};
ghost use Rattle.sv_effect.specs.RunValues.{nothing};

use std::alloc::Global;
use sv_app::Got;
use sv_value::{List, NoMemory, Val};

/// Puts a value at its number, with the number 0 where nothing was put before it.
#[tactic(auto, using(sv_effect::proofs::SlotLaws::slots))]
pub fn put_value(values: &mut Vec<Val>, number: u16, val: &Val) -> Result<(), NoMemory>
    ensures { OnOk result (values.new.items ≡ with_item nothing number val.now values.old.items) }
{
    let at = number as usize;
    while values.len() < at {
        values.push(Val::Int(0))?;
    }
    if at < values.len() {
        values[at] = *val;
    } else {
        values.push(*val)?;
    }
    Ok(())
}

/// The same of rows, with empty ones before it.
#[tactic(auto, using(sv_effect::proofs::SlotLaws::slots))]
pub fn put_row(
    alloc: Global,
    rows: &mut Vec<List<Got>>,
    number: u16,
    row: List<Got>,
) -> Result<(), NoMemory>
    ensures { OnOk result (rows.new.items ≡ with_item [] number row rows.old.items) }
{
    let at = number as usize;
    while rows.len() < at {
        rows.push(List::new(alloc))?;
    }
    if at < rows.len() {
        rows[at] = row;
    } else {
        rows.push(row)?;
    }
    Ok(())
}
