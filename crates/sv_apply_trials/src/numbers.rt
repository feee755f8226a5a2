//! Numbers of 64 bits, which lie far within the bounds of a store's counts.
ghost use Rattle.std.specs.Prelude.{All};
ghost use Rattle.sv_core.specs.Counts.{AddsShort, HasShortValues, IsShort};
ghost use Rattle.sv_effect.specs.TablesOfCut.{delta_of, number_in};

use sv_app::InitRow;
use sv_effect::{RowEffect, Write};
use sv_value::Val;

/// Reads the numbers of the initial rows.
pub fn tell_short_rows(init: &[InitRow])
    ensures { All HasShortValues init.now }
{
    for row in init {
        tell_short_values(row.values.items());
    }
}

fn tell_short_values(values: &[Val])
    ensures { All (λ v. IsShort (number_in v)) values.now }
{
    for value in values {
        tell_short(value);
    }
}

fn tell_short(value: &Val)
    ensures { IsShort (number_in value.now) }
{
    match value {
        Val::Int(number) => {
            let _number = *number;
        }
        Val::Text(_) => {}
    }
}

/// Reads the numbers that changes add.
pub fn tell_short_changes(effects: &[RowEffect])
    ensures { All AddsShort effects.now }
{
    for effect in effects {
        tell_short_writes(effect.writes.as_slice());
    }
}

fn tell_short_writes(writes: &[(u16, Write)])
    ensures { All (λ w. IsShort (delta_of w.1)) writes.now }
{
    for (_, write) in writes {
        tell_short_write(write);
    }
}

fn tell_short_write(write: &Write)
    ensures { IsShort (delta_of write.now) }
{
    match write {
        Write::Delta(number) => {
            let _number = *number;
        }
        Write::Set(_) => {}
    }
}
