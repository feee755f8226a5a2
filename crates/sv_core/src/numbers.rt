ghost use Rattle.std.specs.Prelude.{All, map};
ghost use Rattle.sv_effect.specs.Room.{IsWordWrite, AreWordWrites};
ghost use Rattle.sv_effect.specs.RunChanges.{effect_of};
ghost use Rattle.sv_effect.specs.TablesOfCut.{delta_of, number_in};
ghost use Rattle.sv_listing.specs.Right.{AreWords};
ghost use Rattle.sv_core.specs.Counts.{AddsShort, HasShortValues, IsShort};

use sv_app::InitRow;
use sv_effect::{RowEffect, Write};
use sv_value::Val;

/// Reads the numbers of the initial rows, which have 64 bits.
pub(crate) fn tell_short_rows(init: &[InitRow])
    ensures { All HasShortValues init.now }
{
    for row in init {
        tell_short_values(row.values.items());
    }
}

fn tell_short_values(values: &[Val])
    ensures { All (λ v. IsShort (number_in v)) values.now }
{
    for value in values {
        tell_short(value);
    }
}

fn tell_short(value: &Val)
    ensures { IsShort (number_in value.now) }
{
    match value {
        Val::Int(number) => {
            let _number = *number;
        }
        Val::Text(_) => {}
    }
}

/// Reads the numbers that changes add, which have 64 bits.
pub(crate) fn tell_short_changes(effects: &[RowEffect])
    ensures { All AddsShort effects.now }
{
    for effect in effects {
        tell_short_writes(effect.writes.as_slice());
    }
}

fn tell_short_writes(writes: &[(u16, Write)])
    ensures { All (λ w. IsShort (delta_of w.1)) writes.now }
{
    for (_, write) in writes {
        tell_short_write(write);
    }
}

fn tell_short_write(write: &Write)
    ensures { IsShort (delta_of write.now) }
{
    match write {
        Write::Delta(number) => {
            let _number = *number;
        }
        Write::Set(_) => {}
    }
}

/// Reads the integers that changes write, which have 64 bits.
pub(crate) fn tell_words(effects: &[RowEffect])
    ensures { AreWords (map effect_of effects.now) }
{
    match effects {
        [] => {}
        [effect, rest @ ..] => {
            tell_word_writes(effect.writes.as_slice());
            tell_words(rest);
        }
    }
}

fn tell_word_writes(writes: &[(u16, Write)])
    ensures { AreWordWrites writes.now }
{
    match writes {
        [] => {}
        [(_, write), rest @ ..] => {
            tell_word_write(write);
            tell_word_writes(rest);
        }
    }
}

fn tell_word_write(write: &Write)
    ensures { IsWordWrite write.now }
{
    match write {
        Write::Delta(number) => {
            let _number = *number;
        }
        Write::Set(Val::Int(number)) => {
            let _number = *number;
        }
        Write::Set(Val::Text(_)) => {}
    }
}
