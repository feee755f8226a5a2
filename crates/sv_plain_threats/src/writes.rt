//! What a change writes, and what its act is.

ghost use Rattle.std.specs.Prelude.{◌≡◌};
ghost use Rattle.std.specs.Option.{option_map};
ghost use Rattle.sv_app.specs.Fitting.{number_in};
ghost use Rattle.sv_effect.specs.Acts.{is_insert, is_draw};
ghost use Rattle.sv_effect.specs.Fits.{IsNarrow};
ghost use Rattle.sv_effect.specs.Threatened.{is_set, number_after, write_to};

use sv_app::Act;
use sv_effect::Write;
use sv_value::Val;

/// Whether a row becomes present.
pub fn is_insert(act: Act) -> bool
    ensures { result ≡ is_insert act }
{
    match act {
        Act::Insert | Act::Fresh => true,
        Act::Update | Act::Remove => false,
    }
}

/// Whether the row's key is drawn.
pub fn is_draw(act: Act) -> bool
    ensures { result ≡ is_draw act }
{
    match act {
        Act::Fresh => true,
        Act::Insert | Act::Update | Act::Remove => false,
    }
}

/// What is written to the column.
pub fn write_to(column: u16, writes: &[(u16, Write)]) -> Option<Write>
    ensures { result ≡ write_to column writes.now }
{
    match writes {
        [] => None,
        [(number, write), rest @ ..] => {
            if *number == column {
                Some(*write)
            } else {
                write_to(column, rest)
            }
        }
    }
}

/// Whether a value is set.
pub fn is_set(write: &Option<Write>) -> bool
    ensures { result ≡ is_set write.now }
{
    match write {
        Some(Write::Set(_)) => true,
        Some(Write::Delta(_)) | None => false,
    }
}

/// A value as a number; a text counts as zero.
fn number_in(val: &Val) -> i64
    ensures { result ≡ number_in val.now }
{
    match val {
        Val::Int(number) => *number,
        Val::Text(_) => 0,
    }
}

/// A number after a write that wins or loses; a delta adds in any case.
pub fn number_after(wins: bool, write: &Option<Write>, number: i64) -> i128
    ensures value { result ≡ number_after wins write.now number }
    ensures narrow { IsNarrow result }
{
    match write {
        None => number as i128,
        Some(Write::Delta(delta)) => number as i128 + *delta as i128,
        Some(Write::Set(val)) => {
            if wins {
                number_in(val) as i128
            } else {
                number as i128
            }
        }
    }
}
