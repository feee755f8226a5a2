//! What checks and lists ask of values.

ghost use Rattle.std.specs.Prelude.{◌≡◌, ◌-ℤ◌, int_le};
ghost use Rattle.sv_app.specs.declared.gots.Got.TheVariants as gots;
ghost use Rattle.sv_app.specs.Valid.{number_of};
ghost use Rattle.sv_check.specs.Rules.{is_listed};

use sv_app::Got;
use sv_value::Text;

/// The number that it is; a text counts as zero.
fn as_number(got: Got) -> Got
    ensures { result ≡ gots.Num (number_of got) }
{
    match got {
        Got::Num(number) => Got::Num(number),
        Got::Text(_) => Got::Num(0),
    }
}

/// Whether a difference is at most so much; a text counts as zero. A difference that leaves 128 bits has the sign of its
/// first number.
pub(crate) fn is_within(hi: Got, lo: Got, most: i64) -> bool
    ensures { result ≡ int_le (number_of hi -ℤ number_of lo) most }
{
    match (as_number(hi), as_number(lo)) {
        (Got::Num(hi), Got::Num(lo)) => match hi.checked_sub(lo) {
            Some(difference) => difference <= most as i128,
            None => hi < 0,
        },
        _ => unreachable!(),
    }
}

/// Whether the text is one of these.
pub(crate) fn is_listed(got: &Got, texts: &[Text]) -> bool
    ensures { result ≡ is_listed got.now texts.now }
{
    match got {
        Got::Num(_) => false,
        Got::Text(text) => {
            for listed in texts {
                if text.cmp(listed).is_eq() {
                    return true;
                }
            }
            false
        }
    }
}
