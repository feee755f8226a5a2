//! The answer that is noted for two sides.

ghost use Rattle.std.specs.Prelude.{◌≡◌, All};
ghost use Rattle.sv_gains.specs.Gains.{IsShort, is_side, noted_in};

use crate::gains::Gain;

/// Whether two sides are of one column, or both missing.
fn is_side(held: Option<u16>, side: Option<u16>) -> bool
    ensures { result ≡ is_side held side }
{
    match (held, side) {
        (None, None) => true,
        (Some(held), Some(side)) => held == side,
        (None, Some(_)) | (Some(_), None) => false,
    }
}

/// The first answer that is noted for the sides.
pub fn noted_in(gains: &[Gain], hi: Option<u16>, lo: Option<u16>) -> Option<i128>
    requires { All (λ gain. IsShort gain.most) gains.now }
    ensures told { result ≡ noted_in gains.now hi lo }
    ensures short { IsShort result }
{
    match gains {
        [] => None,
        [gain, rest @ ..] => {
            if is_side(gain.hi, hi) && is_side(gain.lo, lo) {
                gain.most
            } else {
                noted_in(rest, hi, lo)
            }
        }
    }
}
