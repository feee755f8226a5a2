ghost use Rattle.std.specs.Prelude.{◌≡◌, ◌≤◌, ℕ, List, [], ◌∷◌, ◌++◌, length};
ghost use Rattle.sv_lex.specs.Spots.{spot_past, spot_at};

use sv_value::Spot;

/// The place past one more byte.
#[tactic(auto, using(crate::proofs::SpotLaws::spots))]
fn past(spot: Spot, byte: u8) -> Spot
    requires line { spot.line ≤ 67108864 }
    requires col { spot.col ≤ 67108864 }
    ensures { (before : List ℕ) → spot ≡ spot_past before → result ≡ spot_past (before ++ byte ∷ []) }
{
    if byte == b'\n' {
        Spot {
            line: spot.line + 1,
            col: 1,
        }
    } else {
        Spot {
            line: spot.line,
            col: spot.col + 1,
        }
    }
}

/// The line and the column of the place `to`, where those of the place `from` are known.
pub fn moved(bytes: &[u8], from: usize, spot: Spot, to: usize) -> Spot
    requires short { length bytes.now ≤ 67108864 }
    requires order { from ≤ to }
    requires within { to ≤ length bytes.now }
    requires placed { spot ≡ spot_at bytes.now from }
    ensures { result ≡ spot_at bytes.now to }
{
    let mut spot = spot;
    for byte in &bytes[from..to] {
        spot = past(spot, *byte);
    }
    spot
}

/// The line and the column of the place `at` of a document, which counts bytes from 0.
#[tactic(auto, using(crate::proofs::SpotLaws::spots))]
pub fn spot_of(bytes: &[u8], at: u32) -> Spot
    requires short { length bytes.now ≤ 67108864 }
    requires within { at ≤ length bytes.now }
    ensures { result ≡ spot_at bytes.now at }
{
    moved(bytes, 0, Spot { line: 1, col: 1 }, at as usize)
}
