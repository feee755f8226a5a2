ghost use Rattle.std.specs.Prelude.{◌≡◌, ◌≤◌, length};
ghost use Rattle.sv_value.specs.Padded.{padded};

/// The bytes, and zeros behind them up to the width.
pub fn pad<const WIDTH: usize>(bytes: &[u8]) -> [u8; WIDTH]
    requires { length bytes.now ≤ WIDTH }
    ensures { result ≡ padded WIDTH bytes.now }
{
    let mut cells = [0u8; WIDTH];
    cells[..bytes.len()].copy_from_slice(bytes);
    cells
}
