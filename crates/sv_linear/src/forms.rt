ghost use Rattle.std.specs.Prelude.{◌≡◌, true};
ghost use Rattle.sv_linear.specs.Forms.{is_form};

use sv_value::List;

/// A sum of symbols with coefficients, and a constant. Symbols count from 1 and stand in ascending order, none with the
/// coefficient 0.
#[derive(Debug, Drop)]
pub struct Form {
    pub terms: List<(u8, i64)>,
    pub plus: i64,
    pub ghost right: { is_form (record { terms = terms; plus = plus }) ≡ true },
}
