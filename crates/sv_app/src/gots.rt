use sv_value::Text;

/// A value as it stands in a row. The sum of a counter isn't bound to 64 bits.
#[derive(Clone, Copy, Debug, PartialEq, Eq)]
pub enum Got {
    Num(i128),
    Text(Text),
}

impl Default for Got {
    ghost use Rattle.std.specs.Prelude.{◌≡◌, pos};
    ghost use Rattle.sv_app.specs.declared.gots.Got.TheVariants.{Num};

    ghost is_default = { λ got. got ≡ Num (pos 0) };

    fn default() -> Got {
        Got::Num(0)
    }
}
