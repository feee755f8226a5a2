use sv_value::NoMemory;

/// Why a transaction has no templates.
#[derive(Clone, Copy, Debug, PartialEq, Eq)]
pub enum Excess {
    /// It asks for too much.
    TooMuch,
    NoMemory,
}

impl From<NoMemory> for Excess {
    ghost use Rattle.std.specs.Prelude.{◌≡◌};
    ghost use Rattle.sv_dict.specs.declared.answers.Excess.TheVariants.{NoMemory as no_memory};

    ghost from_gives = { λ _ excess. excess ≡ no_memory };

    fn from(_none: NoMemory) -> Excess {
        Excess::NoMemory
    }
}
