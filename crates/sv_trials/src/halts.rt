use std::alloc::{AllocError, AllocFailed};
use sv_value::NoMemory;

/// Why a run ends before its last statement.
#[derive(Clone, Copy, Debug, PartialEq, Eq)]
pub enum End {
    Abort(u16),
    NoRow,
    Exists,
    Range,
    TooLarge,
}

/// Why there is nothing more to be done.
#[derive(Clone, Copy, Debug, PartialEq, Eq)]
pub enum Halted {
    /// The run has ended.
    Ended(End),
    NoMemory,
}

impl From<NoMemory> for Halted {
    ghost use Rattle.std.specs.Prelude.{◌≡◌};
    ghost use Rattle.sv_trials.specs.declared.halts.Halted.TheVariants.{NoMemory as no_memory};

    ghost from_gives = { λ _ halted. halted ≡ no_memory };

    fn from(_none: NoMemory) -> Halted {
        Halted::NoMemory
    }
}

impl From<AllocError> for Halted {
    ghost use Rattle.std.specs.Prelude.{◌≡◌};
    ghost use Rattle.sv_trials.specs.declared.halts.Halted.TheVariants.{NoMemory as no_memory};

    ghost from_gives = { λ _ halted. halted ≡ no_memory };

    fn from(_error: AllocError) -> Halted {
        Halted::NoMemory
    }
}

impl<T: Drop> From<AllocFailed<T>> for Halted {
    ghost use Rattle.std.specs.Prelude.{◌≡◌};
    ghost use Rattle.sv_trials.specs.declared.halts.Halted.TheVariants.{NoMemory as no_memory};

    ghost from_gives = { λ _ halted. halted ≡ no_memory };

    fn from(_error: AllocFailed<T>) -> Halted {
        Halted::NoMemory
    }
}
