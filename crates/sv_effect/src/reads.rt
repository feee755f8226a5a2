use arrayvec::ArrayVec;
use std::alloc::{AllocError, AllocFailed};
use sv_app::Got;
use sv_value::{Key, NoMemory};

/// What is told of a row: whether it is kept, whether it is present, and the values of all its columns in order. A row
/// that isn't kept has no values.
#[derive(Debug, Clone, PartialEq, Eq, Drop)]
pub struct Seen {
    pub kept: bool,
    pub present: bool,
    pub values: ArrayVec<Got, 16>,
}

/// What is asked of rows.
#[derive(Clone, Copy, Debug, PartialEq, Eq)]
pub enum Ask {
    /// The row of that key.
    Row { table: u16, key: Key },
    /// The least key after that one, or of all, whose row is present.
    Next { table: u16, after: Option<Key> },
}

/// What was told.
#[derive(Debug, Clone, PartialEq, Eq, Drop)]
pub enum Told {
    Row(Seen),
    Next(Option<Key>),
}

/// An ask, and what was told.
#[derive(Debug, Clone, PartialEq, Eq, Drop)]
pub struct Read {
    pub ask: Ask,
    pub told: Told,
}

/// Why an ask has no answer.
#[derive(Clone, Copy, Debug, PartialEq, Eq)]
pub enum Halt {
    NoMemory,
    /// The rows don't know the answer to this ask.
    Missing(Ask),
}

impl From<NoMemory> for Halt {
    ghost use Rattle.std.specs.Prelude.{◌≡◌};
    ghost use Rattle.sv_effect.specs.declared.reads.Halt.TheVariants.{NoMemory as no_memory};

    ghost from_gives = { λ _ halt. halt ≡ no_memory };

    fn from(_none: NoMemory) -> Halt {
        Halt::NoMemory
    }
}

impl From<AllocError> for Halt {
    ghost use Rattle.std.specs.Prelude.{◌≡◌};
    ghost use Rattle.sv_effect.specs.declared.reads.Halt.TheVariants.{NoMemory as no_memory};

    ghost from_gives = { λ _ halt. halt ≡ no_memory };

    fn from(_error: AllocError) -> Halt {
        Halt::NoMemory
    }
}

impl<T: Drop> From<AllocFailed<T>> for Halt {
    ghost use Rattle.std.specs.Prelude.{◌≡◌};
    ghost use Rattle.sv_effect.specs.declared.reads.Halt.TheVariants.{NoMemory as no_memory};

    ghost from_gives = { λ _ halt. halt ≡ no_memory };

    fn from(_error: AllocFailed<T>) -> Halt {
        Halt::NoMemory
    }
}
