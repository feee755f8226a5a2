ghost use Rattle.std.specs.Prelude.{◌≡◌};
ghost use Rattle.sv_reader.specs.declared.faults.ReadStop.TheVariants.{NoMemory as no_memory};

use std::alloc::{AllocError, AllocFailed};
use sv_app::Code;
use sv_value::NoMemory;

/// A refusal at the first of the last `left` tokens, or at the end of the document if `left` is 0.
#[derive(Debug, Drop)]
pub struct ReadFault {
    pub code: Code,
    pub left: usize,
}

/// Why nothing was read.
#[derive(Debug, Drop)]
pub enum ReadStop {
    Faulty(ReadFault),
    NoMemory,
}

impl From<AllocError> for ReadStop {
    ghost from_gives = { λ _ halt. halt ≡ no_memory };

    fn from(_error: AllocError) -> ReadStop {
        ReadStop::NoMemory
    }
}

impl<T: Drop> From<AllocFailed<T>> for ReadStop {
    ghost from_gives = { λ _ halt. halt ≡ no_memory };

    fn from(_error: AllocFailed<T>) -> ReadStop {
        ReadStop::NoMemory
    }
}

impl From<NoMemory> for ReadStop {
    ghost from_gives = { λ _ halt. halt ≡ no_memory };

    fn from(_none: NoMemory) -> ReadStop {
        ReadStop::NoMemory
    }
}
