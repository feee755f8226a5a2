ghost use Rattle.std.specs.Prelude.{◌≡◌};

use std::alloc::{AllocError, AllocFailed};
use sv_value::NoMemory;

/// Why there is no form: a number of it leaves 64 bits, or there is no memory.
#[derive(Clone, Copy, Debug, PartialEq, Eq)]
pub enum FormStop {
    Wide,
    NoMemory,
}

impl From<NoMemory> for FormStop {
    ghost use Rattle.sv_linear.specs.declared.stops.FormStop.TheVariants.{NoMemory as no_memory};

    ghost from_gives = { λ _ stop. stop ≡ no_memory };

    fn from(_none: NoMemory) -> FormStop {
        FormStop::NoMemory
    }
}

impl From<AllocError> for FormStop {
    ghost use Rattle.sv_linear.specs.declared.stops.FormStop.TheVariants.{NoMemory as no_memory};

    ghost from_gives = { λ _ stop. stop ≡ no_memory };

    fn from(_error: AllocError) -> FormStop {
        FormStop::NoMemory
    }
}

impl<T: Drop> From<AllocFailed<T>> for FormStop {
    ghost use Rattle.sv_linear.specs.declared.stops.FormStop.TheVariants.{NoMemory as no_memory};

    ghost from_gives = { λ _ stop. stop ≡ no_memory };

    fn from(_error: AllocFailed<T>) -> FormStop {
        FormStop::NoMemory
    }
}
