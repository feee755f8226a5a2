ghost use Rattle.std.specs.Prelude.{◌≡◌};
ghost use Rattle.sv_app.specs.Codes.{number_of};

use std::alloc::{AllocError, AllocFailed};
use sv_value::{List, NoMemory, Spot};

/// Why a document is refused.
#[derive(Debug, Drop)]
pub enum Code {
    /// A token that the grammar doesn't allow at its place.
    Syntax,
    /// A name that stands for nothing.
    Unknown,
    /// A name or a key that stands before.
    Twice,
    /// A change that the kind of its table doesn't allow.
    Kind,
    /// A type that isn't allowed at its place.
    Typing,
    /// One more than a limit allows.
    Many,
    /// Tables that refer to each other in a circle.
    Cyclic,
    /// The checks of a table, by its number, that no row can meet. `cycle` are numbers of its checks, from 0 and in order
    /// of writing: added up, they leave no number that could meet them.
    Unsatisfiable { table: u16, cycle: List<u32> },
    /// An initial row, by its number from 0, that breaks an invariant, by its number.
    BadInit { inv: u16, row: u32 },
    /// A document of too many bytes.
    TooLong,
    /// A number of a session, a site or a packet that isn't allowed in a step.
    BadStep,
    /// An initial row under a key that is left to be drawn.
    Reserved,
}

impl Code {
    /// The number that is printed.
    pub fn number(&self) -> u8
        ensures { result ≡ number_of self.now }
    {
        match self {
            Code::Syntax => 1,
            Code::Unknown => 2,
            Code::Twice => 3,
            Code::Kind => 4,
            Code::Typing => 5,
            Code::Many => 6,
            Code::Cyclic => 7,
            Code::Unsatisfiable { .. } => 8,
            Code::BadInit { .. } => 9,
            Code::TooLong => 10,
            Code::BadStep => 11,
            Code::Reserved => 12,
        }
    }
}

/// A refusal: where, and why.
#[derive(Debug, Drop)]
pub struct Refusal {
    pub spot: Spot,
    pub code: Code,
}

/// Why a reader has no answer.
#[derive(Debug, Drop)]
pub enum Stop {
    Refused(Refusal),
    NoMemory,
}

impl From<NoMemory> for Stop {
    ghost use Rattle.sv_app.specs.declared.refusals.Stop.TheVariants.{NoMemory as no_memory};

    ghost from_gives = { λ _ stop. stop ≡ no_memory };

    fn from(_none: NoMemory) -> Stop {
        Stop::NoMemory
    }
}

impl From<AllocError> for Stop {
    ghost use Rattle.sv_app.specs.declared.refusals.Stop.TheVariants.{NoMemory as no_memory};

    ghost from_gives = { λ _ stop. stop ≡ no_memory };

    fn from(_error: AllocError) -> Stop {
        Stop::NoMemory
    }
}

impl<T: Drop> From<AllocFailed<T>> for Stop {
    ghost use Rattle.sv_app.specs.declared.refusals.Stop.TheVariants.{NoMemory as no_memory};

    ghost from_gives = { λ _ stop. stop ≡ no_memory };

    fn from(_error: AllocFailed<T>) -> Stop {
        Stop::NoMemory
    }
}
