ghost use Rattle.std.specs.Prelude.{◌≡◌};
ghost use Rattle.sv_lex.specs.declared.stops.LexStop.TheVariants.{NoMemory};

use std::alloc::AllocFailed;

/// Why a document has no list of tokens. Each place counts bytes from 0.
#[derive(Clone, Copy, Debug, PartialEq, Eq)]
pub enum LexStop {
    /// A byte that begins no token, or can't stand in an open text, or the end of the document in one.
    BadByte { at: u32 },
    /// The first digit of a number above 9223372036854775807.
    LongNumber { at: u32 },
    /// The quote of a text with more than 40 bytes.
    LongText { at: u32 },
    /// The first byte of a name of more than 32 bytes.
    LongName { at: u32 },
    /// There was no memory for the list.
    NoMemory,
}

impl<T: Drop> From<AllocFailed<T>> for LexStop {
    ghost from_gives = { λ _ stop. stop ≡ NoMemory };

    fn from(_error: AllocFailed<T>) -> LexStop {
        LexStop::NoMemory
    }
}
