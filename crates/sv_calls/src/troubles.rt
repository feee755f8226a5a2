use std::alloc::{AllocError, AllocFailed};
use sv_value::NoMemory;

/// Why a case comes to nothing.
#[derive(Clone, Copy, Debug)]
pub enum Trouble {
    /// What is wrong with it.
    Wrong(&'static str),
    NoMemory,
}

impl From<NoMemory> for Trouble {
    fn from(_none: NoMemory) -> Trouble {
        Trouble::NoMemory
    }
}

impl From<AllocError> for Trouble {
    fn from(_error: AllocError) -> Trouble {
        Trouble::NoMemory
    }
}
