ghost use Rattle.std.specs.Prelude.{◌≡◌, ◌↔◌, ◌≤◌, IfOk, IsTrue, IsErr};
ghost use Rattle.sv_io.specs.Memory.{FailsNext, after_call};

use crate::faults::{Failed, raised};
use std::alloc::Global;
use std::marker::Model;
use sv_value::NoMemory;

/// Counts the calls of a source or a sink in memory, some of which are to fail.
#[derive(Debug, Drop)]
pub struct CallCount {
    fail: Vec<u32>,
    made: u64,
    faults: u64,
}

impl Model for CallCount {
    ghost use Rattle.sv_io.specs.Memory.{Calls};

    ghost Value = { Calls };

    ghost view = { λ count. record { fail = count.fail.items; made = count.made; faults = count.faults } };
}

impl CallCount {
    /// No call yet; those whose numbers, from 1, stand in `fail` are to fail.
    pub fn new(alloc: Global, fail: &[u32]) -> Result<CallCount, NoMemory>
        ensures { IfOk result (λ calls. calls ≡ record { fail = fail.now; made = 0; faults = 0 }) }
    {
        Ok(CallCount {
            fail: Vec::from_slice(alloc, fail)?,
            made: 0,
            faults: 0,
        })
    }

    /// Whether the next call is to fail.
    pub fn fails_next(&self) -> bool
        ensures { IsTrue result ↔ FailsNext self.now }
    {
        let number = raised(self.made);
        self.fail.iter().any(|call| u64::from(*call) == number)
    }

    /// Counts a call with this answer, and answers the same.
    pub fn counted<T>(&mut self, answer: Result<T, Failed>) -> Result<T, Failed>
        ensures answer { result ≡ answer }
        ensures after { self.new ≡ after_call answer self.old }
        ensures later { self.old.faults ≤ self.new.faults }
    {
        self.made = raised(self.made);
        if answer.is_err() {
            self.faults = raised(self.faults);
        }
        answer
    }
}
