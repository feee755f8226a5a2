ghost use Rattle.std.specs.Prelude.{◌≡◌, ◌≤◌, ◌↔◌, Some, length, take, drop, min, IfOk, IsErr, IsOk, OnErr};
ghost use Rattle.std.specs.Io.{ReadsAtMost};
ghost use Rattle.sv_io.specs.Faults.{Rose};
ghost use Rattle.sv_io.specs.Flows.{GivesFront};
ghost use Rattle.sv_io.specs.Memory.{FailsNext, given, after_read};

use crate::calls::CallCount;
use crate::faults::Failed;
use crate::sources::Source;
use crate::unread::Unread;
use std::alloc::Global;
use std::marker::Model;
use sv_value::NoMemory;

/// A source over bytes in memory that gives them in small pieces and fails at chosen calls.
#[derive(Debug, Drop)]
pub struct MemSource {
    unread: Unread,
    step: usize,
    calls: CallCount,
}

impl Model for MemSource {
    ghost use Rattle.std.specs.Prelude.{◌≤◌};
    ghost use Rattle.sv_io.specs.Memory.{Feed};

    ghost Value = { Feed };

    ghost view = { λ source. record { left = source.unread; step = source.step; calls = source.calls } };

    ghost invariant = { λ source. 1 ≤ source.step };
}

impl MemSource {
    /// Gives the bytes, at most `step` a call; the calls whose numbers, from 1, stand in `fail` fail.
    ///
    /// # Errors
    ///
    /// `NoMemory` where there is none for a copy of the bytes and of `fail`.
    pub fn new(
        alloc: Global,
        bytes: &[u8],
        step: usize,
        fail: &[u32],
    ) -> Result<MemSource, NoMemory>
        requires { 1 ≤ step }
        ensures { IfOk result (λ source. source ≡ record {
          left = bytes.now;
          step = step;
          calls = record { fail = fail.now; made = 0; faults = 0 };
        }) }
    {
        Ok(MemSource {
            unread: Unread::new(alloc, bytes)?,
            step,
            calls: CallCount::new(alloc, fail)?,
        })
    }
}

impl Source for MemSource {
    ghost left = { λ source. Some source.left };

    ghost faults = { λ source. source.calls.faults };

    fn read(&mut self, buf: &mut [u8]) -> Result<usize, Failed>
        ensures bound { ReadsAtMost result buf.new }
        ensures bytes { GivesFront (Some self.old.left) (Some self.new.left) result buf.new }
        ensures count { self.old.calls.faults ≤ self.new.calls.faults }
        ensures cause { OnErr result (Rose self.old.calls.faults self.new.calls.faults) }
        ensures fails { IsErr result ↔ FailsNext self.old.calls }
        ensures given { IfOk result (λ count. count ≡ given self.old (length buf.old)) }
        ensures after { self.new ≡ after_read result self.old }
    {
        if self.calls.fails_next() {
            return self.calls.counted(Err(Failed));
        }
        let count = self.unread.give(buf, self.step);
        self.calls.counted(Ok(count))
    }
}

/// A source over bytes in memory that never fails. Contracts see the bytes not yet read.
#[derive(Debug, Drop)]
pub struct SureSource {
    unread: Unread,
}

impl Model for SureSource {
    ghost use Rattle.std.specs.Prelude.{ℕ, List};

    ghost Value = { List ℕ };

    ghost view = { λ source. source.unread };
}

impl SureSource {
    /// Gives the bytes, as many a call as there is room for.
    ///
    /// # Errors
    ///
    /// `NoMemory` where there is none for a copy of the bytes.
    pub fn new(alloc: Global, bytes: &[u8]) -> Result<SureSource, NoMemory>
        ensures { IfOk result (λ source. source ≡ bytes.now) }
    {
        Ok(SureSource {
            unread: Unread::new(alloc, bytes)?,
        })
    }
}

impl Source for SureSource {
    ghost left = { λ source. Some source };

    ghost faults = { λ _. 0 };

    fn read(&mut self, buf: &mut [u8]) -> Result<usize, Failed>
        ensures bound { ReadsAtMost result buf.new }
        ensures bytes { GivesFront (Some self.old) (Some self.new) result buf.new }
        ensures sure { IsOk result }
        ensures given { IfOk result (λ count. (count ≡ min (length buf.old) (length self.old)) × (self.new ≡ drop count self.old)) }
    {
        let room = buf.len();
        Ok(self.unread.give(buf, room))
    }
}
