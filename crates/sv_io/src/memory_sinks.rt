ghost use Rattle.std.specs.Prelude.{◌≡◌, ◌≤◌, ◌<◌, ◌↔◌, ◌⊎◌, [], Some, Ok, true, length, take, drop, min, IfOk, IsErr, IsOk, OnErr};
ghost use Rattle.std.specs.Io.{WritesAtMost};
ghost use Rattle.sv_io.specs.Faults.{Rose};
ghost use Rattle.sv_io.specs.Flows.{TakesFront};
ghost use Rattle.sv_io.specs.Memory.{FailsNext, IsFull, accepted, told, after_write, after_piece};

use crate::calls::CallCount;
use crate::faults::Failed;
use crate::kept::Kept;
use crate::sinks::Sink;
use std::alloc::Global;
use std::marker::Model;
use sv_value::NoMemory;

/// A sink into memory that takes small pieces, fails at chosen calls and where its room is used up.
#[derive(Debug, Drop)]
pub struct MemSink {
    kept: Kept,
    step: usize,
    calls: CallCount,
}

impl Model for MemSink {
    ghost use Rattle.std.specs.Prelude.{◌≤◌};
    ghost use Rattle.sv_io.specs.Memory.{Tray};

    ghost Value = { Tray };

    ghost view = { λ sink. record { held = sink.kept; step = sink.step; calls = sink.calls } };

    ghost invariant = { λ sink. 1 ≤ sink.step };
}

impl MemSink {
    /// Takes at most `step` bytes a call and `room` in all; the calls whose numbers, from 1, stand in `fail` fail,
    /// and so does one with a piece that isn't empty when the room is used up.
    ///
    /// # Errors
    ///
    /// `NoMemory` where there is none for the room and a copy of `fail`.
    pub fn new(alloc: Global, room: usize, step: usize, fail: &[u32]) -> Result<MemSink, NoMemory>
        requires { 1 ≤ step }
        ensures { IfOk result (λ sink. sink ≡ record {
          held = record { bytes = []; room = room };
          step = step;
          calls = record { fail = fail.now; made = 0; faults = 0 };
        }) }
    {
        Ok(MemSink {
            kept: Kept::new(alloc, room)?,
            step,
            calls: CallCount::new(alloc, fail)?,
        })
    }

    /// The bytes taken so far.
    pub fn taken(&self) -> &[u8]
        ensures { result.now ≡ self.now.held.bytes }
    {
        self.kept.bytes()
    }
}

impl Sink for MemSink {
    ghost taken = { λ sink. Some sink.held.bytes };

    ghost faults = { λ sink. sink.calls.faults };

    fn write(&mut self, buf: &[u8]) -> Result<usize, Failed>
        ensures bound { WritesAtMost result buf.now }
        ensures bytes { TakesFront (Some self.old.held.bytes) (Some self.new.held.bytes) result buf.now }
        ensures count { self.old.calls.faults ≤ self.new.calls.faults }
        ensures cause { OnErr result (Rose self.old.calls.faults self.new.calls.faults) }
        ensures fails { IsErr result ↔ (FailsNext self.old.calls ⊎ IsFull self.old.held buf.now) }
        ensures taken { IfOk result (λ count. count ≡ accepted self.old (length buf.now)) }
        ensures after { self.new ≡ after_write result buf.now self.old }
    {
        let full = self.kept.free() == 0 && !buf.is_empty();
        if full || self.calls.fails_next() {
            return self.calls.counted(Err(Failed));
        }
        let count = buf.len().min(self.step).min(self.kept.free());
        self.kept.keep(&buf[..count]);
        self.calls.counted(Ok(count))
    }
}

/// A sink into memory that never fails: it keeps the first bytes that it has room for.
#[derive(Debug, Drop)]
pub struct SureSink {
    kept: Kept,
    whole: bool,
}

impl Model for SureSink {
    ghost use Rattle.sv_io.specs.Memory.{Sure};

    ghost Value = { Sure };

    ghost view = { λ sink. record { held = sink.kept; whole = sink.whole } };
}

impl SureSink {
    /// Keeps the first `room` bytes, and tells its bytes as long as no more came.
    ///
    /// # Errors
    ///
    /// `NoMemory` where there is none for the room.
    pub fn new(alloc: Global, room: usize) -> Result<SureSink, NoMemory>
        ensures { IfOk result (λ sink. sink ≡ record { held = record { bytes = []; room = room }; whole = true }) }
    {
        Ok(SureSink {
            kept: Kept::new(alloc, room)?,
            whole: true,
        })
    }

    /// The bytes kept: all that came, or as many of the first as there was room for.
    pub fn taken(&self) -> &[u8]
        ensures { result.now ≡ self.now.held.bytes }
    {
        self.kept.bytes()
    }
}

impl Sink for SureSink {
    ghost taken = { told };

    ghost faults = { λ _. 0 };

    fn write(&mut self, buf: &[u8]) -> Result<usize, Failed>
        ensures bound { WritesAtMost result buf.now }
        ensures bytes { TakesFront (told self.old) (told self.new) result buf.now }
        ensures sure { result ≡ Ok (length buf.now) }
        ensures after { self.new ≡ after_piece buf.now self.old }
    {
        let count = buf.len().min(self.kept.free());
        self.kept.keep(&buf[..count]);
        self.whole = self.whole && count == buf.len();
        Ok(buf.len())
    }
}
