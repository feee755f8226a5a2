ghost use Rattle.std.specs.Prelude.{◌≡◌, ◌≤◌, ◌<◌, None, OnErr, IfOk, length};
ghost use Rattle.std.specs.Io.{WritesAtMost};
ghost use Rattle.std.specs.Io.KnownBytes.{WriteAppends};
ghost use Rattle.sv_io.specs.Faults.{Rose, counted};
ghost use Rattle.sv_io.specs.Flows.{TakesFront};

use crate::faults::{Failed, raised};
use crate::sinks::Sink;
use std::io::Write;

/// A sink over a writer. It tells no bytes, and counts the errors of the writer and the writes that took nothing,
/// up to the greatest `u64`.
#[derive(Drop)]
pub struct StdSink<W> {
    writer: W,
    faults: u64,
}

impl<W: Write> StdSink<W> {
    /// A sink over this writer that counted no fault yet.
    pub fn new(writer: W) -> StdSink<W>
        ensures { result ≡ record { writer = writer; faults = 0 } }
    {
        StdSink { writer, faults: 0 }
    }
}

impl<W: Write> Sink for StdSink<W> {
    ghost taken = { λ _. None };

    ghost faults = { λ sink. sink.faults };

    fn write(&mut self, buf: &[u8]) -> Result<usize, Failed>
        ensures bound { WritesAtMost result buf.now }
        ensures bytes { WriteAppends (W.contents self.old.writer) (W.contents self.new.writer) result buf.now }
        ensures some { IfOk result (λ count. 0 < length buf.now → 0 < count) }
        ensures count { self.old.faults ≤ self.new.faults }
        ensures cause { OnErr result (Rose self.old.faults self.new.faults) }
        ensures faults { self.new.faults ≡ counted result self.old.faults }
    {
        match self.writer.write(buf) {
            Ok(count) if count > 0 || buf.is_empty() => Ok(count),
            _ => {
                self.faults = raised(self.faults);
                Err(Failed)
            }
        }
    }
}
