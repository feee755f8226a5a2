ghost use Rattle.std.specs.Prelude.{ℕ, ◌≤◌, List, Option, OnErr};
ghost use Rattle.std.specs.Io.{WritesAtMost};
ghost use Rattle.sv_io.specs.Faults.{Rose};
ghost use Rattle.sv_io.specs.Flows.{TakesFront};

use crate::faults::Failed;

/// Where bytes go.
pub trait Sink {
    // The bytes taken so far, where they are told.
    ghost taken: { Self → Option (List ℕ) };

    // How many faults came; it never falls.
    ghost faults: { Self → ℕ };

    /// Takes some bytes from the front of `buf`, at least one unless `buf` is empty, and answers how many.
    ///
    /// # Errors
    ///
    /// `Failed` only where the count of faults rose; no byte was taken then.
    fn write(&mut self, buf: &[u8]) -> Result<usize, Failed>
        ensures bound { WritesAtMost result buf.now }
        ensures bytes { TakesFront (taken self.old) (taken self.new) result buf.now }
        ensures count { faults self.old ≤ faults self.new }
        ensures cause { OnErr result (Rose (faults self.old) (faults self.new)) };
}
