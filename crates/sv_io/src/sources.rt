ghost use Rattle.std.specs.Prelude.{ℕ, ◌≤◌, List, Option, OnErr};
ghost use Rattle.std.specs.Io.{ReadsAtMost};
ghost use Rattle.sv_io.specs.Faults.{Rose};
ghost use Rattle.sv_io.specs.Flows.{GivesFront};

use crate::faults::Failed;

/// Where bytes come from.
pub trait Source {
    // The bytes not yet read, where they are told.
    ghost left: { Self → Option (List ℕ) };

    // How many faults came; it never falls.
    ghost faults: { Self → ℕ };

    /// Puts the next bytes at the front of `buf` and answers how many; into a `buf` that isn't empty, 0 is the end.
    ///
    /// # Errors
    ///
    /// `Failed` only where the count of faults rose; no byte is lost then.
    fn read(&mut self, buf: &mut [u8]) -> Result<usize, Failed>
        ensures bound { ReadsAtMost result buf.new }
        ensures bytes { GivesFront (left self.old) (left self.new) result buf.new }
        ensures count { faults self.old ≤ faults self.new }
        ensures cause { OnErr result (Rose (faults self.old) (faults self.new)) };
}
