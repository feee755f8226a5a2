ghost use Rattle.std.specs.Prelude.{◌≤◌, OnOk, OnErr};
ghost use Rattle.sv_io.specs.Faults.{Rose};
ghost use Rattle.sv_io.specs.Flows.{Grew, TookFront};

use crate::faults::Failed;
use crate::sinks::Sink;

/// Writes all the bytes.
///
/// # Errors
///
/// `Failed` only where the sink's count of faults rose; a front of the bytes was taken then.
#[tactic(auto, using(crate::proofs::WriteLemmas::writing))]
pub fn write_all<K: Sink>(out: &mut K, bytes: &[u8]) -> Result<(), Failed>
    ensures all { OnOk result (Grew (K.taken out.old) (K.taken out.new) bytes.now) }
    ensures front { OnErr result (TookFront (K.taken out.old) (K.taken out.new) bytes.now) }
    ensures count { K.faults out.old ≤ K.faults out.new }
    ensures failed { OnErr result (Rose (K.faults out.old) (K.faults out.new)) }
{
    let mut rest = bytes;
    while !rest.is_empty() {
        let count = out.write(rest)?;
        rest = &rest[count..];
    }
    Ok(())
}
