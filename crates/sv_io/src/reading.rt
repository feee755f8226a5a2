ghost use Rattle.std.specs.Prelude.{◌≡◌, ◌+◌, ◌≤◌, ◌<◌, length, IfOk, OnOk, OnErr, IfSome, IsErrOf};
ghost use Rattle.std.specs.Io.KnownBytes.{IsAtEnd};
ghost use Rattle.sv_io.specs.Faults.{Rose};
ghost use Rattle.sv_io.specs.Flows.{Passed, PassedUpTo, most_bytes};

use crate::faults::Failed;
use crate::sources::Source;
use std::alloc::Global;
use thiserror::Error;

/// The most bytes of an input.
const MOST_BYTES: usize = 1_048_576;

/// The most bytes asked for at once.
const PIECE: usize = 4_096;

/// Why an input was not read.
#[derive(Clone, Copy, Debug, PartialEq, Eq, Error)]
pub enum ReadError {
    /// The source failed.
    #[error("the source failed")]
    Failed,
    /// More than 1,048,576 bytes came.
    #[error("more than 1,048,576 bytes came")]
    TooLong,
    /// There was no memory for the bytes.
    #[error("there was no memory")]
    NoMemory,
}

/// All bytes up to the end. It asks for at most 4,096 bytes at once, and never for more than 1,048,577 in all.
///
/// # Errors
///
/// `Failed` only where the source's count of faults rose before more than 1,048,576 bytes came, `TooLong` exactly where
/// more came, and `NoMemory`. After an error the bytes that came are gone from the source.
#[tactic(auto, using(crate::proofs::ReadLemmas::reading))]
pub fn read_all<S: Source>(alloc: Global, input: &mut S) -> Result<Vec<u8>, ReadError>
    ensures bytes { IfOk result (λ read. IfSome (S.left input.old) (λ bytes. read.items ≡ bytes)) }
    ensures end { OnOk result (IsAtEnd (S.left input.new)) }
    ensures short { IfOk result (λ read. length read.items ≤ most_bytes) }
    ensures passed { IfOk result (λ read. Passed (S.left input.old) (S.left input.new) (length read.items)) }
    ensures long { IsErrOf result ReadError.TooLong → Passed (S.left input.old) (S.left input.new) (most_bytes + 1) }
    ensures err { OnErr result (PassedUpTo (S.left input.old) (S.left input.new) (most_bytes + 1)) }
    ensures count { S.faults input.old ≤ S.faults input.new }
    ensures failed { IsErrOf result ReadError.Failed → Rose (S.faults input.old) (S.faults input.new) }
    ensures failed_in_time { IsErrOf result ReadError.Failed → PassedUpTo (S.left input.old) (S.left input.new) most_bytes }
{
    let mut piece = [0u8; PIECE];
    let mut bytes: Vec<u8> = Vec::new(alloc);
    while bytes.len() <= MOST_BYTES {
        let room = (MOST_BYTES + 1 - bytes.len()).min(PIECE);
        match input.read(&mut piece[..room]) {
            Err(Failed) => return Err(ReadError::Failed),
            Ok(0) => return Ok(bytes),
            Ok(count) => {
                if bytes.extend_from_slice(&piece[..count]).is_err() {
                    return Err(ReadError::NoMemory);
                }
            }
        }
    }
    Err(ReadError::TooLong)
}
