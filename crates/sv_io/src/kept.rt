ghost use Rattle.std.specs.Prelude.{◌≡◌, [], ◌≤◌, length, IfOk};
ghost use Rattle.sv_io.specs.Memory.{free, keeping};

use std::alloc::Global;
use std::marker::Model;
use sv_value::NoMemory;

/// Bytes in memory, with room for so many that keeping them takes no further memory.
#[derive(Debug, Drop)]
pub struct Kept {
    bytes: Vec<u8>,
    room: usize,
}

impl Model for Kept {
    ghost use Rattle.std.specs.Prelude.{◌≤◌, vec_len, vec_capacity};
    ghost use Rattle.sv_io.specs.Memory.{Held};

    ghost Value = { Held };

    ghost view = { λ kept. record { bytes = kept.bytes.items; room = kept.room } };

    ghost invariant = { λ kept. (vec_len kept.bytes ≤ kept.room) × (kept.room ≤ vec_capacity kept.bytes) };
}

impl Kept {
    pub fn new(alloc: Global, room: usize) -> Result<Kept, NoMemory>
        ensures { IfOk result (λ kept. kept ≡ record { bytes = []; room = room }) }
    {
        Ok(Kept {
            bytes: Vec::with_capacity(alloc, room)?,
            room,
        })
    }

    pub fn bytes(&self) -> &[u8]
        ensures { result.now ≡ self.now.bytes }
    {
        self.bytes.as_slice()
    }

    /// How many more bytes there is room for.
    pub fn free(&self) -> usize
        ensures { result ≡ free self.now }
    {
        self.room - self.bytes.len()
    }

    /// Keeps the bytes of the piece behind the others.
    pub fn keep(&mut self, piece: &[u8])
        requires { length piece.now ≤ free self.old }
        ensures { self.new ≡ keeping self.old piece.now }
    {
        match self.bytes.extend_from_slice(piece) {
            Ok(()) => {}
            Err(_) => unreachable!(),
        }
    }
}
