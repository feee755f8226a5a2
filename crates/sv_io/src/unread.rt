ghost use Rattle.std.specs.Prelude.{◌≡◌, ◌++◌, length, take, drop, min, IfOk};

use std::alloc::Global;
use std::marker::Model;
use sv_value::NoMemory;

/// Bytes in memory that are read from the front. Contracts see those not yet read.
#[derive(Debug, Drop)]
pub struct Unread {
    bytes: Vec<u8>,
    at: usize,
}

impl Model for Unread {
    ghost use Rattle.std.specs.Prelude.{ℕ, List, ◌≤◌, drop, vec_len};

    ghost Value = { List ℕ };

    ghost view = { λ unread. drop unread.at unread.bytes.items };

    ghost invariant = { λ unread. unread.at ≤ vec_len unread.bytes };
}

impl Unread {
    pub fn new(alloc: Global, bytes: &[u8]) -> Result<Unread, NoMemory>
        ensures { IfOk result (λ unread. unread ≡ bytes.now) }
    {
        Ok(Unread {
            bytes: Vec::from_slice(alloc, bytes)?,
            at: 0,
        })
    }

    /// Puts the next bytes at the front of `buf`, at most `most`, and answers how many.
    pub fn give(&mut self, buf: &mut [u8], most: usize) -> usize
        ensures count { result ≡ min (length buf.old) (min most (length self.old)) }
        ensures buf { buf.new ≡ take result self.old ++ drop result buf.old }
        ensures rest { self.new ≡ drop result self.old }
    {
        let count = buf.len().min(most).min(self.bytes.len() - self.at);
        buf[..count].copy_from_slice(&self.bytes[self.at..self.at + count]);
        self.at += count;
        count
    }
}
