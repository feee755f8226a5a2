ghost use Rattle.std.specs.Prelude.{◌≡◌, ◌<◌, ◌≤◌, [], length, slice_get, option_copied, IfOk, IsTrue, ◌↔◌};
ghost use Rattle.sv_order.specs.Grants.{IsGranted};

use crate::grants::Granted;
use std::alloc::Global;
use std::marker::Model;
use sv_effect::Op;
use sv_value::NoMemory;

/// The red operations, each in its slot. Contracts see the list of them, and how many more there is room for.
#[derive(Drop)]
pub struct RedOrder {
    ops: Vec<Op>,
    room: u32,
}

impl Model for RedOrder {
    ghost use Rattle.std.specs.Vec.{vec_len, vec_capacity};
    ghost use Rattle.sv_order.specs.Slots.{Slots, HasSpace};

    ghost Value = { Slots };

    ghost view = { λ order. record { ops = order.ops.items; room = order.room } };

    ghost invariant = { λ order. HasSpace (vec_len order.ops) order.room (vec_capacity order.ops) };
}

impl RedOrder {
    /// An order with no operation, and space for so many.
    ///
    /// # Errors
    ///
    /// `NoMemory` where there is none for the space.
    pub fn start(alloc: Global, room: u32) -> Result<RedOrder, NoMemory>
        ensures { IfOk result (λ order. order ≡ record { ops = []; room = room }) }
    {
        Ok(RedOrder {
            ops: Vec::with_capacity(alloc, room as usize)?,
            room,
        })
    }

    /// How many operations stand.
    pub fn len(&self) -> u32
        ensures { result ≡ length self.now.ops }
    {
        self.ops.len() as u32
    }

    /// Whether no operation stands.
    pub fn is_empty(&self) -> bool
        ensures { IsTrue result ↔ (self.now.ops ≡ []) }
    {
        self.ops.is_empty()
    }

    /// How many more operations there is room for.
    pub fn room(&self) -> u32
        ensures { result ≡ self.now.room }
    {
        self.room
    }

    /// The operation in a slot; `None` where fewer stand.
    pub fn get(&self, slot: u32) -> Option<&Op>
        ensures { option_copied result ≡ slice_get self.now.ops slot }
    {
        self.ops.get(slot as usize)
    }

    /// Puts the operation in the slot `expected`, where so many stand. Where more stand, nothing changes, and the
    /// operation comes back with the site of the one that has that slot.
    pub fn append(&mut self, expected: u32, op: Op) -> Granted
        requires expected { expected ≤ length self.old.ops }
        requires room { 1 ≤ self.old.room }
        ensures { IsGranted self.old expected op result self.new }
    {
        if (expected as usize) < self.ops.len() {
            return Granted::Behind {
                slot: expected,
                owner: self.ops[expected as usize].site,
                op,
            };
        }
        match self.ops.push(op) {
            Ok(()) => {}
            Err(_) => unreachable!(),
        }
        self.room -= 1;
        Granted::Slot { slot: expected }
    }
}
