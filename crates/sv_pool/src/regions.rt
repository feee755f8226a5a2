ghost use Rattle.std.specs.Prelude.{◌≡◌, ◌+◌, ◌≤◌, ◌++◌, ◌∷◌, [], length, slice_get, Some, IfOk};
ghost use Rattle.std.specs.Borrow.{sem};
ghost use Rattle.sv_pool.specs.Placed.{IsGiven};

use std::alloc::Global;
use std::marker::Model;
use sv_value::NoMemory;

/// Where a value stands in its region.
#[derive(Clone, Copy, Debug, PartialEq, Eq)]
pub struct Slot {
    number: u32,
}

impl Slot {
    /// How many values had been placed before it.
    pub fn number(self) -> u32
        ensures { result ≡ self.number }
    {
        self.number
    }
}

/// Values in one space, which is taken at once: each stays where it was placed, so no slot is given twice. Contracts
/// see the values in the order in which they were placed, and how many further ones fit.
#[derive(Debug, Drop)]
pub struct Region<T> {
    values: Vec<T>,
}

impl<T> Model for Region<T> {
    ghost use Rattle.std.specs.Prelude.{◌-◌, ◌<◌, ◌^◌, length};
    ghost use Rattle.std.specs.Vec.{vec_capacity};
    ghost use Rattle.sv_pool.specs.Placed.{Placed, coded_placed};

    ghost Value = { Placed T };

    ghost coded = { coded_placed T.code };

    ghost view = { λ r. record { values = r.values.items; spare = vec_capacity r.values - length r.values.items } };

    ghost invariant = { λ r. vec_capacity r.values < 2 ^ 32 };
}

impl<T> Region<T> {
    ghost use Rattle.sv_pool.specs.Lent.{lends_value};

    /// An empty region with space for so many values. It fails where there is no memory for them.
    pub fn reserve(alloc: Global, capacity: u32) -> Result<Region<T>, NoMemory>
        ensures values { IfOk result (λ region. region.values ≡ []) }
        ensures spare { IfOk result (λ region. region.spare ≡ capacity) }
    {
        Ok(Region {
            values: Vec::with_capacity(alloc, capacity as usize)?,
        })
    }

    /// How many further values fit.
    pub fn spare(&self) -> u32
        ensures { result ≡ self.now.spare }
    {
        (self.values.capacity() - self.values.len()) as u32
    }

    /// The value that was placed there.
    pub fn at(&self, slot: Slot) -> &T
        requires { IsGiven slot self.now.values }
        ensures { slice_get self.now.values slot.number ≡ Some result.now }
    {
        &self.values[slot.number as usize]
    }

    /// The value that was placed there, for writing.
    pub fn at_mut(&mut self, slot: Slot) -> &mut T
        requires { IsGiven slot self.old.values }
        ensures* writes_back { sem 𝓛 (lends_value T.row self.entry slot result) }
        ensures value { slice_get self.old.values slot.number ≡ Some result.now }
    {
        &mut self.values[slot.number as usize]
    }
}

impl<T: Drop> Region<T> {
    /// Places a value behind the others, and takes no memory. There is space for it.
    pub fn place(&mut self, value: T) -> Slot
        requires { 1 ≤ self.old.spare }
        ensures slot { result.number ≡ length self.old.values }
        ensures values { self.new.values ≡ self.old.values ++ value ∷ [] }
        ensures spare { self.new.spare + 1 ≡ self.old.spare }
    {
        let number = self.values.len() as u32;
        self.values.push_reserved(value);
        Slot { number }
    }
}
