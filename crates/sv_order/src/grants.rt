use sv_effect::Op;
use sv_value::Site;

/// What came of asking for a slot.
#[derive(Debug, Drop)]
pub enum Granted {
    /// The operation stands in this slot.
    Slot { slot: u32 },
    /// Another operation stands in the slot that was expected, one of the site `owner`; the operation comes back.
    Behind { slot: u32, owner: Site, op: Op },
}
