use crate::sites::Site;

/// The name of a published operation: the `seq`-th blue one of a site, or the red one of a slot, both from 0.
#[derive(Clone, Copy, Debug, PartialEq, Eq)]
pub enum Packet {
    Blue { site: Site, seq: u32 },
    Red { slot: u32 },
}
