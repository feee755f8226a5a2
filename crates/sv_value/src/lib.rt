//! Values, keys, stamps, packets and cuts: what every layer above speaks of.
#![tactic(auto)]

mod cuts;
mod integers;
mod lists;
mod memory;
mod names;
mod packets;
mod padded;
mod sites;
mod spots;
mod stamps;
mod texts;
mod values;

pub use cuts::Cut;
pub use integers::put_int;
pub use lists::List;
pub use memory::NoMemory;
pub use names::Name;
pub use packets::Packet;
pub use sites::Site;
pub use spots::Spot;
pub use stamps::Stamp;
pub use texts::Text;
pub use values::{Key, Val};
