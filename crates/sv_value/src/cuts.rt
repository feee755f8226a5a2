ghost use Rattle.std.specs.Prelude.{◌≡◌, ◌↔◌, ℕ, ◌+◌, ◌<◌, ◌≤◌, IsTrue};
ghost use Rattle.sv_value.specs.Cuts.{counts, more, Covers, origin, number};

use crate::packets::Packet;
use crate::sites::Site;

/// How much of what was published a site has: the first so many blue operations of each site, and the first so many
/// reds.
#[derive(Clone, Copy, Debug, PartialEq, Eq)]
pub struct Cut {
    /// How many blue operations of each site, site 1 first.
    pub blue: [u32; 8],
    /// How many red operations, in the one order of all of them.
    pub reds: u32,
}

impl Cut {
    /// The cut that has nothing.
    pub fn empty() -> Cut
        ensures { (o : ℕ) → counts result o ≡ 0 }
    {
        Cut {
            blue: [0; 8],
            reds: 0,
        }
    }

    /// How many blue operations of the site it has.
    pub fn blue_of(&self, site: Site) -> u32
        ensures { result ≡ counts self.now site }
    {
        self.blue[site.number() as usize - 1]
    }

    /// Whether it has the packet.
    pub fn has(&self, packet: Packet) -> bool
        ensures { IsTrue result ↔ (number packet < counts self.now (origin packet)) }
    {
        match packet {
            Packet::Blue { site, seq } => seq < self.blue_of(site),
            Packet::Red { slot } => slot < self.reds,
        }
    }

    /// Whether each count is at least the other's.
    pub fn covers(&self, other: &Cut) -> bool
        ensures { IsTrue result ↔ Covers (counts self.now) (counts other.now) }
    {
        if self.reds < other.reds {
            return false;
        }
        for place in 0..8usize {
            if self.blue[place] < other.blue[place] {
                return false;
            }
        }
        true
    }

    /// One more blue operation of the site.
    pub fn add_blue(&mut self, site: Site)
        requires room { counts self.old site < 4294967295 }
        ensures { (o : ℕ) → counts self.new o ≡ more (counts self.old) site o }
    {
        self.blue[site.number() as usize - 1] += 1;
    }

    /// One more red operation.
    pub fn add_red(&mut self)
        requires room { self.old.reds < 4294967295 }
        ensures { (o : ℕ) → counts self.new o ≡ more (counts self.old) 0 o }
    {
        self.reds += 1;
    }
}
