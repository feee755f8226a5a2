ghost use Rattle.std.specs.Prelude.{◌≡◌, suc, ◌<◌};
ghost use Rattle.sv_value.specs.Cuts.{counts};
ghost use Rattle.sv_value.specs.declared.packets.Packet.TheVariants.{Blue};
ghost use Rattle.sv_causal.specs.Missing.{IsMissing};
ghost use Rattle.sv_causal.specs.Causes.{IsAnswer};

use sv_effect::Op;
use sv_value::{Cut, Packet, Site};

/// What is to become of a packet at a site that has a cut.
#[derive(Clone, Copy, Debug, PartialEq, Eq)]
pub enum Readiness {
    /// The cut has it.
    Duplicate,
    /// The cut lacks it, and has all that its operation was made on.
    Now,
    /// The cut lacks it and something that its operation was made on; `missing` is the first packet of that.
    Early { missing: Packet },
}

/// The next blue packet of the site at this place, where so many came before.
fn blue_at(place: usize, seq: u32) -> Packet
    requires { place < 8 }
    ensures { result ≡ Blue (suc place) seq }
{
    match Site::new(place as u8 + 1) {
        Some(site) => Packet::Blue { site, seq },
        None => unreachable!(),
    }
}

/// The first packet that the cut lacks of what is asked for; `None` where it covers that.
#[tactic(auto, using(crate::proofs::MissingLaws::missing))]
pub fn first_missing(cut: &Cut, deps: &Cut) -> Option<Packet>
    ensures { IsMissing (counts cut.now) (counts deps.now) result }
{
    for place in 0..8usize {
        if cut.blue[place] < deps.blue[place] {
            return Some(blue_at(place, cut.blue[place]));
        }
    }
    if cut.reds < deps.reds {
        return Some(Packet::Red { slot: cut.reds });
    }
    None
}

/// What is to become of the packet at a site that has the cut, where this is the packet's operation.
#[tactic(auto, using(crate::proofs::CauseLaws::duplicate))]
pub fn ready(cut: &Cut, op: &Op, packet: Packet) -> Readiness
    ensures { IsAnswer (counts cut.now) (counts op.now.deps) packet result }
{
    if cut.has(packet) {
        return Readiness::Duplicate;
    }
    match first_missing(cut, &op.deps) {
        Some(missing) => Readiness::Early { missing },
        None => Readiness::Now,
    }
}
