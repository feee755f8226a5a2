//! What a mailbox does with a packet that is offered to it.

ghost use Rattle.std.specs.Prelude.{◌≡◌, ◌+◌};
ghost use Rattle.sv_post.specs.Chaos.{fate_of, plan_of, putting, staying};

use sv_value::Packet;

/// What is meant for a packet: that it is put once, that it is lost, that it is put twice, or that it is held back until
/// the next packet was put.
#[derive(Clone, Copy, Debug, PartialEq, Eq)]
pub enum Fate {
    Once,
    Lost,
    Twice,
    Held,
}

/// What a mailbox does with a packet: how often it puts it, which one that was held it puts behind it, and which one it
/// holds then.
#[derive(Clone, Copy, Debug, PartialEq, Eq)]
pub struct Plan {
    pub copies: u8,
    pub released: Option<Packet>,
    pub held: Option<Packet>,
}

/// What is meant for the packet before which so many were offered to its mailbox.
pub fn fate_of(seed: u64, offered: u64) -> Fate
    ensures { result ≡ fate_of (seed + offered) }
{
    match (seed % 4 + offered % 4) % 4 {
        0 => Fate::Once,
        1 => Fate::Lost,
        2 => Fate::Twice,
        _ => Fate::Held,
    }
}

/// What a mailbox does with a packet for which this is meant, where so many more fit and that one is held.
pub fn plan_of(fate: Fate, room: usize, packet: &Packet, held: &Option<Packet>) -> Plan
    ensures { result ≡ plan_of fate room packet.now held.now }
{
    match fate {
        Fate::Once => putting(1, room, held),
        Fate::Twice => putting(2, room, held),
        Fate::Held if room > 0 => Plan {
            copies: 0,
            released: None,
            held: Some(*packet),
        },
        Fate::Held | Fate::Lost => staying(held),
    }
}

/// A packet is put so often, and the one that is held behind it, while there is room.
fn putting(copies: u8, room: usize, held: &Option<Packet>) -> Plan
    ensures { result ≡ putting copies room held.now }
{
    if (copies as usize) < room {
        return Plan {
            copies,
            released: *held,
            held: None,
        };
    }
    Plan {
        copies: room as u8,
        released: None,
        held: *held,
    }
}

/// Nothing is put.
fn staying(held: &Option<Packet>) -> Plan
    ensures { result ≡ staying held.now }
{
    Plan {
        copies: 0,
        released: None,
        held: *held,
    }
}
