ghost use Rattle.std.specs.Prelude.{◌≡◌, ◌≤◌, ◌++◌, [], length, take, drop, slice_get, IfOk, IsTrue, ◌↔◌};
ghost use Rattle.std.specs.List.{filter, list_any};
ghost use Rattle.circular_buffer.specs.Buffer.{buffer};
ghost use Rattle.sv_value.specs.Cuts.{counts};
ghost use Rattle.sv_causal.specs.Inboxes.{is_same, with_packet, without, lacks};

use circular_buffer::HeapCircularBuffer;
use std::alloc::Global;
use std::marker::Model;
use sv_value::{Cut, NoMemory, Packet};

/// The most packets that an inbox holds.
const MOST: usize = 64;

/// The packets that came to a site too early, the oldest first, at most 64 of them. Contracts see the list of them.
#[derive(Drop)]
pub struct Inbox {
    packets: HeapCircularBuffer<Packet>,
}

impl Model for Inbox {
    ghost use Rattle.std.specs.Prelude.{◌≡◌, List};
    ghost use Rattle.sv_value.specs.declared.packets.Packet.{Packet};

    ghost Value = { List Packet };

    ghost view = { λ inbox. inbox.packets.items };

    ghost invariant = { λ inbox. inbox.packets.capacity ≡ 64 };
}

impl Inbox {
    /// An inbox with no packet, and space for 64.
    ///
    /// # Errors
    ///
    /// `NoMemory` where there is none for the space.
    pub fn new(alloc: Global) -> Result<Inbox, NoMemory>
        ensures { IfOk result (λ inbox. inbox ≡ []) }
    {
        Ok(Inbox {
            packets: HeapCircularBuffer::with_capacity(alloc, MOST)?,
        })
    }

    /// How many packets it holds.
    pub fn len(&self) -> usize
        ensures value { result ≡ length self.now }
        ensures most { result ≤ 64 }
    {
        self.packets.len()
    }

    /// Whether it holds no packet.
    pub fn is_empty(&self) -> bool
        ensures { IsTrue result ↔ (self.now ≡ []) }
    {
        self.packets.is_empty()
    }

    /// The packet at a place, counted from the oldest, which is at 0; `None` where fewer are held.
    pub fn get(&self, place: usize) -> Option<Packet>
        ensures { result ≡ slice_get self.now place }
    {
        self.packets.get(place).copied()
    }

    /// Appends the packet, unless it is there. Where 64 others are held, the oldest of them is forgotten.
    pub fn put(&mut self, packet: Packet)
        ensures { self.new ≡ with_packet self.old packet }
    {
        if !is_held(&self.packets, &packet) {
            self.packets.push_back(packet);
        }
    }

    /// Takes the oldest packet out; `None` where none is held.
    pub fn take_front(&mut self) -> Option<Packet>
        ensures value { result ≡ slice_get self.old 0 }
        ensures rest { self.new ≡ drop 1 self.old }
    {
        self.packets.pop_front()
    }

    /// Takes the packet at a place out, counted from the oldest, which is at 0; `None` where fewer are held. The others
    /// keep their order.
    pub fn remove(&mut self, place: usize) -> Option<Packet>
        ensures value { result ≡ slice_get self.old place }
        ensures rest { self.new ≡ without self.old place }
    {
        let many = self.packets.len();
        if place >= many {
            return None;
        }
        turn(&mut self.packets, place);
        let removed = self.packets.pop_front();
        turn(&mut self.packets, many - 1 - place);
        removed
    }

    /// Forgets the packets that the cut has. The others keep their order.
    pub fn forget(&mut self, cut: &Cut)
        ensures { self.new ≡ filter (lacks (counts cut.now)) self.old }
    {
        keep_lacked(&mut self.packets, cut);
    }
}

/// Whether the packets are the same.
fn is_same(one: &Packet, other: &Packet) -> bool
    ensures { result ≡ is_same one.now other.now }
{
    one == other
}

/// Whether the packet is among these.
fn is_among(packets: &[Packet], packet: &Packet) -> bool
    ensures { result ≡ list_any (is_same packet.now) packets.now }
{
    packets.iter().any(|held| is_same(packet, held))
}

/// Whether the packet is held.
#[tactic(auto, using(crate::proofs::PassLaws::held))]
fn is_held(packets: &HeapCircularBuffer<Packet>, packet: &Packet) -> bool
    ensures { result ≡ list_any (is_same packet.now) packets.now.items }
{
    let (front, back) = packets.as_slices();
    is_among(front, packet) || is_among(back, packet)
}

/// Whether the cut lacks the packet.
fn is_lacked(cut: &Cut, packet: &Packet) -> bool
    ensures { result ≡ lacks (counts cut.now) packet.now }
{
    !cut.has(*packet)
}

/// Moves the oldest packets, so many, behind the others.
fn turn(packets: &mut HeapCircularBuffer<Packet>, times: usize)
    requires within { length packets.old.items ≤ packets.old.capacity }
    requires times { times ≤ length packets.old.items }
    ensures { packets.new ≡ buffer (drop times packets.old.items ++ take times packets.old.items) packets.old.capacity }
{
    for _ in 0..times {
        if let Some(packet) = packets.pop_front() {
            packets.push_back(packet);
        }
    }
}

/// Keeps the packets that the cut lacks, in their order.
fn keep_lacked(packets: &mut HeapCircularBuffer<Packet>, cut: &Cut)
    ensures { packets.new ≡ buffer (filter (lacks (counts cut.now)) packets.old.items) packets.old.capacity }
{
    let many = packets.len();
    for _ in 0..many {
        if let Some(packet) = packets.pop_front() {
            if is_lacked(cut, &packet) {
                packets.push_back(packet);
            }
        }
    }
}
