ghost use Rattle.std.specs.Prelude.{◌≡◌, ◌+◌, ◌<◌, ◌≤◌, ◌^◌, [], ◌∷◌, ◌++◌, length, replicate, slice_get, option_copied, IfOk};
ghost use Rattle.sv_value.specs.Cuts.{origin, number};
ghost use Rattle.sv_effect.specs.Takes.{as_insert, inserts};
ghost use Rattle.sv_core.specs.Publications.{AreSlots, IsNamed, medium_in, with_op, with_blue, with_red};

use std::alloc::Global;
use std::marker::Model;
use sv_app::Act;
use sv_effect::{Op, RowEffect};
use sv_order::{Granted, RedOrder};
use sv_pool::{Region, Slot};
use sv_value::{NoMemory, Packet, Site};

/// The operations that were published: the blue ones in one region, with a list of their slots for each site; the red
/// ones in their order; the packets of all in the order of publishing; and how many rows they insert and changes they
/// make. All space is taken at the start.
#[derive(Drop)]
pub(crate) struct Publications {
    blues: Region<Op>,
    lists: Vec<Vec<Slot>>,
    reds: RedOrder,
    order: Vec<Packet>,
    inserts: u32,
    changes: u32,
    room: u32,
}

impl Model for Publications {
    ghost use Rattle.std.specs.Prelude.{length, map};
    ghost use Rattle.std.specs.Vec.{vec_capacity};
    ghost use Rattle.sv_core.specs.Publications.{Published, picked, HasSpace};

    ghost Value = { Published };

    ghost view = { λ k. record {
      blues = map (λ slots. picked k.blues.values slots.items) k.lists.items;
      reds = k.reds.ops;
      order = k.order.items;
      inserts = k.inserts;
      changes = k.changes;
      room = k.room;
    } };

    ghost invariant = { λ k. HasSpace k.blues k.lists.items k.reds (vec_capacity k.order) (length k.order.items) k.room };
}

/// How many of the changes insert a row.
pub(crate) fn inserts_of(effects: &[RowEffect]) -> u32
    requires { length effects.now < 2 ^ 32 }
    ensures { result ≡ inserts effects.now }
{
    match effects {
        [] => 0,
        [effect, rest @ ..] => as_insert(effect.act) + inserts_of(rest),
    }
}

fn as_insert(act: Act) -> u32
    ensures { result ≡ as_insert act }
{
    match act {
        Act::Insert | Act::Fresh => 1,
        Act::Update | Act::Remove => 0,
    }
}

/// Eight lists, each with space for so many slots.
fn empty_lists(alloc: Global, room: u32) -> Result<Vec<Vec<Slot>>, NoMemory>
    ensures { IfOk result (λ lists. AreSlots 8 room lists.items) }
{
    let mut lists = Vec::new(alloc);
    for _ in 0..8usize {
        lists.push(Vec::with_capacity(alloc, room as usize)?)?;
    }
    Ok(lists)
}

impl Publications {
    /// Nothing is published, and there is space for so many operations.
    pub fn start(alloc: Global, room: u32) -> Result<Publications, NoMemory>
        ensures { IfOk result (λ k. k ≡ record { blues = replicate 8 []; reds = []; order = []; inserts = 0; changes = 0; room = room }) }
    {
        Ok(Publications {
            blues: Region::reserve(alloc, room)?,
            lists: empty_lists(alloc, room)?,
            reds: RedOrder::start(alloc, room)?,
            order: Vec::with_capacity(alloc, room as usize)?,
            inserts: 0,
            changes: 0,
            room,
        })
    }

    /// The operation of the packet; `None` where it isn't published.
    pub fn get(&self, packet: &Packet) -> Option<&Op>
        ensures { option_copied result ≡ slice_get (medium_in self.now (origin packet.now)) (number packet.now) }
    {
        match packet {
            Packet::Blue { site, seq } => self.blue(*site, *seq),
            Packet::Red { slot } => self.reds.get(*slot),
        }
    }

    /// The site's operation of this number; `None` where it isn't published.
    fn blue(&self, site: Site, seq: u32) -> Option<&Op>
        ensures { option_copied result ≡ slice_get (medium_in self.now site) seq }
    {
        let list = &self.lists[site.number() as usize - 1];
        if (seq as usize) < list.len() {
            Some(self.blues.at(list[seq as usize]))
        } else {
            None
        }
    }

    /// How many operations of the packet's origin are published.
    pub fn count(&self, packet: &Packet) -> u32
        ensures { result ≡ length (medium_in self.now (origin packet.now)) }
    {
        match packet {
            Packet::Blue { site, .. } => self.count_of(*site),
            Packet::Red { .. } => self.reds.len(),
        }
    }

    /// How many operations of the site are published.
    fn count_of(&self, site: Site) -> u32
        ensures { result ≡ length (medium_in self.now site) }
    {
        self.lists[site.number() as usize - 1].len() as u32
    }

    /// The packets of all, in the order of publishing.
    pub fn order(&self) -> &[Packet]
        ensures { result.now ≡ self.now.order }
    {
        &self.order
    }

    /// How many rows they insert.
    pub fn inserts(&self) -> u32
        ensures { result ≡ self.now.inserts }
    {
        self.inserts
    }

    /// How many changes they make.
    pub fn changes(&self) -> u32
        ensures { result ≡ self.now.changes }
    {
        self.changes
    }

    /// Publishes the operation under the packet, which is the next one of its origin. There is space for it.
    pub fn publish(&mut self, packet: &Packet, op: Op)
        requires room { 1 ≤ self.old.room }
        requires few { length op.effects ≤ 64 }
        requires inserts { self.old.inserts + inserts op.effects < 2 ^ 32 }
        requires changes { self.old.changes + length op.effects < 2 ^ 32 }
        ensures named { IsNamed packet.now }
        ensures op { self.new ≡ with_op self.old packet.now op }
    {
        match packet {
            Packet::Blue { site, .. } => self.publish_blue(*site, op),
            Packet::Red { .. } => self.publish_red(op),
        }
    }

    /// Publishes a blue operation of the site. There is space for it.
    fn publish_blue(&mut self, site: Site, op: Op)
        requires room { 1 ≤ self.old.room }
        requires few { length op.effects ≤ 64 }
        requires inserts { self.old.inserts + inserts op.effects < 2 ^ 32 }
        requires changes { self.old.changes + length op.effects < 2 ^ 32 }
        ensures from { 1 ≤ site }
        ensures to { site ≤ 8 }
        ensures op { self.new ≡ with_blue self.old site op }
    {
        let place = site.number() as usize - 1;
        let seq = self.lists[place].len() as u32;
        self.inserts += inserts_of(op.effects.items());
        self.changes += op.effects.len() as u32;
        self.room -= 1;
        self.order.push_reserved(Packet::Blue { site, seq });
        let slot = self.blues.place(op);
        self.lists[place].push_reserved(slot);
    }

    /// Publishes a red operation in the next slot. There is space for it.
    fn publish_red(&mut self, op: Op)
        requires room { 1 ≤ self.old.room }
        requires few { length op.effects ≤ 64 }
        requires inserts { self.old.inserts + inserts op.effects < 2 ^ 32 }
        requires changes { self.old.changes + length op.effects < 2 ^ 32 }
        ensures { self.new ≡ with_red self.old op }
    {
        let slot = self.reds.len();
        self.inserts += inserts_of(op.effects.items());
        self.changes += op.effects.len() as u32;
        self.room -= 1;
        self.order.push_reserved(Packet::Red { slot });
        match self.reds.append(slot, op) {
            Granted::Slot { .. } => {}
            Granted::Behind { .. } => unreachable!(),
        }
    }
}
