//! The mailbox of a site, and what a pass knows of it.

ghost use Rattle.std.specs.Prelude.{◌≡◌, ◌≤◌, ◌+◌, ◌%◌, ◌^◌, [], IfOk, IfSome, IfNone};
ghost use Rattle.sv_hub.specs.Extends.{Extends};
ghost use Rattle.sv_post.specs.Chaos.{fate_of, plan_of};
ghost use Rattle.sv_post.specs.Logs.{Puts, Takes, WasEmpty};

use crate::chaos::{Plan, fate_of, plan_of};
use crate::logs::{Both, Log, OneLog, Put, Take};
use crossbeam_queue::{Pass, RuledArrayQueue};
use std::alloc::Global;
use std::marker::Model;
use std::sync::{Mutex, Wait};
use sv_value::{NoMemory, Packet};

/// The most packets that a mailbox holds.
const MOST: usize = 256;

/// How many packets were offered to a mailbox, and which one it holds back.
#[derive(Drop)]
struct Offers {
    count: u64,
    held: Option<Packet>,
}

impl Offers {
    /// What becomes of one packet more, where so many more fit into the mailbox.
    fn next(&mut self, seed: u64, room: usize, packet: &Packet) -> Plan
        ensures plan { result ≡ plan_of (fate_of (seed + self.old.count)) room packet.now self.old.held }
        ensures held { self.new.held ≡ result.held }
        ensures count { self.new.count ≡ (self.old.count + 1) % 2 ^ 64 }
    {
        let plan = plan_of(fate_of(seed, self.count), room, packet, &self.held);
        self.count = self.count.wrapping_add(1);
        self.held = plan.held;
        plan
    }
}

/// The packets for one site that were put and not taken, at most 256, and what was offered so far. Contracts see which
/// queue it is.
#[derive(Drop)]
pub(crate) struct Mailbox {
    queue: RuledArrayQueue<Packet, Log, OneLog>,
    offers: Mutex<Offers>,
}

impl Model for Mailbox {
    ghost use Rattle.std.specs.Prelude.{◌≡◌};
    ghost use Rattle.atomic_table.specs.Seated.{TableId};
    ghost use Rattle.crossbeam_queue.specs.Passes.{ruled_capacity};

    ghost Value = { TableId };

    ghost view = { λ mailbox. mailbox.queue.table.shared.table_id };

    ghost invariant = { λ mailbox. ruled_capacity mailbox.queue ≡ 256 };
}

/// What a pass knows of one mailbox. Contracts see which it is, and what was seen of its log.
#[derive(Drop)]
pub(crate) struct Lane {
    pass: Pass<Packet, Log>,
}

impl Model for Lane {
    ghost use Rattle.std.specs.Prelude.{◌≡◌, []};
    ghost use Rattle.sv_post.specs.Sight.{LaneSight};

    ghost Value = { LaneSight };

    ghost view = { λ lane. record { table = lane.pass.table_id; seen = lane.pass.me.0.client.seen } };

    ghost invariant = { λ lane. lane.pass.me.1 ≡ [] };
}

impl Mailbox {
    /// An empty mailbox, and a lane that has seen all of it.
    pub(crate) fn new(alloc: Global) -> Result<(Mailbox, Lane), NoMemory>
        ensures { IfOk result (λ made. made.1 ≡ record { table = made.0; seen = [] }) }
    {
        let (queue, pass) = RuledArrayQueue::ruled(alloc, MOST)?;
        let offers = Mutex::new(Offers {
            count: 0,
            held: None,
        });
        Ok((Mailbox { queue, offers }, Lane { pass }))
    }

    /// Another lane that has seen the same.
    pub(crate) fn twin(&self, lane: &mut Lane) -> Lane
        requires { lane.old.table ≡ self.now }
        ensures { (result ≡ lane.old) × (lane.new ≡ lane.old) }
    {
        Lane {
            pass: self.queue.another::<Both>(&mut lane.pass),
        }
    }

    /// Takes the oldest packet; `None` only where none was held at a moment of the call.
    pub(crate) fn take<R: Wait>(&self, rt: &R, lane: &mut Lane) -> Option<Packet>
        requires { lane.old.table ≡ self.now }
        ensures table { lane.new.table ≡ self.now }
        ensures taken { IfSome result (λ packet. Takes lane.old.seen packet lane.new.seen) }
        ensures none { IfNone result ((lane.new ≡ lane.old) × WasEmpty lane.old.seen) }
    {
        self.queue.pop_as::<Take, R>(rt, &mut lane.pass)
    }

    /// Puts the packet, unless the mailbox is full; whether it did.
    fn put<R: Wait>(&self, rt: &R, lane: &mut Lane, packet: &Packet) -> bool
        requires { lane.old.table ≡ self.now }
        ensures table { lane.new.table ≡ self.now }
        ensures seen { Extends lane.new.seen lane.old.seen }
    {
        self.queue
            .push_as::<Put, R>(rt, &mut lane.pass, *packet)
            .is_ok()
    }

    /// Offers the packet to the mailbox; how often it was put.
    #[tactic(auto, using(sv_hub::proofs::ExtendsLaws::extending))]
    pub(crate) fn offer<R: Wait>(&self, rt: &R, seed: u64, lane: &mut Lane, packet: &Packet) -> u32
        requires { lane.old.table ≡ self.now }
        ensures table { lane.new.table ≡ self.now }
        ensures seen { Extends lane.new.seen lane.old.seen }
        ensures most { result ≤ 2 }
    {
        let mut offers = self.offers.lock(rt);
        let room = MOST - self.queue.len_as::<Take, R>(rt, &mut lane.pass);
        let plan = offers.next(seed, room, packet);
        let mut count = 0;
        for _ in 0..plan.copies {
            if self.put(rt, lane, packet) {
                count += 1;
            }
        }
        self.release(rt, lane, &plan.released);
        count
    }

    /// Puts the packet that was held, if there is one.
    #[tactic(auto, using(sv_hub::proofs::ExtendsLaws::extending))]
    fn release<R: Wait>(&self, rt: &R, lane: &mut Lane, released: &Option<Packet>)
        requires { lane.old.table ≡ self.now }
        ensures table { lane.new.table ≡ self.now }
        ensures seen { Extends lane.new.seen lane.old.seen }
    {
        if let Some(packet) = released {
            self.put(rt, lane, packet);
        }
    }
}
