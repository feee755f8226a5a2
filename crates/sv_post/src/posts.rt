ghost use Rattle.std.specs.Prelude.{◌≡◌, ◌≤◌, ◌<◌, length, get_or, None, IfOk, IfSome, IfNone};
ghost use Rattle.sv_post.specs.Logs.{Takes, WasEmpty};
ghost use Rattle.sv_post.specs.Sight.{Belongs, HasSite, IsLater, IsUnseen, seen_of, with_seen};

use crate::mailboxes::{Lane, Mailbox};
use std::alloc::Global;
use std::marker::Model;
use std::sync::Wait;
use sv_value::{NoMemory, Packet, Site};

/// A mailbox for each site. Contracts see which these are, site 1 first.
#[derive(Drop)]
pub struct Post {
    mailboxes: Vec<Mailbox>,
    seed: u64,
}

impl Model for Post {
    ghost use Rattle.std.specs.Prelude.{◌≤◌, List, length};
    ghost use Rattle.atomic_table.specs.Seated.{TableId};

    ghost Value = { List TableId };

    ghost view = { λ post. post.mailboxes.items };

    ghost invariant = { λ post. length post.mailboxes.items ≤ 8 };
}

/// A thread's token for a post. It has seen a part of the log of each mailbox. Contracts see these.
#[derive(Drop)]
pub struct PostPass {
    lanes: [Option<Lane>; 8],
}

impl Model for PostPass {
    ghost use Rattle.std.specs.Prelude.{◌≡◌, length};
    ghost use Rattle.sv_post.specs.Sight.{PassSight};

    ghost Value = { PassSight };

    ghost view = { λ pass. pass.lanes };

    ghost invariant = { λ pass. length pass.lanes ≡ 8 };
}

impl Post {
    /// An empty mailbox of 256 packets for each of so many sites, and a pass that has seen all of their logs. What is
    /// meant for the first packet that is offered to a mailbox is told by the seed.
    pub fn new(alloc: Global, sites: u8, seed: u64) -> Result<(Post, PostPass), NoMemory>
        requires { (1 ≤ sites) × (sites ≤ 8) }
        ensures sites { IfOk result (λ made. length made.0 ≡ sites) }
        ensures own { IfOk result (λ made. Belongs made.0 made.1) }
        ensures seen { IfOk result (λ made. IsUnseen made.1) }
    {
        let mut mailboxes = Vec::new(alloc);
        let mut lanes = [None, None, None, None, None, None, None, None];
        for place in 0..sites {
            let (mailbox, lane) = Mailbox::new(alloc)?;
            mailboxes.push(mailbox)?;
            lanes[place as usize] = Some(lane);
        }
        Ok((Post { mailboxes, seed }, PostPass { lanes }))
    }

    /// Offers the packet to the mailbox of each other site; how often it was put into them.
    pub fn send<R: Wait>(&self, rt: &R, pass: &mut PostPass, from: Site, packet: Packet) -> u32
        requires pass { Belongs self.now pass.old }
        requires site { HasSite self.now from }
        ensures own { Belongs self.now pass.new }
        ensures seen { IsLater pass.old pass.new }
        ensures from { seen_of pass.new from ≡ seen_of pass.old from }
    {
        let mut count = 0;
        for place in 0..self.mailboxes.len() {
            count += self.offer(rt, pass, place, from, &packet);
        }
        count
    }

    /// Offers the packet to the mailbox at the place, unless that is the sender's own; how often it was put into it.
    fn offer<R: Wait>(
        &self,
        rt: &R,
        pass: &mut PostPass,
        place: usize,
        from: Site,
        packet: &Packet,
    ) -> u32
        requires pass { Belongs self.now pass.old }
        requires place { place < length self.now }
        ensures own { Belongs self.now pass.new }
        ensures seen { IsLater pass.old pass.new }
        ensures from { seen_of pass.new from ≡ seen_of pass.old from }
        ensures most { result ≤ 2 }
    {
        if from.number() as usize - 1 == place {
            return 0;
        }
        let mailbox = &self.mailboxes[place];
        match &mut pass.lanes[place] {
            Some(lane) => mailbox.offer(rt, self.seed, lane, packet),
            None => unreachable!(),
        }
    }

    /// Takes the oldest packet out of the mailbox of the site; `None` only where the mailbox was empty at a moment of
    /// the call.
    pub fn take<R: Wait>(&self, rt: &R, pass: &mut PostPass, site: Site) -> Option<Packet>
        requires pass { Belongs self.now pass.old }
        requires site { HasSite self.now site }
        ensures own { Belongs self.now pass.new }
        ensures others { pass.new ≡ with_seen pass.old site (seen_of pass.new site) }
        ensures taken { IfSome result (λ packet. Takes (seen_of pass.old site) packet (seen_of pass.new site)) }
        ensures none { IfNone result ((pass.new ≡ pass.old) × WasEmpty (seen_of pass.old site)) }
    {
        let place = site.number() as usize - 1;
        let mailbox = &self.mailboxes[place];
        match &mut pass.lanes[place] {
            Some(lane) => mailbox.take(rt, lane),
            None => unreachable!(),
        }
    }

    /// Two passes that have seen what the one had.
    pub fn split(&self, pass: PostPass) -> (PostPass, PostPass)
        requires { Belongs self.now pass }
        ensures same { (result.0 ≡ pass) × (result.1 ≡ pass) }
    {
        let PostPass { mut lanes } = pass;
        let twins = [
            self.twin(&mut lanes, 0),
            self.twin(&mut lanes, 1),
            self.twin(&mut lanes, 2),
            self.twin(&mut lanes, 3),
            self.twin(&mut lanes, 4),
            self.twin(&mut lanes, 5),
            self.twin(&mut lanes, 6),
            self.twin(&mut lanes, 7),
        ];
        (PostPass { lanes }, PostPass { lanes: twins })
    }

    fn twin(&self, lanes: &mut [Option<Lane>; 8], place: usize) -> Option<Lane>
        requires pass { Belongs self.now lanes.old }
        requires place { place < 8 }
        ensures same { lanes.new ≡ lanes.old }
        ensures twin { result ≡ get_or lanes.old place None }
    {
        match &mut lanes[place] {
            Some(lane) => Some(self.mailboxes[place].twin(lane)),
            None => None,
        }
    }
}
