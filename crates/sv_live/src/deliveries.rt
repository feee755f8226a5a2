//! Packets that are taken out of mailboxes to their sites.

ghost use Rattle.std.specs.Prelude.{◌≡◌, ◌≤◌, ◌<◌, length};
ghost use Rattle.sv_hub.specs.Extends.{Extends};
ghost use Rattle.sv_hub.specs.Sight.{Belongs};
ghost use Rattle.sv_post.specs.Logs.{WasEmpty};
ghost use Rattle.sv_post.specs.Sight.{Belongs as IsOfPost, seen_of, with_seen};
ghost use Rattle.sv_core.specs.declared.docs.Doc.{Doc};
ghost use Rattle.sv_core.specs.declared.entries.Entry.{Entry};
ghost use Rattle.sv_core.specs.Document.{document_of};
ghost use Rattle.sv_core.specs.Legal.{Legal};
ghost use Rattle.sv_core.specs.Sound.{IsSite};

use crate::tells::tell_lawful;
use std::sync::Wait;
use sv_core::World;
use sv_hub::{Hub, Pass};
use sv_post::{Post, PostPass};
use sv_value::{Packet, Site};

/// Settles at the site all that may be applied.
#[tactic(auto, using(sv_core::proofs::PastLaws::growing))]
fn settle_all(w: &mut World, site: Site)
    requires { IsSite (document_of w.old.medium.doc) site }
    ensures grows { Extends w.new.medium.history w.old.medium.history }
    ensures doc { w.new.medium.doc ≡ w.old.medium.doc }
    ensures legal { Legal (document_of w.new.medium.doc) w.new.medium.history }
{
    while w.settle(site).is_some() {}
    tell_lawful(w);
}

/// Settles in a turn what came to the site too early.
#[tactic(auto, using(sv_hub::proofs::ExtendsLaws::extending))]
fn settle<R: Wait>(rt: &R, hub: &Hub<World>, pass: Pass<World>, site: Site) -> Pass<World>
    requires pass { Belongs hub.now pass }
    requires site { IsSite (document_of hub.now.name) site }
    ensures own { Belongs hub.now result }
    ensures seen { Extends result.seen pass.seen }
    ensures legal { Legal (document_of hub.now.name) result.seen }
{
    let mut turn = hub.enter(rt, pass);
    settle_all(turn.value_mut(), site);
    hub.leave(turn)
}

/// Takes a packet to the site, and settles what may be applied then.
#[tactic(auto, using(sv_core::proofs::PastLaws::growing))]
fn take_to(w: &mut World, site: Site, packet: &Packet)
    requires { IsSite (document_of w.old.medium.doc) site }
    ensures grows { Extends w.new.medium.history w.old.medium.history }
    ensures doc { w.new.medium.doc ≡ w.old.medium.doc }
    ensures legal { Legal (document_of w.new.medium.doc) w.new.medium.history }
{
    w.deliver(site, *packet);
    settle_all(w, site);
}

/// Takes a packet to the site in a turn.
#[tactic(auto, using(sv_hub::proofs::ExtendsLaws::extending))]
fn deliver<R: Wait>(
    rt: &R,
    hub: &Hub<World>,
    pass: Pass<World>,
    site: Site,
    packet: &Packet,
) -> Pass<World>
    requires pass { Belongs hub.now pass }
    requires site { IsSite (document_of hub.now.name) site }
    ensures own { Belongs hub.now result }
    ensures seen { Extends result.seen pass.seen }
    ensures legal { Legal (document_of hub.now.name) result.seen }
{
    let mut turn = hub.enter(rt, pass);
    take_to(turn.value_mut(), site, packet);
    hub.leave(turn)
}

/// Settles at the site what came too early, and takes at most so many packets out of its mailbox to it, one after the
/// other, each in a turn in which all is settled that may be applied then; how many these were. They are fewer only where
/// the mailbox was empty at a moment of the call.
#[tactic(auto, using(sv_hub::proofs::ExtendsLaws::extending, crate::proofs::MailLaws::mailing))]
pub fn deliver_some<R: Wait>(
    rt: &R,
    hub: &Hub<World>,
    pass: Pass<World>,
    site: Site,
    post: &Post,
    mail: &mut PostPass,
    most: u32,
) -> (Pass<World>, u32)
    requires pass { Belongs hub.now pass }
    requires site { IsSite (document_of hub.now.name) site }
    requires mail { IsOfPost post.now mail.old }
    requires sites { length post.now ≡ hub.now.name.sites }
    ensures own { Belongs hub.now result.0 }
    ensures seen { Extends result.0.seen pass.seen }
    ensures legal { Legal (document_of hub.now.name) result.0.seen }
    ensures mail { IsOfPost post.now mail.new }
    ensures others { mail.new ≡ with_seen mail.old site (seen_of mail.new site) }
    ensures most { result.1 ≤ most }
    ensures fewer { result.1 < most → WasEmpty (seen_of mail.new site) }
{
    let mut mine = settle(rt, hub, pass, site);
    for taken in 0..most {
        match post.take(rt, mail, site) {
            Some(packet) => mine = deliver(rt, hub, mine, site, &packet),
            None => return (mine, taken),
        }
    }
    (mine, most)
}
