//! What no clause says: what a mailbox gets of the packets that are offered to it, how often, and in which order.
ghost use Rattle.std.specs.Prelude.{◌≡◌, ◌≤◌, length};
ghost use Rattle.sv_post.specs.Sight.{Belongs};

use std::process::Abort;
use std::sync::Wait;
use std::test::Fail;
use sv_post::{Post, PostPass};
use sv_value::{Packet, Site};

/// The site of this number, 1 or 2.
fn site_of(number: u8) -> Site
    requires { (1 ≤ number) × (number ≤ 2) }
    ensures { result ≡ number }
{
    match Site::new(number) {
        Some(site) => site,
        None => unreachable!(),
    }
}

/// The blue packet of site 1 with this number.
fn packet(seq: u32) -> Packet {
    Packet::Blue {
        site: site_of(1),
        seq,
    }
}

/// Site 1 sends a packet with this number, and it is put so often.
fn send<R: Abort + Wait>(rt: &R, post: &Post, pass: &mut PostPass, seq: u32, times: u32)
    requires { Belongs post.now pass.old × (length post.now ≡ 2) }
    ensures { Belongs post.now pass.new }
{
    let put = post.send(rt, pass, site_of(1), packet(seq));
    assert_eq!(rt; put, times, "packet {seq}");
}

/// Site 2 takes the packet with this number, or finds its mailbox empty.
fn take<R: Abort + Wait>(rt: &R, post: &Post, pass: &mut PostPass, seq: Option<u32>)
    requires { Belongs post.now pass.old × (length post.now ≡ 2) }
    ensures { Belongs post.now pass.new }
{
    let taken = post.take(rt, pass, site_of(2));
    assert_eq!(rt; taken, seq.map(packet));
}

/// Eight packets are sent in order, each of which is put so often, and then these are taken.
fn goes_through<R: Abort + Wait>(
    rt: &R,
    post: &Post,
    pass: &mut PostPass,
    times: &[u32; 8],
    taken: &[u32],
)
    requires { Belongs post.now pass.old × (length post.now ≡ 2) }
    ensures { Belongs post.now pass.new }
{
    for place in 0..8u32 {
        send(rt, post, pass, place, times[place as usize]);
    }
    for seq in taken {
        take(rt, post, pass, Some(*seq));
    }
    take(rt, post, pass, None);
}

#[test]
fn each_fate_in_turn(rt: HostRuntime) -> Result<(), Fail> {
    let (post, mut pass) = Post::new(rt.alloc(), 2, 0)?;
    let times = [1, 0, 2, 0, 1, 0, 2, 0];
    goes_through(&rt, &post, &mut pass, &times, &[0, 2, 2, 4, 3, 6, 6]);
    Ok(())
}

#[test]
fn the_seed_says_which_fate_is_first(rt: HostRuntime) -> Result<(), Fail> {
    let (post, mut pass) = Post::new(rt.alloc(), 2, 1)?;
    let times = [0, 2, 0, 1, 0, 2, 0, 1];
    goes_through(&rt, &post, &mut pass, &times, &[1, 1, 3, 2, 5, 5, 7, 6]);
    Ok(())
}

#[test]
fn the_seed_counts_by_fours(rt: HostRuntime) -> Result<(), Fail> {
    let (post, mut pass) = Post::new(rt.alloc(), 2, u64::MAX)?;
    let times = [0, 1, 0, 2, 0, 1, 0, 2];
    goes_through(&rt, &post, &mut pass, &times, &[1, 0, 3, 3, 5, 4, 7, 7]);
    Ok(())
}

#[test]
fn the_sender_gets_nothing(rt: HostRuntime) -> Result<(), Fail> {
    let (post, mut pass) = Post::new(rt.alloc(), 2, 0)?;
    send(&rt, &post, &mut pass, 0, 1);
    assert_eq!(&rt; post.take(&rt, &mut pass, site_of(1)), None);
    take(&rt, &post, &mut pass, Some(0));
    Ok(())
}

#[test]
fn a_pass_that_was_split_takes_what_the_other_put(rt: HostRuntime) -> Result<(), Fail> {
    let (post, pass) = Post::new(rt.alloc(), 2, 0)?;
    let (mut one, mut other) = post.split(pass);
    send(&rt, &post, &mut one, 0, 1);
    take(&rt, &post, &mut other, Some(0));
    take(&rt, &post, &mut one, None);
    Ok(())
}

/// Sends 256 packets, which fill all places of the mailbox but one: of four the first is put, the second lost, the third put
/// twice, and the fourth put behind the next one. The last of them is held.
fn fill<R: Abort + Wait>(rt: &R, post: &Post, pass: &mut PostPass)
    requires { Belongs post.now pass.old × (length post.now ≡ 2) }
    ensures { Belongs post.now pass.new }
{
    for seq in 0..256u32 {
        let times = match seq % 4 {
            0 => 1,
            2 => 2,
            _ => 0,
        };
        send(rt, post, pass, seq, times);
    }
}

/// Site 2 takes what `fill` put.
fn take_filled<R: Abort + Wait>(rt: &R, post: &Post, pass: &mut PostPass)
    requires { Belongs post.now pass.old × (length post.now ≡ 2) }
    ensures { Belongs post.now pass.new }
{
    take(rt, post, pass, Some(0));
    take(rt, post, pass, Some(2));
    take(rt, post, pass, Some(2));
    for round in 1..64u32 {
        take(rt, post, pass, Some(4 * round));
        take(rt, post, pass, Some(4 * round - 1));
        take(rt, post, pass, Some(4 * round + 2));
        take(rt, post, pass, Some(4 * round + 2));
    }
}

/// Site 2 takes so many packets.
fn take_many<R: Wait>(rt: &R, post: &Post, pass: &mut PostPass, count: u32)
    requires { Belongs post.now pass.old × (length post.now ≡ 2) }
    ensures { Belongs post.now pass.new }
{
    for _ in 0..count {
        post.take(rt, pass, site_of(2));
    }
}

#[test]
fn a_full_mailbox_loses_packets_and_holds_what_it_held(rt: HostRuntime) -> Result<(), Fail> {
    let (post, mut pass) = Post::new(rt.alloc(), 2, 0)?;
    fill(&rt, &post, &mut pass);
    // The last place is filled, and 255 stays held. What comes to the full mailbox is lost, and isn't held.
    send(&rt, &post, &mut pass, 256, 1);
    send(&rt, &post, &mut pass, 257, 0);
    send(&rt, &post, &mut pass, 258, 0);
    send(&rt, &post, &mut pass, 259, 0);
    take_filled(&rt, &post, &mut pass);
    take(&rt, &post, &mut pass, Some(256));
    take(&rt, &post, &mut pass, None);
    send(&rt, &post, &mut pass, 260, 1);
    take(&rt, &post, &mut pass, Some(260));
    take(&rt, &post, &mut pass, Some(255));
    take(&rt, &post, &mut pass, None);
    Ok(())
}

#[test]
fn a_second_held_packet_takes_the_place_of_the_first(rt: HostRuntime) -> Result<(), Fail> {
    let (post, mut pass) = Post::new(rt.alloc(), 2, 0)?;
    fill(&rt, &post, &mut pass);
    // The mailbox is full, and holds 255 still, until 259 finds a place free.
    send(&rt, &post, &mut pass, 256, 1);
    send(&rt, &post, &mut pass, 257, 0);
    send(&rt, &post, &mut pass, 258, 0);
    take(&rt, &post, &mut pass, Some(0));
    send(&rt, &post, &mut pass, 259, 0);
    take_many(&rt, &post, &mut pass, 255);
    take(&rt, &post, &mut pass, None);
    send(&rt, &post, &mut pass, 260, 1);
    take(&rt, &post, &mut pass, Some(260));
    take(&rt, &post, &mut pass, Some(259));
    take(&rt, &post, &mut pass, None);
    Ok(())
}
