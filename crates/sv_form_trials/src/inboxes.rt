//! Packets that come too early are kept, 64 at most.
use std::test::Fail;
use sv_causal::Inbox;
use sv_value::{Cut, Packet, Site};

fn red(slot: u32) -> Packet {
    Packet::Red { slot }
}

/// The blue packet of a site.
fn blue(number: u8, seq: u32) -> Result<Packet, Fail> {
    let site = Site::new(number).ok_or("no site")?;
    Ok(Packet::Blue { site, seq })
}

#[test]
fn the_oldest_goes_for_the_65th(rt: HostRuntime) -> Result<(), Fail> {
    let mut inbox = Inbox::new(rt.alloc())?;
    assert!(rt; inbox.is_empty());
    for slot in 0..64u32 {
        inbox.put(red(slot));
    }
    assert_eq!(rt; inbox.len(), 64);
    assert_eq!(rt; inbox.get(0), Some(red(0)));

    inbox.put(red(64));
    assert_eq!(rt; inbox.len(), 64);
    for (place, held) in [(0, Some(red(1))), (63, Some(red(64))), (64, None)] {
        assert_eq!(rt; inbox.get(place), held, "at {place}");
    }

    // one that is held keeps its place
    inbox.put(red(1));
    assert_eq!(rt; inbox.len(), 64);
    for (place, held) in [(0, red(1)), (1, red(2)), (63, red(64))] {
        assert_eq!(rt; inbox.get(place), Some(held), "at {place}");
    }
    Ok(())
}

#[test]
fn packets_are_taken_out(rt: HostRuntime) -> Result<(), Fail> {
    let mut inbox = Inbox::new(rt.alloc())?;
    for slot in 0..5u32 {
        inbox.put(red(slot));
    }
    assert_eq!(rt; inbox.take_front(), Some(red(0)));
    assert_eq!(rt; inbox.remove(2), Some(red(3)));
    assert_eq!(rt; inbox.remove(3), None);
    for slot in [1, 2, 4] {
        assert_eq!(rt; inbox.take_front(), Some(red(slot)), "slot {slot}");
    }
    assert_eq!(rt; inbox.take_front(), None);
    assert!(rt; inbox.is_empty());
    Ok(())
}

#[test]
fn a_cut_forgets_what_it_has(rt: HostRuntime) -> Result<(), Fail> {
    let mut inbox = Inbox::new(rt.alloc())?;
    for (number, seq) in [(2, 1), (1, 0), (2, 0), (8, 3), (2, 2), (1, 1)] {
        inbox.put(blue(number, seq)?);
        inbox.put(red(seq));
    }
    assert_eq!(rt; inbox.len(), 10);
    inbox.forget(&Cut {
        blue: [1, 2, 0, 0, 0, 0, 0, 3],
        reds: 2,
    });
    let kept = [blue(8, 3)?, red(3), blue(2, 2)?, red(2), blue(1, 1)?];
    assert_eq!(rt; inbox.len(), 5);
    for (place, packet) in kept.iter().enumerate() {
        assert_eq!(rt; inbox.get(place), Some(*packet), "at {place}");
    }
    Ok(())
}
