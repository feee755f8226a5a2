//! Red operations get their slots in one order.
use std::alloc::Global;
use std::test::Fail;
use sv_effect::Op;
use sv_order::{Granted, RedOrder};
use sv_value::{Cut, List, Site};

/// An operation of a site with no change, told from others by its time.
fn operation(alloc: Global, number: u8, time: u64) -> Result<Op, Fail> {
    Ok(Op {
        time,
        site: Site::new(number).ok_or("no site")?,
        deps: Cut::empty(),
        effects: List::new(alloc),
        needs: List::new(alloc),
    })
}

/// The slot that is asked about, and the owner of the one that stands there with the time of the one that came back.
fn told(granted: Granted) -> (u32, Option<(u8, u64)>) {
    match granted {
        Granted::Slot { slot } => (slot, None),
        Granted::Behind { slot, owner, op } => (slot, Some((owner.number(), op.time))),
    }
}

fn append(order: &mut RedOrder, expected: u32, op: Op) -> Result<(u32, Option<(u8, u64)>), Fail> {
    if expected > order.len() || order.room() == 0 {
        return Err(Fail::from("no place"));
    }
    Ok(told(order.append(expected, op)))
}

#[test]
fn slots_are_granted_in_order(rt: HostRuntime) -> Result<(), Fail> {
    let mut order = RedOrder::start(rt.alloc(), 4)?;
    assert!(rt; order.is_empty());
    let cases = [
        (0, 2, (0, None), 1),
        (0, 3, (0, Some((2, 1))), 1),
        (1, 3, (1, None), 2),
        (0, 3, (0, Some((2, 3))), 2),
        (1, 2, (1, Some((3, 4))), 2),
        (2, 2, (2, None), 3),
    ];
    for (at, (expected, number, wanted, count)) in cases.iter().enumerate() {
        let op = operation(rt.alloc(), *number, at as u64)?;
        assert_eq!(rt; append(&mut order, *expected, op)?, *wanted, "at {at}");
        assert_eq!(rt; order.len(), *count, "at {at}");
        assert_eq!(rt; order.room(), 4u32.saturating_sub(*count), "at {at}");
    }
    for (slot, time) in [(0, Some(0)), (1, Some(2)), (2, Some(5)), (3, None)] {
        assert_eq!(rt; order.get(slot).map(|op| op.time), time, "in {slot}");
    }
    Ok(())
}
