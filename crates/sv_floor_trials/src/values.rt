//! The order of values, numbers in decimal, and memory for lists.
use std::test::Fail;
use sv_value::{Key, List, Stamp, Text, Val, put_int};

fn text(bytes: &[u8]) -> Result<Val, Fail> {
    Ok(Val::Text(Text::new(bytes).ok_or("no text")?))
}

#[test]
fn values_are_ordered(rt: HostRuntime) -> Result<(), Fail> {
    let rising = [
        Val::Int(i64::MIN),
        Val::Int(-1),
        Val::Int(i64::MAX),
        text(b"")?,
        text(b" ")?,
        text(b"B")?,
        text(b"a")?,
        text(b"a ")?,
        text(b"aa")?,
        text(b"b")?,
    ];
    for (place, left) in rising.iter().enumerate() {
        for (other, right) in rising.iter().enumerate() {
            assert_eq!(rt; left.cmp(right), place.cmp(&other), "at {place} {other}");
        }
    }
    Ok(())
}

#[test]
fn keys_and_stamps_are_ordered_field_by_field(rt: HostRuntime) {
    let keys = [(0, None), (0, Some(9)), (1, None), (1, Some(-1))];
    let stamps = [(1, 8, 9), (2, 1, 2), (2, 1, 3), (2, 2, 0)];
    for place in 0..4usize {
        for other in 0..4usize {
            let (left, right) = (key_of(keys[place]), key_of(keys[other]));
            assert_eq!(rt; left < right, place < other, "keys {place} {other}");
            let (left, right) = (stamp_of(stamps[place]), stamp_of(stamps[other]));
            assert_eq!(rt; left < right, place < other, "stamps {place} {other}");
        }
    }
}

fn key_of(numbers: (i64, Option<i64>)) -> Key {
    Key {
        first: Val::Int(numbers.0),
        second: numbers.1.map(Val::Int),
    }
}

fn stamp_of(numbers: (u64, u8, u16)) -> Stamp {
    Stamp {
        time: numbers.0,
        site: numbers.1,
        place: numbers.2,
    }
}

#[test]
fn numbers_are_printed(rt: HostRuntime) -> Result<(), Fail> {
    for (number, digits) in [
        (0, &b"0"[..]),
        (-10, b"-10"),
        (i128::MAX, b"170141183460469231731687303715884105727"),
        (i128::MIN, b"-170141183460469231731687303715884105728"),
    ] {
        let mut out = Vec::new(rt.alloc());
        put_int(&mut out, number)?;
        assert_eq!(rt; out.as_slice(), digits);
    }
    Ok(())
}

#[test]
fn a_list_grows(rt: HostRuntime) -> Result<(), Fail> {
    let mut list = List::new(rt.alloc());
    list.push(3u8)?;
    list.push(4)?;
    let list = List::from_vec(list.into_vec());
    assert_eq!(rt; list.copied(rt.alloc())?.items(), [3, 4].as_slice());
    Ok(())
}
