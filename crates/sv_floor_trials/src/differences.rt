//! Systems of differences whose answers are known.
use std::alloc::Global;
use std::test::Fail;
use sv_bounds::{Answer, Diff, System, Widest, above, greatest, solve};
use sv_value::{List, NoMemory};

fn system(alloc: Global, vars: u8, rows: &[(u8, u8, i128)]) -> Result<System, NoMemory> {
    let mut listed = List::new(alloc);
    for (x, y, most) in rows {
        listed.push(Diff {
            x: *x,
            y: *y,
            most: *most,
        })?;
    }
    Ok(System { vars, rows: listed })
}

/// How many rows the cycle has that `solve` answers, 0 where it answers values.
fn cycle_len(alloc: Global, s: &System) -> Result<usize, Fail> {
    if !s.is_valid() {
        return Err(Fail::from("no system"));
    }
    Ok(length_of(&solve(alloc, s)?))
}

fn length_of(answer: &Answer) -> usize {
    match answer {
        Answer::Values(_) => 0,
        Answer::Cycle(chain) => chain.len(),
    }
}

/// The greatest x - y, `None` where there is none.
fn widest(alloc: Global, s: &System, x: u8, y: u8) -> Result<Option<i128>, Fail> {
    if !(s.is_valid() && x < s.vars && y < s.vars) {
        return Err(Fail::from("no system"));
    }
    match solve(alloc, s)? {
        Answer::Cycle(_) => Err(Fail::from("a cycle")),
        Answer::Values(_) => match greatest(alloc, s, x, y)? {
            Widest::Most { value, .. } => Ok(Some(value)),
            Widest::Unbounded => Ok(None),
        },
    }
}

/// How many rows the cycle has where x - y is d or more, 0 where there are values.
fn above_len(alloc: Global, s: &System, x: u8, y: u8, d: i128) -> Result<usize, Fail> {
    if !(s.is_valid() && s.rows.len() <= 4095 && x < s.vars && y < s.vars) {
        return Err(Fail::from("no system"));
    }
    if d < -100 || d > 100 {
        return Err(Fail::from("a far number"));
    }
    Ok(length_of(&above(alloc, s, x, y, d)?))
}

/// `a <= b` and `b <= a - 1` exclude each other; the first alone bounds `a - b`, and `a` not at all.
#[test]
fn two_checks(rt: HostRuntime) -> Result<(), Fail> {
    let alloc = rt.alloc();
    let both = system(alloc, 3, &[(1, 2, 0), (2, 1, -1)])?;
    assert_eq!(rt; cycle_len(alloc, &both)?, 2);
    let first = system(alloc, 3, &[(1, 2, 0)])?;
    assert_eq!(rt; cycle_len(alloc, &first)?, 0);
    for (x, y, most) in [(1, 0, None), (1, 2, Some(0)), (2, 1, None), (1, 1, Some(0))] {
        assert_eq!(rt; widest(alloc, &first, x, y)?, most, "at {x} and {y}");
    }
    Ok(())
}

/// `x <= y`, `y >= z` and `z >= 4`: `y` is 4 at least, and `x` has no least value.
#[test]
fn a_chain_of_checks(rt: HostRuntime) -> Result<(), Fail> {
    let alloc = rt.alloc();
    let s = system(alloc, 4, &[(1, 2, 0), (3, 2, 0), (0, 3, -4)])?;
    assert_eq!(rt; widest(alloc, &s, 0, 2)?, Some(-4));
    assert_eq!(rt; widest(alloc, &s, 0, 1)?, None);
    assert_eq!(rt; above_len(alloc, &s, 0, 2, -4)?, 0);
    assert_eq!(rt; above_len(alloc, &s, 0, 2, -3)?, 3);
    Ok(())
}
