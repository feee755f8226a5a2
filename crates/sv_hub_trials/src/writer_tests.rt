//! What no clause says: that turns come, that no line is lost, and that threads hand the turn to each other.
use crate::books::{Book, Line};
use crate::writers::{alternating_writers, four_writers};
use std::process::Abort;
use std::test::Fail;
use sv_hub::Hub;

/// The lines of each writer.
const COUNT: u32 = 500;

/// How many lines the writer has, which are numbered in order.
fn lines_of<R: Abort>(rt: &R, lines: &[Line], writer: u8) -> u32 {
    let mut due = 0u32;
    for line in lines {
        if line.writer == writer {
            assert_eq!(rt; line.number, due, "lines of {writer}");
            due = due.wrapping_add(1);
        }
    }
    due
}

#[test]
fn four_threads_lose_no_line(rt: HostRuntime) -> Result<(), Fail> {
    let (hub, pass) = Hub::new(rt.alloc(), Book::new(rt.alloc(), 7))?;
    let pass = four_writers(&rt, &hub, pass, COUNT);
    let turn = hub.enter(&rt, pass);
    let lines = turn.value().lines();
    for writer in 1..5 {
        assert_eq!(&rt; lines_of(&rt, lines, writer), COUNT, "lines of {writer}");
    }
    hub.leave(turn);
    Ok(())
}

#[test]
fn two_threads_hand_over(rt: HostRuntime) -> Result<(), Fail> {
    let (hub, pass) = Hub::new(rt.alloc(), Book::new(rt.alloc(), 8))?;
    let pass = alternating_writers(&rt, &hub, pass, COUNT);
    let turn = hub.enter(&rt, pass);
    let lines = turn.value().lines();
    assert_eq!(&rt; lines_of(&rt, lines, 1), COUNT);
    assert_eq!(&rt; lines_of(&rt, lines, 2), COUNT);
    let mut last = 0;
    for line in lines {
        assert_ne!(&rt; line.writer, last);
        last = line.writer;
    }
    hub.leave(turn);
    Ok(())
}
