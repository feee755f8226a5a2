//! The history of a world, and the same with each damage.

ghost use Rattle.std.specs.Prelude.{IfOk};
ghost use Rattle.sv_core.specs.Sound.{SoundDoc};

use crate::damages::{Damage, history_with};
use crate::documents::{Trial, read_trial};
use std::alloc::Global;
use std::sync::Arc;
use std::test::Fail;
use sv_app::Reason;
use sv_core::{Label, World};
use sv_legal::is_legal;
use sv_report::replay_steps;

/// Two sites, one row that no site leads below zero, and room for six changes.
const TEXT: &[u8] = b"
@UOSET create table acc (id int, n int @NUMDELTA, primary key (id), check (n >= 0));
txn add(k: int, n: int) { update acc[k] set n = old.n + n; }
%% init acc(1, 10);
%% replay sites=2 changes=6
ask 1 add(1, 5);
ask 2 add(1, -3);
deliver 2 blue 1 0;
order 2;
ask 2 add(1, -1);
order 2;
deliver 1 red 0;
move 1 2;
ask 1 add(1, 1);
deliver 1 red 1;
deliver 1 blue 2 0;
ask 1 add(2, 1);
ask 2 add(1, 1);
ask 2 add(1, 1);
ask 2 add(1, 1);
";

/// The world of the text, behind its steps. Its document is sound with its dictionary.
fn world(alloc: Global) -> Result<World, Fail>
    ensures { IfOk result (λ w. SoundDoc w.medium.doc) }
{
    let Trial { doc, steps } = read_trial(alloc, TEXT)?;
    let mut world = World::start(alloc, Arc::new(alloc, doc)?)?;
    replay_steps(alloc, &mut Vec::new(alloc), &mut world, steps)?;
    Ok(world)
}

/// The first threat of the second entry's change is that of its only change by the check.
const RED: Label = Label::Red {
    instance: 0,
    place: 2,
    reason: Reason::Check(1),
};

#[test]
fn the_history_of_a_world_is_legal(rt: HostRuntime) -> Result<(), Fail> {
    let world = world(rt.alloc())?;
    assert_eq!(rt; world.history().len(), 13);
    assert!(rt; is_legal(rt.alloc(), world.doc(), world.history())?);
    Ok(())
}

#[test]
fn a_damaged_history_is_not_legal(rt: HostRuntime) -> Result<(), Fail> {
    let cases: [(usize, Damage, bool); 27] = [
        // a blue answer
        (0, Damage::Refused, false),
        (0, Damage::Full, false),
        (0, Damage::Label(Label::Nothing), false),
        (0, Damage::Packet((1, 1)), false),
        (0, Damage::Index(1), false),
        (0, Damage::Session(3), false),
        (0, Damage::Session(65), false),
        (0, Damage::Site(2), false),
        (0, Damage::At(1), false),
        (0, Damage::Twice, false),
        (0, Damage::Dropped, false),
        // session 1 goes to site 2, which lacks what the session has seen; a packet is applied twice
        (1, Damage::Dropped, false),
        (1, Damage::Twice, false),
        (1, Damage::Site(1), false),
        // a red answer, which may be made on more than it was
        (2, Damage::At(2), true),
        (2, Damage::Label(RED), false),
        (2, Damage::Done(Label::Blue, (2, 0)), false),
        (2, Damage::Packet((0, 1)), false),
        (3, Damage::Packet((0, 0)), false),
        (3, Damage::At(2), false),
        // a packet comes before one that it was made on
        (4, Damage::Dropped, false),
        // a session asks where it isn't, moves twice, and to a site that isn't there
        (5, Damage::Dropped, false),
        (5, Damage::Twice, false),
        (5, Damage::Site(3), false),
        // an answer without changes publishes, and one for which there is no room
        (9, Damage::Packet((2, 1)), false),
        (12, Damage::Done(Label::Blue, (2, 3)), false),
        // the last entry may be missing
        (12, Damage::Dropped, true),
    ];
    let world = world(rt.alloc())?;
    for (place, damage, legal) in cases {
        let entries = history_with(rt.alloc(), world.history(), place, damage)?;
        let found = is_legal(rt.alloc(), world.doc(), &entries)?;
        assert_eq!(rt; found, legal, "{damage:?} at {place}");
    }
    Ok(())
}
