// What a thread knows of the value, the rule that all of them keep, and what a step of one tells it.
ghost use Rattle.sv_hub.specs.Views.{knowing, spent, joining};

use crate::histories::History;
use atomic_table::{Join, Play, Split, TableRule};
use std::collections::LinkedList;
use std::marker::PhantomData;
use std::snapshot::Snapshot;

/// What a thread knows. It exists in proofs alone.
pub struct View<N, I> {
    /// The value's name. Where a pass was joined into another, nothing is left to know.
    pub name: Option<N>,
    /// The past that was seen. Whoever holds the turn has seen the past that it found.
    pub seen: LinkedList<I>,
    /// What the two passes had seen that were joined last.
    pub joined: (LinkedList<I>, LinkedList<I>),
    /// Whether the turn is held.
    pub holds: bool,
}

/// The table has one word, which is 1 while the turn is held, and one slot, where the value is while nobody holds it.
pub struct OneTurn<V> {
    marker: PhantomData<V>,
}

impl<V: History> TableRule<Option<V>, View<V::Name, V::Item>, Snapshot<V>> for OneTurn<V> {
    ghost use Rattle.std.specs.Prelude.{Some};
    ghost use Rattle.sv_hub.specs.Turns.{IsKept};

    ghost holds = { λ key. IsKept V.name V.past (V.name key.value) };

    ghost first = { λ key. knowing (Some (V.name key.value)) (V.past key.value) };
}

/// Takes the turn where it is free.
pub struct Take<V> {
    marker: PhantomData<V>,
}

impl<V: History> Play<Option<V>, View<V::Name, V::Item>> for Take<V> {
    ghost use Rattle.sv_hub.specs.Steps.{Takes};

    ghost then = { Takes V.name V.past };
}

/// Gives the turn back.
pub struct Give<V> {
    marker: PhantomData<V>,
}

impl<V: History> Play<Option<V>, View<V::Name, V::Item>> for Give<V> {
    ghost use Rattle.sv_hub.specs.Steps.{Gives};

    ghost then = { Gives V.past };
}

/// Looks at the turn.
pub struct Look;

impl<V: History> Play<Option<V>, View<V::Name, V::Item>> for Look {
    ghost use Rattle.sv_hub.specs.Steps.{Looks};

    ghost then = { Looks };
}

/// Cuts a view in two, or makes one of two.
pub struct Both;

impl<N, I> Split<View<N, I>> for Both {
    ghost left = { λ v. v };

    ghost right = { λ v. v };
}

impl<N, I> Join<View<N, I>> for Both {
    ghost both = { joining };

    ghost spent = { spent };
}
