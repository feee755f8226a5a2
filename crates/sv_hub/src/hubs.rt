ghost use Rattle.std.specs.Prelude.{◌≡◌, ◌⊎◌, [], ◌∷◌, IfOk, IfErr, Some};
ghost use Rattle.sv_hub.specs.Extends.{Extends};
ghost use Rattle.sv_hub.specs.Sight.{Belongs};

use crate::histories::History;
use crate::passes::Pass;
use crate::turns::Turn;
use crate::views::{Both, Give, Look, OneTurn, Take, View};
use atomic_table::{Refused, Table};
use std::alloc::Global;
use std::marker::Model;
use std::snapshot::Snapshot;
use std::sync::Wait;
use sv_value::NoMemory;

/// The word that says whether the turn is held.
const TURN: usize = 0;

/// The turn is free.
const FREE: u64 = 0;

/// A thread holds the turn.
const HELD: u64 = 1;

/// The slot of the value.
const VALUE: usize = 0;

/// Keeps one value, which threads take in turn. Contracts see its name.
#[derive(Drop)]
pub struct Hub<V: History> {
    table: Table<Option<V>, View<V::Name, V::Item>, Snapshot<V>, OneTurn<V>, Global>,
}

impl<V: History> Model for Hub<V> {
    ghost use Rattle.std.specs.Prelude.{◌≡◌};
    ghost use Rattle.sv_hub.specs.Sight.{HubSight};

    ghost Value = { HubSight V.Name };

    ghost view = { λ h. record { table = h.table.shared.table_id; name = V.name h.table.shared.key.value } };

    ghost invariant = { λ h. (h.table.shared.table_id.words ≡ 1) × (h.table.shared.table_id.slots ≡ 1) };
}

impl<V: History> Hub<V> {
    /// A hub of the value, and a pass that has seen its whole past. Without memory the value is dropped.
    pub fn new(alloc: Global, value: V) -> Result<(Hub<V>, Pass<V>), NoMemory>
        ensures name { IfOk result (λ made. made.0.name ≡ V.name value) }
        ensures own { IfOk result (λ made. Belongs made.0 made.1) }
        ensures seen { IfOk result (λ made. made.1.seen ≡ V.past value) }
    {
        let start = Snapshot::of(&value);
        let slots = one_slot(alloc, value)?;
        match Table::new(alloc, &[FREE], slots, &start) {
            Ok((table, seat)) => Ok((Hub { table }, Pass { seat })),
            Err(Refused { slots: _ }) => Err(NoMemory),
        }
    }

    /// Takes the turn if it is free, and otherwise returns the pass.
    fn try_enter(&self, pass: Pass<V>) -> Result<Turn<V>, Pass<V>>
        requires { Belongs self.now pass }
        ensures own { IfOk result (λ turn. Belongs self.now turn.pass) }
        ensures name { IfOk result (λ turn. V.name turn.value ≡ self.now.name) }
        ensures found { IfOk result (λ turn. V.past turn.value ≡ turn.pass.seen) }
        ensures seen { IfOk result (λ turn. Extends turn.pass.seen pass.seen) }
        ensures held { IfErr result (λ back. back ≡ pass) }
    {
        let Pass { mut seat } = pass;
        let shared = &self.table.shared;
        if shared.compare_exchange::<Take<V>>(&mut seat, TURN, FREE, HELD) != FREE {
            return Err(Pass { seat });
        }
        let Some(value) = shared.exchange(&mut seat, VALUE, None) else {
            unreachable!()
        };
        Ok(Turn { value, seat })
    }

    /// Waits for the turn. The value has the hub's name, and its past extends what the pass had seen.
    pub fn enter<R: Wait>(&self, rt: &R, pass: Pass<V>) -> Turn<V>
        requires { Belongs self.now pass }
        ensures own { Belongs self.now result.pass }
        ensures name { V.name result.value ≡ self.now.name }
        ensures found { V.past result.value ≡ result.pass.seen }
        ensures seen { Extends result.pass.seen pass.seen }
    {
        let mut waiting = pass;
        for _ in rt.forever() {
            match self.try_enter(waiting) {
                Ok(turn) => return turn,
                Err(back) => waiting = back,
            }
            self.table.shared.park(rt, TURN, HELD as u32);
        }
        unreachable!()
    }

    /// Gives the turn back with its value, whose past extends what was found. The pass has then seen all of it.
    pub fn leave(&self, turn: Turn<V>) -> Pass<V>
        requires own { Belongs self.now turn.pass }
        requires name { V.name turn.value ≡ self.now.name }
        requires past { Extends (V.past turn.value) turn.pass.seen }
        ensures own { Belongs self.now result }
        ensures seen { result.seen ≡ V.past turn.value }
    {
        let Turn { value, mut seat } = turn;
        let shared = &self.table.shared;
        let _empty = shared.exchange(&mut seat, VALUE, Some(value));
        shared.store::<Give<V>>(&mut seat, TURN, FREE);
        shared.wake_one(TURN);
        Pass { seat }
    }

    /// Two passes that have seen what the one had.
    pub fn split(&self, pass: Pass<V>) -> (Pass<V>, Pass<V>)
        requires { Belongs self.now pass }
        ensures same { (result.0 ≡ pass) × (result.1 ≡ pass) }
    {
        let Pass { mut seat } = pass;
        let other = self.table.shared.split_seat::<Both>(&mut seat);
        (Pass { seat }, Pass { seat: other })
    }

    /// One pass that has seen what each of the two had.
    pub fn join(&self, one: Pass<V>, other: Pass<V>) -> Pass<V>
        requires { Belongs self.now one × Belongs self.now other }
        ensures own { Belongs self.now result }
        ensures seen { Extends result.seen one.seen × Extends result.seen other.seen }
        ensures either { (result.seen ≡ one.seen) ⊎ (result.seen ≡ other.seen) }
    {
        let Pass { mut seat } = one;
        let Pass { seat: spent } = other;
        let shared = &self.table.shared;
        shared.join_seat::<Both>(&mut seat, spent);
        shared.load::<Look>(&mut seat, TURN);
        Pass { seat }
    }
}

/// A list with the value alone.
fn one_slot<V: Drop>(alloc: Global, value: V) -> Result<Vec<Option<V>>, NoMemory>
    ensures { IfOk result (λ slots. slots.items ≡ Some value ∷ []) }
{
    let mut slots = Vec::new(alloc);
    slots.reserve(1)?;
    slots.push_reserved(Some(value));
    Ok(slots)
}
