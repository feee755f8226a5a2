ghost use Rattle.std.specs.Prelude.{◌≡◌};
ghost use Rattle.std.specs.Borrow.{Lends, sem};
ghost use Rattle.sv_hub.specs.contracts.turns.Turn.{the_row};
ghost use Rattle.sv_hub.specs.Sight.{with_value};

use crate::histories::History;
use crate::views::View;
use atomic_table::Seat;
use std::marker::Model;

/// The right to the value, which one thread has at a time, with the value. Contracts see the value, and the pass that
/// entered, which has seen the whole past that it found. A turn is given back by `Hub::leave`, and can't be dropped.
pub struct Turn<V: History> {
    pub(crate) value: V,
    pub(crate) seat: Seat<Option<V>, View<V::Name, V::Item>>,
}

impl<V: History> Model for Turn<V> {
    ghost use Rattle.std.specs.Prelude.{◌≡◌, [], ◌∷◌, true, Some, None};
    ghost use Rattle.sv_hub.specs.Sight.{TurnSight, pass_sight};

    ghost Value = { TurnSight V V.Name V.Item };

    ghost view = { λ t. record { value = t.value; pass = pass_sight t.seat.table_id t.seat.me.0 } };

    ghost invariant = { λ t. (t.seat.me.1 ≡ (0, None) ∷ []) × (t.seat.me.0.holds ≡ true) × ((name : V.Name) × (t.seat.me.0.name ≡ Some name)) };
}

impl<V: History> Turn<V> {
    /// The value.
    pub fn value(&self) -> &V
        ensures { result.now ≡ self.now.value }
    {
        &self.value
    }

    /// The value, which may be changed.
    pub fn value_mut(&mut self) -> &mut V
        ensures* writes_back { sem 𝓛 (Lends (the_row V.row V.Name.row V.Item.row V.History) V.row self.entry result (with_value self.old)) }
        ensures value { result.now ≡ self.old.value }
    {
        &mut self.value
    }
}
