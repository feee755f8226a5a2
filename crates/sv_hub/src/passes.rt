use crate::histories::History;
use crate::views::View;
use atomic_table::Seat;
use std::marker::Model;

/// A thread's token for a hub. It knows the value's name, and has seen a part of its past. Contracts see these.
#[derive(Drop)]
pub struct Pass<V: History> {
    pub(crate) seat: Seat<Option<V>, View<V::Name, V::Item>>,
}

impl<V: History> Model for Pass<V> {
    ghost use Rattle.std.specs.Prelude.{◌≡◌, [], false, Some};
    ghost use Rattle.sv_hub.specs.Sight.{PassSight, pass_sight};

    ghost Value = { PassSight V.Name V.Item };

    ghost view = { λ p. pass_sight p.seat.table_id p.seat.me.0 };

    ghost invariant = { λ p. (p.seat.me.1 ≡ []) × (p.seat.me.0.holds ≡ false) × ((name : V.Name) × (p.seat.me.0.name ≡ Some name)) };
}
