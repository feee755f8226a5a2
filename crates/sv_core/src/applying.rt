ghost use Rattle.std.specs.Prelude.{◌≡◌, ◌+◌, ◌≤◌, ◌<◌, ◌++◌, ◌∷◌, [], length, map, IfOk, OnErr, OnOk};
ghost use Rattle.std.specs.Vec.{vec_capacity};
ghost use Rattle.sv_app.specs.Schema.{schema_of};
ghost use Rattle.sv_effect.specs.Agrees.{Gives};
ghost use Rattle.sv_effect.specs.BareTables.{bare, how_many};
ghost use Rattle.sv_effect.specs.Reads.{answer_of};
ghost use Rattle.sv_core.specs.Applying.{CanApplyAll, GiveAll, applied_in_order};
ghost use Rattle.sv_core.specs.Room.{inserts_in};

use std::alloc::Global;
use sv_app::App;
use sv_effect::{Ask, Op, RowStore, Told};
use sv_value::{List, NoMemory};

/// What the store answers to an ask.
pub(crate) fn told<S: RowStore>(store: &S, ask: &Ask) -> Told
    ensures { Gives (bare (S.stamped store.now)) ask.now (answer_of result) }
{
    match ask {
        Ask::Row { table, key } => Told::Row(store.see(*table, key)),
        Ask::Next { table, after } => match after {
            Some(key) => Told::Next(store.next_after(*table, Some(key))),
            None => Told::Next(store.next_after(*table, None)),
        },
    }
}

/// What the store answers to each ask, in order, in this empty list, which has space for that.
fn told_all<S: RowStore>(store: &S, asks: &[Ask], space: Vec<Told>) -> Vec<Told>
    requires empty { space.items ≡ [] }
    requires room { length asks.now ≤ vec_capacity space }
    ensures { GiveAll (bare (S.stamped store.now)) asks.now (map answer_of result.items) }
{
    let mut all = space;
    for ask in asks {
        all.push_reserved(told(store, ask));
    }
    all
}

/// Applies the operations, in order.
fn apply_each<S: RowStore>(app: &App, store: &mut S, ops: &[Op])
    requires rows { S.is_of store.old (schema_of app.now.tables.items) }
    requires can { CanApplyAll (schema_of app.now.tables.items) ops.now (S.stamped store.old) }
    requires room { inserts_in ops.now ≤ S.room store.old }
    ensures tables { S.stamped store.new ≡ applied_in_order (schema_of app.now.tables.items) ops.now (S.stamped store.old) }
    ensures same_app { S.is_of store.new (schema_of app.now.tables.items) }
    ensures kept { S.room store.old + how_many (S.stamped store.old) ≤ S.room store.new + how_many (S.stamped store.new) }
    ensures spent { S.room store.old ≤ S.room store.new + inserts_in ops.now }
{
    for op in ops {
        store.apply(app, op);
    }
}

/// Applies the operations to the store, in order, and tells what the store then answers to each ask, in order, whichever
/// store it is. The rows and the operations are of the application, each operation can be applied to the tables that those
/// before it leave, and there is room for all that they insert. Without memory the store stays as it was.
pub fn apply_all<S: RowStore>(
    alloc: Global,
    app: &App,
    store: &mut S,
    ops: &[Op],
    asks: &[Ask],
) -> Result<List<Told>, NoMemory>
    requires rows { S.is_of store.old (schema_of app.now.tables.items) }
    requires can { CanApplyAll (schema_of app.now.tables.items) ops.now (S.stamped store.old) }
    requires room { inserts_in ops.now ≤ S.room store.old }
    ensures tables { OnOk result (S.stamped store.new ≡ applied_in_order (schema_of app.now.tables.items) ops.now (S.stamped store.old)) }
    ensures told { IfOk result (λ told. GiveAll (bare (S.stamped store.new)) asks.now (map answer_of told)) }
    ensures same_app { S.is_of store.new (schema_of app.now.tables.items) }
    ensures kept { S.room store.old + how_many (S.stamped store.old) ≤ S.room store.new + how_many (S.stamped store.new) }
    ensures spent { S.room store.old ≤ S.room store.new + inserts_in ops.now }
    ensures stays { OnErr result (store.new ≡ store.old) }
{
    let space = Vec::with_capacity(alloc, asks.len())?;
    apply_each(app, store, ops);
    Ok(List::from_vec(told_all(store, asks, space)))
}
