//! What both kinds of store answer: of the initial rows, and after the operation of a call.
ghost use Rattle.std.specs.Prelude.{◌≤◌};
ghost use Rattle.sv_app.specs.Accepted.{AcceptedSchema};
ghost use Rattle.sv_app.specs.Schema.{schema_of};
ghost use Rattle.sv_apply_trials.specs.Making.{start};
ghost use Rattle.sv_calls.specs.Standing.{CanStand};
ghost use Rattle.sv_core.specs.Applying.{CanApplyAll};
ghost use Rattle.sv_core.specs.Room.{inserts_in};

use crate::operations::{listed, operation, pooled};
use arrayvec::ArrayVec;
use std::alloc::Global;
use std::test::Fail;
use sv_app::Got;
use sv_calls::{Trial, Trouble, trial_of};
use sv_core::apply_all;
use sv_effect::{Ask, Op, Seen, Told};
use sv_value::{Key, List, Val};

/// A shop whose call makes stock greater.
const RESTOCK: &[u8] = b"
@AUSET create table item (id int, stock int @NUMDELTA, price int @LWW,
  primary key (id), check (stock >= 0), check (price >= 1));
txn restock(k: int, n: int) { if n < 0 { abort 1; } update item[k] set stock = old.stock + n; }
txn buy(k: int, n: int) { if n <= 0 { abort 1; } update item[k] set stock = old.stock - n; }
txn reprice(k: int, p: int) { update item[k] set price = p; }
txn add(k: int, n: int, p: int) { insert item (k, n, p); }
txn look(k: int) { get r = item[k]; reply r.stock; reply r.price; }
%% init item(7, 10, 3);
%% replay sites=1
ask 1 restock(7, 5);
";

/// A shop whose call inserts an item.
const ADD: &[u8] = b"
@AUSET create table item (id int, stock int @NUMDELTA, price int @LWW,
  primary key (id), check (stock >= 0), check (price >= 1));
txn add(k: int, n: int, p: int) { insert item (k, n, p); }
%% init item(7, 10, 3);
%% replay sites=1
ask 1 add(9, 4, 5);
";

/// A shop whose call inserts a line, which refers to the item.
const PUT: &[u8] = b"
@AUSET create table item (id int, stock int @NUMDELTA, price int @LWW,
  primary key (id), check (stock >= 0), check (price >= 1));
@AOSET create table line (ord int, item int, primary key (ord, item), foreign key (item) references item (id));
txn put(o: int, k: int) { insert line (o, k); }
%% init item(7, 10, 3);
%% replay sites=1
ask 1 put(1, 7);
";

const ITEM: u16 = 0;

const LINE: u16 = 1;

/// What a list and a region of the trial's initial rows answer after the operations.
fn told_by_both(
    alloc: Global,
    trial: &Trial,
    ops: &[Op],
    asks: &[Ask],
) -> Result<(List<Told>, List<Told>), Trouble>
    requires tables { AcceptedSchema (schema_of trial.now.app.tables.items) }
    requires rows { CanStand (schema_of trial.now.app.tables.items) trial.now.init }
    requires can { CanApplyAll (schema_of trial.now.app.tables.items) ops.now (start (schema_of trial.now.app.tables.items) trial.now.init) }
    requires room { inserts_in ops.now ≤ 64 }
{
    let Trial { app, init, .. } = trial;
    let mut list = listed(alloc, app, init.items())?;
    let by_list = apply_all(alloc, app, &mut list, ops, asks)?;
    let mut pool = pooled(alloc, app, init.items())?;
    let by_pool = apply_all(alloc, app, &mut pool, ops, asks)?;
    Ok((by_list, by_pool))
}

/// What both answer of the text's initial rows.
fn told_at_first(
    alloc: Global,
    text: &[u8],
    asks: &[Ask],
) -> Result<(List<Told>, List<Told>), Trouble> {
    let trial = trial_of(alloc, text)?;
    told_by_both(alloc, &trial, &[], asks)
}

/// What both answer after the operation of the text's call.
#[tactic(auto, using(crate::proofs::MadeLaws::one))]
fn told_after_call(
    alloc: Global,
    text: &[u8],
    asks: &[Ask],
) -> Result<(List<Told>, List<Told>), Trouble> {
    let trial = trial_of(alloc, text)?;
    let ops = [operation(alloc, &trial)?];
    told_by_both(alloc, &trial, &ops, asks)
}

fn key(number: i64) -> Key {
    Key {
        first: Val::Int(number),
        second: None,
    }
}

fn line_key(order: i64, item: i64) -> Key {
    Key {
        first: Val::Int(order),
        second: Some(Val::Int(item)),
    }
}

/// A present item.
fn item(id: i128, stock: i128, price: i128) -> Told {
    let mut values = ArrayVec::new();
    values.push(Got::Num(id));
    values.push(Got::Num(stock));
    values.push(Got::Num(price));
    Told::Row(Seen {
        kept: true,
        present: true,
        values,
    })
}

/// A present line.
fn line(order: i128, item: i128) -> Told {
    let mut values = ArrayVec::new();
    values.push(Got::Num(order));
    values.push(Got::Num(item));
    Told::Row(Seen {
        kept: true,
        present: true,
        values,
    })
}

/// A row that isn't kept.
fn none() -> Told {
    Told::Row(Seen {
        kept: false,
        present: false,
        values: ArrayVec::new(),
    })
}

#[test]
fn both_tell_the_initial_row(rt: HostRuntime) -> Result<(), Fail> {
    let asks = [Ask::Row {
        table: ITEM,
        key: key(7),
    }];
    let (by_list, by_pool) = told_at_first(rt.alloc(), RESTOCK, &asks)?;
    let wanted = [item(7, 10, 3)];
    assert_eq!(rt; by_list.items(), wanted.as_slice());
    assert_eq!(rt; by_pool.items(), wanted.as_slice());
    Ok(())
}

#[test]
fn both_tell_what_an_update_leaves(rt: HostRuntime) -> Result<(), Fail> {
    let asks = [
        Ask::Row {
            table: ITEM,
            key: key(7),
        },
        Ask::Row {
            table: ITEM,
            key: key(8),
        },
        Ask::Next {
            table: ITEM,
            after: None,
        },
        Ask::Next {
            table: ITEM,
            after: Some(key(7)),
        },
    ];
    let (by_list, by_pool) = told_after_call(rt.alloc(), RESTOCK, &asks)?;
    let wanted = [
        item(7, 15, 3),
        none(),
        Told::Next(Some(key(7))),
        Told::Next(None),
    ];
    assert_eq!(rt; by_list.items(), wanted.as_slice());
    assert_eq!(rt; by_pool.items(), wanted.as_slice());
    Ok(())
}

#[test]
fn both_tell_what_an_insert_leaves(rt: HostRuntime) -> Result<(), Fail> {
    let asks = [
        Ask::Row {
            table: ITEM,
            key: key(9),
        },
        Ask::Row {
            table: ITEM,
            key: key(7),
        },
        Ask::Next {
            table: ITEM,
            after: Some(key(7)),
        },
    ];
    let (by_list, by_pool) = told_after_call(rt.alloc(), ADD, &asks)?;
    let wanted = [item(9, 4, 5), item(7, 10, 3), Told::Next(Some(key(9)))];
    assert_eq!(rt; by_list.items(), wanted.as_slice());
    assert_eq!(rt; by_pool.items(), wanted.as_slice());
    Ok(())
}

#[test]
fn both_tell_what_an_insert_under_two_values_leaves(rt: HostRuntime) -> Result<(), Fail> {
    let asks = [
        Ask::Row {
            table: LINE,
            key: line_key(1, 7),
        },
        Ask::Row {
            table: ITEM,
            key: key(7),
        },
        Ask::Next {
            table: LINE,
            after: None,
        },
        Ask::Next {
            table: LINE,
            after: Some(line_key(1, 7)),
        },
    ];
    let (by_list, by_pool) = told_after_call(rt.alloc(), PUT, &asks)?;
    let wanted = [
        line(1, 7),
        item(7, 10, 3),
        Told::Next(Some(line_key(1, 7))),
        Told::Next(None),
    ];
    assert_eq!(rt; by_list.items(), wanted.as_slice());
    assert_eq!(rt; by_pool.items(), wanted.as_slice());
    Ok(())
}
