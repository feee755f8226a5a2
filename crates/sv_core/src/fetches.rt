//! Fetching answers from a store into a sheet.

ghost use Rattle.std.specs.Prelude.{◌≡◌, ◌≤◌, false, List, IfSome};
ghost use Rattle.sv_app.specs.Schema.{Declaration, schema_of};
ghost use Rattle.sv_effect.specs.Agrees.{IsNextKey, place_at};
ghost use Rattle.sv_effect.specs.BareTables.{bare};
ghost use Rattle.sv_effect.specs.RowsFit.{KeyIsOf};
ghost use Rattle.sv_core.specs.Sheets.{Adds, IsAdded, IsBehind, IsFetch, IsOfKey, is_known};

use crate::sheets::Sheet;
use sv_effect::{Ask, RowStore, Told};
use sv_value::Key;

/// How many rows are fetched ahead behind a key.
const AHEAD: u32 = 32;

/// The key that follows in the table.
fn next_behind<S: RowStore>(store: &S, table: u16, after: &Option<Key>) -> Option<Key>
    ensures value { IsNextKey (bare (S.stamped store.now)) table after.now result }
    ensures fits { IfSome result (λ key. (schema : List Declaration) → S.is_of store.now schema → KeyIsOf schema (place_at table key)) }
{
    match after {
        Some(key) => store.next_after(table, Some(key)),
        None => store.next_after(table, None),
    }
}

/// Adds what the store answers to the ask.
fn fetch_one<S: RowStore>(store: &S, ask: &Ask, sheet: &mut Sheet)
    requires rows { S.is_of store.now (schema_of sheet.old.doc.app.tables.items) }
    requires room { 1 ≤ sheet.old.room }
    ensures { IsAdded (bare (S.stamped store.now)) ask.now sheet.old sheet.new }
{
    match ask {
        Ask::Row { table, key } => sheet.add(ask, Told::Row(store.see(*table, key))),
        Ask::Next { table, after } => {
            sheet.add(ask, Told::Next(next_behind(store, *table, after)));
        }
    }
}

/// Adds what the store answers to the ask, unless that is known or there is no room; how many answers that were.
fn fetch_unknown<S: RowStore>(store: &S, ask: &Ask, sheet: &mut Sheet) -> u32
    requires { S.is_of store.now (schema_of sheet.old.doc.app.tables.items) }
    ensures adds { Adds (bare (S.stamped store.now)) (λ asked. asked ≡ ask.now) sheet.old result sheet.new }
    ensures most { result ≤ 1 }
{
    if sheet.room() == 0 || sheet.is_known(ask) {
        return 0;
    }
    fetch_one(store, ask, sheet);
    1
}

/// Adds the row of a key that was found, and which key follows it; how many answers that were.
fn fetch_found<S: RowStore>(store: &S, table: u16, key: &Key, sheet: &mut Sheet) -> u32
    requires { S.is_of store.now (schema_of sheet.old.doc.app.tables.items) }
    ensures adds { Adds (bare (S.stamped store.now)) (IsOfKey table key.now) sheet.old result sheet.new }
    ensures most { result ≤ 2 }
{
    let row = fetch_unknown(store, &Ask::Row { table, key: *key }, sheet);
    let after = Some(*key);
    row + fetch_unknown(store, &Ask::Next { table, after }, sheet)
}

/// Adds the rows that follow the key, and which keys follow these, at most 32 rows and while there is room; how many
/// answers that were.
fn fetch_behind<S: RowStore>(store: &S, table: u16, after: &Option<Key>, sheet: &mut Sheet) -> u32
    requires { S.is_of store.now (schema_of sheet.old.doc.app.tables.items) }
    ensures adds { Adds (bare (S.stamped store.now)) (IsBehind (bare (S.stamped store.now)) table after.now) sheet.old result sheet.new }
    ensures most { result ≤ 64 }
{
    let mut count = 0;
    let mut last = *after;
    for _ in 0..AHEAD {
        let next = next_behind(store, table, &last);
        match &next {
            Some(key) => count += fetch_found(store, table, key, sheet),
            None => break,
        }
        last = next;
    }
    count
}

/// Adds what the store answers to an ask that isn't known, and behind an ask for a next key the rows that follow it, and
/// which keys follow these, at most 32 rows, of what isn't known and while there is room; how many answers that were.
pub(crate) fn fetch<S: RowStore>(store: &S, ask: &Ask, sheet: &mut Sheet) -> u32
    requires rows { S.is_of store.now (schema_of sheet.old.doc.app.tables.items) }
    requires room { 1 ≤ sheet.old.room }
    requires unknown { is_known sheet.old.known ask.now ≡ false }
    ensures { IsFetch (bare (S.stamped store.now)) ask.now sheet.old result sheet.new }
{
    fetch_one(store, ask, sheet);
    match ask {
        Ask::Row { .. } => 1,
        Ask::Next { table, after } => fetch_behind(store, *table, after, sheet) + 1,
    }
}
