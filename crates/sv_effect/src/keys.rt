//! The keys of the present rows of a table, in order, before changes and after them.

ghost use Rattle.std.specs.Prelude.{◌≡◌, ◌<◌, ◌++◌, ◌∷◌, [], IfOk, IfErr, IfSome, OnOk, Some, None};
ghost use Rattle.sv_app.specs.Tables.{Tables};
ghost use Rattle.sv_effect.specs.Agrees.{IsNextKey};
ghost use Rattle.sv_effect.specs.Asked.{Asked};
ghost use Rattle.sv_effect.specs.Follows.{Follows};
ghost use Rattle.sv_effect.specs.Keys.{Walked, with_key, without_key, laid, StandsAt, IsMissingAt};
ghost use Rattle.sv_effect.specs.Overlays.{over};
ghost use Rattle.sv_effect.specs.Run.{present_keys};

use crate::asks::ask_after;
use crate::left::LeftRow;
use crate::reads::Halt;
use crate::rows::Rows;
use std::alloc::Global;
use std::cmp::Ordering;
use sv_app::Place;
use sv_value::{Key, List, NoMemory, Val};

/// Appends a key.
pub fn put_key(keys: &mut List<Key>, key: &Key) -> Result<(), NoMemory>
    ensures { OnOk result (keys.new ≡ keys.old ++ key.now ∷ []) }
{
    let first: Val = key.first;
    let second: Option<Val> = key.second;
    keys.push(Key { first, second })
}

/// Appends the keys of the present rows of a table, in order.
#[tactic(auto, using(crate::proofs::KeyLaws::walking))]
fn walk<R: Rows>(keys: &mut List<Key>, rows: &mut R, table: u16) -> Result<(), Halt>
    ensures walked { OnOk result (Walked (R.face rows.old) (R.face rows.new) (R.noted rows.old) (R.noted rows.new) table None keys.old keys.new) }
    ensures asked { Asked R.stays R.face rows.old rows.new result }
{
    let mut after: Option<Key> = None;
    loop {
        match ask_after(rows, table, &after)? {
            Some(key) => {
                put_key(keys, &key)?;
                after = Some(key);
            }
            None => return Ok(()),
        }
    }
}

/// The keys of the present rows of a table, in order. It fails where the rows do, and where there is no memory for them.
pub fn present_keys<R: Rows>(alloc: Global, table: u16, rows: &mut R) -> Result<List<Key>, Halt>
    ensures followed { IfOk result (λ keys. Follows (R.face rows.old) (R.face rows.new) (R.noted rows.old) (R.noted rows.new) (λ t. keys ≡ present_keys t table)) }
    ensures asked { Asked R.stays R.face rows.old rows.new result }
{
    let mut keys = List::new(alloc);
    walk(&mut keys, rows, table)?;
    Ok(keys)
}

/// Where a key stands among keys in order, or else where it would be put.
#[tactic(auto, using(crate::proofs::SpotLaws::spotting))]
fn find(key: &Key, keys: &[Key]) -> Result<usize, usize>
    ensures stands { IfOk result (StandsAt key.now keys.now) }
    ensures missing { IfErr result (IsMissingAt key.now keys.now) }
{
    for at in 0..keys.len() {
        match key.cmp(&keys[at]) {
            Ordering::Less => return Err(at),
            Ordering::Equal => return Ok(at),
            Ordering::Greater => {}
        }
    }
    Err(keys.len())
}

/// Puts a key among keys in order, unless it is there.
fn put_in(key: &Key, keys: &mut Vec<Key>) -> Result<(), NoMemory>
    ensures { OnOk result (keys.new.items ≡ with_key key.now keys.old.items) }
{
    match find(key, keys) {
        Ok(_) => Ok(()),
        Err(at) => {
            let first: Val = key.first;
            let second: Option<Val> = key.second;
            keys.insert(at, Key { first, second })?;
            Ok(())
        }
    }
}

/// Takes a key out of keys in order, if it is there.
fn take_out(key: &Key, keys: &mut Vec<Key>)
    ensures { keys.new.items ≡ without_key key.now keys.old.items }
{
    match find(key, keys) {
        Ok(at) => {
            keys.remove(at);
        }
        Err(_) => {}
    }
}

/// The keys of the present rows of a table, after a row was written.
fn lay(row: &(Place, LeftRow), table: u16, keys: &mut Vec<Key>) -> Result<(), NoMemory>
    ensures { OnOk result (keys.new.items ≡ laid row.now table keys.old.items) }
{
    if table != row.0.table {
        return Ok(());
    }
    if row.1.present {
        put_in(&row.0.key, keys)
    } else {
        take_out(&row.0.key, keys);
        Ok(())
    }
}

/// The same after all rows that changes left, the latest first.
#[tactic(auto, using(crate::proofs::LaidLaws::laying))]
fn lay_all(left: &[(Place, LeftRow)], table: u16, keys: &mut Vec<Key>) -> Result<(), NoMemory>
    ensures { OnOk result ((t : Tables) → keys.old.items ≡ present_keys t table → keys.new.items ≡ present_keys (over left.now t) table) }
{
    match left.split_first() {
        None => Ok(()),
        Some((first, rest)) => {
            lay_all(rest, table, keys)?;
            lay(first, table, keys)
        }
    }
}

/// The keys of the present rows of a table after changes that left these rows, the latest first; in order. It fails
/// where the rows do, and where there is no memory for them.
#[tactic(auto, using(crate::proofs::LaidLaws::laid_all))]
pub fn present_after<R: Rows>(
    alloc: Global,
    left: &[(Place, LeftRow)],
    table: u16,
    rows: &mut R,
) -> Result<List<Key>, Halt>
    ensures followed { IfOk result (λ keys. Follows (R.face rows.old) (R.face rows.new) (R.noted rows.old) (R.noted rows.new) (λ t. keys ≡ present_keys (over left.now t) table)) }
    ensures asked { Asked R.stays R.face rows.old rows.new result }
{
    let before = present_keys(alloc, table, rows)?;
    let mut keys = before.into_vec();
    lay_all(left, table, &mut keys)?;
    Ok(List::from_vec(keys))
}
