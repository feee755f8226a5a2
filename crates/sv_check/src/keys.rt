//! The keys at which a rule may be broken after changes.

ghost use Rattle.std.specs.Prelude.{◌≡◌, ◌<◌, ◌||◌, Some, List, IfOk, IfSome, OnOk};
ghost use Rattle.sv_value.specs.declared.values.Key.{Key as KeyValue};
ghost use Rattle.sv_app.specs.Tables.{Tables};
ghost use Rattle.sv_app.specs.Valid.{place_at};
ghost use Rattle.sv_effect.specs.Agrees.{IsNextKey};
ghost use Rattle.sv_effect.specs.Asked.{Asked};
ghost use Rattle.sv_effect.specs.Follows.{Follows};
ghost use Rattle.sv_check.specs.Left.{is_left};
ghost use Rattle.sv_check.specs.Least.{lesser, has_key, AreCandidates};

use std::alloc::Global;
use sv_app::Place;
use sv_effect::{Halt, LeftRow, Rows, present_keys};
use sv_value::{Key, NoMemory};

/// The lesser of two keys, where there are two.
pub fn lesser(one: Option<Key>, other: Option<Key>) -> Option<Key>
    ensures { result ≡ lesser one other }
{
    match (one, other) {
        (None, other) => other,
        (Some(key), None) => Some(key),
        (Some(key), Some(other)) => {
            if other.cmp(&key).is_lt() {
                Some(other)
            } else {
                Some(key)
            }
        }
    }
}

/// Adds the keys of the table's rows that changes left.
fn add_left(left: &[(Place, LeftRow)], table: u16, keys: &mut Vec<Key>) -> Result<(), NoMemory>
    ensures { OnOk result ((key : KeyValue) → has_key key keys.new.items ≡ (has_key key keys.old.items || is_left (place_at table key) left.now)) }
{
    for (place, _) in left {
        if place.table == table {
            keys.push(place.key)?;
        }
    }
    Ok(())
}

/// The keys of the table's rows that changes left, and where it is to be walked, of its rows that were present.
#[tactic(auto, using(crate::proofs::WalkLaws::candidates))]
pub fn candidates<R: Rows>(
    alloc: Global,
    left: &[(Place, LeftRow)],
    table: u16,
    walk: bool,
    rows: &mut R,
) -> Result<Vec<Key>, Halt>
    ensures followed { IfOk result (λ keys. Follows (R.face rows.old) (R.face rows.new) (R.noted rows.old) (R.noted rows.new) (AreCandidates walk left.now table keys.items)) }
    ensures asked { Asked R.stays R.face rows.old rows.new result }
{
    if walk {
        let before = present_keys(alloc, table, rows)?;
        let mut keys = before.into_vec();
        add_left(left, table, &mut keys)?;
        Ok(keys)
    } else {
        let mut keys = Vec::new(alloc);
        add_left(left, table, &mut keys)?;
        Ok(keys)
    }
}
