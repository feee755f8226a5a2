//! Uniqueness after changes.

ghost use Rattle.std.specs.Prelude.{◌≡◌, ◌++◌, List, Some, IfOk, OnOk, if◌then◌else◌};
ghost use Rattle.std.specs.Ordering.{eq_by_cmp};
ghost use Rattle.std.specs.BTreeMap.{get as first_at};
ghost use Rattle.std.specs.FinMap.{get};
ghost use Rattle.sv_effect.specs.Asked.{Asked};
ghost use Rattle.sv_effect.specs.Follows.{Follows};
ghost use Rattle.sv_effect.specs.Overlays.{over, left_row, told_row};
ghost use Rattle.sv_effect.specs.Reads.{seen_of};
ghost use Rattle.sv_check.specs.declared.clashes.Ordered.{Ordered as OrderedValue};
ghost use Rattle.sv_check.specs.Clashes.{present_value, pair_of, values_at, in_order, ordered_cmp, with_both, Clashes};
ghost use Rattle.sv_check.specs.Least.{IsLeast};

use crate::keys::lesser;
use std::alloc::Global;
use std::collections::BTreeMap;
use sv_app::{Got, Ident, Place};
use sv_effect::{Halt, LeftRow, Rows, Seen, ask_row, column as column_of, left_at};
use sv_value::{Key, NoMemory, Text, Val};

/// A value as the key of a map. A number has no text, and a text has the number zero.
#[derive(Clone, Copy, Debug, PartialEq, Eq, PartialOrd, Ord)]
pub struct Ordered {
    pub number: i128,
    pub text: Option<Text>,
}

/// The value that the row has in the column, if it is present.
fn value_left(row: &LeftRow, column: &Ident) -> Option<Got>
    ensures { result ≡ present_value column.now (Some (left_row row.now)) }
{
    if row.present {
        Some(column_of(row.values.items(), column.num))
    } else {
        None
    }
}

/// The value that a row that was told of has in the column, if it is present.
fn value_told(seen: &Seen, column: &Ident) -> Option<Got>
    ensures { result ≡ present_value column.now (told_row (seen_of seen.now)) }
{
    if seen.kept && seen.present {
        Some(column_of(seen.values.as_slice(), column.num))
    } else {
        None
    }
}

/// The value that the row at the place has in the column, if it is present after the changes.
#[tactic(auto, using(crate::proofs::ClashLaws::valuing))]
fn value_at<R: Rows>(
    left: &[(Place, LeftRow)],
    place: &Place,
    column: &Ident,
    rows: &mut R,
) -> Result<Option<Got>, Halt>
    ensures followed { IfOk result (λ value. Follows (R.face rows.old) (R.face rows.new) (R.noted rows.old) (R.noted rows.new)
        (λ t. value ≡ present_value column.now (get (over left.now t) place.now))) }
    ensures asked { Asked R.stays R.face rows.old rows.new result }
{
    match left_at(left, place) {
        Some(row) => Ok(value_left(row, column)),
        None => {
            let seen = ask_row(rows, place.table, &place.key)?;
            Ok(value_told(&seen, column))
        }
    }
}

/// Adds the key with its value, if it has one.
fn add_value(key: &Key, value: Option<Got>, pairs: &mut Vec<(Key, Got)>) -> Result<(), NoMemory>
    ensures { OnOk result (pairs.new.items ≡ pairs.old.items ++ pair_of key.now value) }
{
    // The check wants to see the type that is inside a key.
    let _val: Option<Val> = None;
    if let Some(value) = value {
        pairs.push((*key, value))?;
    }
    Ok(())
}

/// The keys of those of the rows that are present after the changes, with their values of the column.
#[tactic(auto, using(crate::proofs::ClashLaws::pairing))]
pub fn present_values<R: Rows>(
    alloc: Global,
    left: &[(Place, LeftRow)],
    table: u16,
    column: &Ident,
    keys: &[Key],
    rows: &mut R,
) -> Result<Vec<(Key, Got)>, Halt>
    ensures followed { IfOk result (λ pairs. Follows (R.face rows.old) (R.face rows.new) (R.noted rows.old) (R.noted rows.new)
        (λ t. pairs.items ≡ values_at (over left.now t) table column.now keys.now)) }
    ensures asked { Asked R.stays R.face rows.old rows.new result }
{
    let mut pairs = Vec::new(alloc);
    for key in keys {
        let value = value_at(left, &Place { table, key: *key }, column, rows)?;
        add_value(key, value, &mut pairs)?;
    }
    Ok(pairs)
}

/// The value as the key of a map.
fn in_order(value: &Got) -> Ordered
    ensures { result ≡ in_order value.now }
{
    match value {
        Got::Num(number) => Ordered {
            number: *number,
            text: None,
        },
        Got::Text(text) => Ordered {
            number: 0,
            text: Some(*text),
        },
    }
}

/// The first key that had the value, if one had.
fn first_key(firsts: &BTreeMap<Ordered, Key>, value: &Ordered) -> Option<Key>
    ensures { result ≡ first_at ordered_cmp firsts.now value.now }
{
    firsts.get(value).copied()
}

/// Notes the key as the first that has the value.
fn note_first(
    value: Ordered,
    key: &Key,
    firsts: &mut BTreeMap<Ordered, Key>,
) -> Result<(), NoMemory>
    ensures { OnOk result ((other : OrderedValue) → first_at ordered_cmp firsts.new other ≡ (if eq_by_cmp ordered_cmp value other then Some key.now else first_at ordered_cmp firsts.old other)) }
{
    // The check wants to see the types that are inside a value and a key.
    let _val: Option<Val> = None;
    let _text: Option<Text> = None;
    firsts.insert(value, *key)?;
    Ok(())
}

/// The least of the key found so far and of these two, unless they are one.
fn with_both(found: Option<Key>, first: &Key, key: &Key) -> Option<Key>
    ensures { result ≡ with_both found first.now key.now }
{
    if first.cmp(key).is_eq() {
        found
    } else {
        lesser(lesser(found, Some(*first)), Some(*key))
    }
}

/// The least key with a value that another key has.
#[tactic(auto, using(crate::proofs::FirstLaws::clashing))]
pub fn least_clash(alloc: Global, pairs: &[(Key, Got)]) -> Result<Option<Key>, NoMemory>
    ensures { IfOk result (λ found. IsLeast (Clashes pairs.now) found) }
{
    let mut firsts = BTreeMap::new(alloc);
    let mut found = None;
    for (key, value) in pairs {
        let value = in_order(value);
        match first_key(&firsts, &value) {
            Some(first) => found = with_both(found, &first, key),
            None => note_first(value, key, &mut firsts)?,
        }
    }
    Ok(found)
}
