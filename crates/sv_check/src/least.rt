//! The least key at which a rule is broken after changes.

ghost use Rattle.std.specs.Prelude.{◌≡◌, false, List, IfOk, if◌then◌else◌};
ghost use Rattle.sv_app.specs.Accepted.{AcceptedSchema};
ghost use Rattle.sv_app.specs.Schema.{schema_of, rule_of, invariant_of};
ghost use Rattle.sv_app.specs.Valid.{IsInvariant};
ghost use Rattle.sv_effect.specs.Asked.{Asked};
ghost use Rattle.sv_effect.specs.Follows.{Follows};
ghost use Rattle.sv_check.specs.Bounds.{LeftBounded};
ghost use Rattle.sv_check.specs.Least.{lesser, IsOwn, LeastAmong, LeastBroken, is_touched, walks};

use crate::broken::{has_absent, is_broken};
use crate::clashes::{least_clash, present_values};
use crate::keys::{candidates, lesser};
use std::alloc::Global;
use sv_app::{App, Inv, InvBody, Place};
use sv_effect::{Halt, LeftRow, Rows};
use sv_value::Key;

/// The lesser of both, where the rule is broken at the key.
fn with_key(found: Option<Key>, key: &Key, broken: bool) -> Option<Key>
    ensures { result ≡ (if broken then lesser found (Some key.now) else found) }
{
    if broken {
        lesser(found, Some(*key))
    } else {
        found
    }
}

/// The least of the keys at which the rule is broken.
#[tactic(auto, using(crate::proofs::LeastBrokenLaws::looking))]
fn least_among<R: Rows>(
    alloc: Global,
    app: &App,
    table: u16,
    inv: &Inv,
    keys: &[Key],
    left: &[(Place, LeftRow)],
    rows: &mut R,
) -> Result<Option<Key>, Halt>
    requires own { IsOwn (rule_of inv.now.body) }
    requires declared { IsInvariant (schema_of app.now.tables.items) table (invariant_of inv.now) }
    requires accepted { AcceptedSchema (schema_of app.now.tables.items) }
    requires rows { R.is_of rows.old (schema_of app.now.tables.items) }
    requires bounded { LeftBounded (schema_of app.now.tables.items) 0 left.now }
    ensures followed { IfOk result (λ found. Follows (R.face rows.old) (R.face rows.new) (R.noted rows.old) (R.noted rows.new)
        (LeastAmong (schema_of app.now.tables.items) left.now table (rule_of inv.now.body) keys.now found)) }
    ensures asked { Asked R.stays R.face rows.old rows.new result }
{
    let mut found = None;
    for key in keys {
        let broken = is_broken(alloc, app, inv, &Place { table, key: *key }, left, rows)?;
        found = with_key(found, key, broken);
    }
    Ok(found)
}

/// Whether changes left a row of the table.
fn is_touched(left: &[(Place, LeftRow)], table: u16) -> bool
    ensures { result ≡ is_touched left.now table }
{
    for (place, _) in left {
        if place.table == table {
            return true;
        }
    }
    false
}

/// Whether rows that no change left may break the rule.
fn walks(inv: &Inv, left: &[(Place, LeftRow)]) -> bool
    ensures { result ≡ walks (rule_of inv.now.body) left.now }
{
    match &inv.body {
        InvBody::Check(_) | InvBody::List { .. } => false,
        InvBody::Unique { .. } => true,
        InvBody::Refers { table, .. } => has_absent(left, table.num),
    }
}

/// The least key at which the invariant is broken after the changes.
#[tactic(auto, using(crate::proofs::LeastBrokenLaws::breaking))]
pub fn least_broken<R: Rows>(
    alloc: Global,
    app: &App,
    table: u16,
    inv: &Inv,
    left: &[(Place, LeftRow)],
    rows: &mut R,
) -> Result<Option<Key>, Halt>
    requires declared { IsInvariant (schema_of app.now.tables.items) table (invariant_of inv.now) }
    requires accepted { AcceptedSchema (schema_of app.now.tables.items) }
    requires rows { R.is_of rows.old (schema_of app.now.tables.items) }
    requires bounded { LeftBounded (schema_of app.now.tables.items) 0 left.now }
    ensures followed { IfOk result (λ found. Follows (R.face rows.old) (R.face rows.new) (R.noted rows.old) (R.noted rows.new)
        (LeastBroken (schema_of app.now.tables.items) left.now table (rule_of inv.now.body) found)) }
    ensures asked { Asked R.stays R.face rows.old rows.new result }
{
    match &inv.body {
        InvBody::Unique { col } => {
            if !is_touched(left, table) {
                return Ok(None);
            }
            let keys = candidates(alloc, left, table, true, rows)?;
            let pairs = present_values(alloc, left, table, col, &keys, rows)?;
            let found = least_clash(alloc, &pairs)?;
            Ok(found)
        }
        InvBody::Check(_) | InvBody::List { .. } | InvBody::Refers { .. } => {
            let keys = candidates(alloc, left, table, walks(inv, left), rows)?;
            let found = least_among(alloc, app, table, inv, &keys, left, rows)?;
            Ok(found)
        }
    }
}
