ghost use Rattle.std.specs.Prelude.{◌≡◌, ◌++◌, [], IfOk, OnOk};
ghost use Rattle.std.specs.FinMap.{get};
ghost use Rattle.std.specs.Option.{option_map};
ghost use Rattle.sv_app.specs.Trees.{test_of};
ghost use Rattle.sv_effect.specs.Asked.{Asked};
ghost use Rattle.sv_effect.specs.Overlays.{over, left_rows};
ghost use Rattle.sv_effect.specs.Run.{with_row, values_at, kept_if, meeting_test, meeting, only, present_keys};
ghost use Rattle.sv_effect.specs.RunValues.{truth_of};
ghost use Rattle.sv_interp.specs.Machine.{Learns, scope_of, evaluated};

use crate::scopes::Scope;
use crate::settings::Selection;
use crate::slots::put_row;
use crate::values::truth;
use std::alloc::Global;
use sv_app::{Cond, Got, Place};
use sv_effect::{Halt, LeftRow, Rows, look, present_after, put_key};
use sv_value::{Key, List, NoMemory};

fn values_of(alloc: Global, found: Option<LeftRow>) -> List<Got>
    ensures { result ≡ values_at (left_rows found) }
{
    match found {
        Some(row) => row.values,
        None => List::new(alloc),
    }
}

/// The condition that rows of a table have to meet, under the name of their variable, over the rows that the run wrote.
#[derive(Debug, Drop)]
struct Filter<'a> {
    alloc: Global,
    own: &'a [(Place, LeftRow)],
    row: u16,
    table: u16,
    test: &'a Cond,
}

/// Whether the row of a key meets the condition.
#[tactic(auto, using(crate::proofs::MeetLaws::row_meets))]
fn meets<R: Rows>(
    filter: &Filter<'_>,
    key: &Key,
    scope: &mut Scope,
    rows: &mut R,
) -> Result<Option<bool>, Halt>
    ensures followed { IfOk result (λ holds. Learns R.face R.noted rows.old rows.new (λ t.
        truth_of (test_of filter.now.test.now) (with_row filter.now.row (values_at (get (over filter.now.own.now t)
        (record { table = filter.now.table; key = key.now }))) (scope_of scope.old)) ≡ evaluated holds scope.new)) }
    ensures asked { Asked R.stays R.face rows.old rows.new result }
{
    let place = Place {
        table: filter.table,
        key: *key,
    };
    let found = look(filter.alloc, filter.own, rows, &place)?;
    let values = values_of(filter.alloc, found);
    put_row(filter.alloc, &mut scope.rows, filter.row, values)?;
    let holds = truth(filter.test, scope)?;
    Ok(holds)
}

/// Appends a key if it is kept.
fn put_if(holds: bool, key: &Key, keys: &mut List<Key>) -> Result<(), NoMemory>
    ensures { OnOk result (keys.new ≡ keys.old ++ kept_if holds key.now []) }
{
    if holds {
        put_key(keys, key)?;
    }
    Ok(())
}

/// Those of the keys whose rows meet the condition; none where a number leaves 64 bits.
#[tactic(auto, using(crate::proofs::MeetLaws::rows_meet))]
fn meet<R: Rows>(
    filter: &Filter<'_>,
    keys: &[Key],
    scope: &mut Scope,
    rows: &mut R,
) -> Result<Option<List<Key>>, Halt>
    ensures followed { IfOk result (λ met. Learns R.face R.noted rows.old rows.new (λ t.
        meeting_test filter.now.row filter.now.table (test_of filter.now.test.now) (over filter.now.own.now t) keys.now
        (scope_of scope.old) ≡ evaluated met scope.new)) }
    ensures asked { Asked R.stays R.face rows.old rows.new result }
{
    let mut met = List::new(filter.alloc);
    for key in keys {
        let Some(holds) = meets(filter, key, scope, rows)? else {
            return Ok(None);
        };
        put_if(holds, key, &mut met)?;
    }
    Ok(Some(met))
}

/// The keys of the present rows that meet the condition, in order; none where a number leaves 64 bits.
#[tactic(auto, using(crate::proofs::MeetLaws::all_meet))]
pub fn met_keys<R: Rows>(
    alloc: Global,
    selection: &Selection<'_>,
    own: &[(Place, LeftRow)],
    scope: Scope,
    rows: &mut R,
) -> Result<Option<List<Key>>, Halt>
    ensures followed { IfOk result (λ keys. Learns R.face R.noted rows.old rows.new (λ t.
        only (meeting selection.now.row.num selection.now.table.num (option_map test_of selection.now.cond.now)
        (over own.now t) (present_keys (over own.now t) selection.now.table.num) (scope_of scope)) ≡ keys)) }
    ensures asked { Asked R.stays R.face rows.old rows.new result }
{
    let keys = present_after(alloc, own, selection.table.num, rows)?;
    match selection.cond {
        None => Ok(Some(keys)),
        Some(test) => {
            let mut scratch = scope;
            let filter = Filter {
                alloc,
                own,
                row: selection.row.num,
                table: selection.table.num,
                test,
            };
            let met = meet(&filter, keys.items(), &mut scratch, rows)?;
            Ok(met)
        }
    }
}
