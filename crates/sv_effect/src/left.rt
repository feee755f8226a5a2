//! Rows that changes left over a source of rows, and what stands at a place after the changes.

ghost use Rattle.std.specs.Prelude.{◌≡◌, IfOk};
ghost use Rattle.std.specs.FinMap.{get};
ghost use Rattle.sv_app.specs.Tables.{Tables};
ghost use Rattle.sv_effect.specs.Asked.{Asked};
ghost use Rattle.sv_effect.specs.Follows.{Follows};
ghost use Rattle.sv_effect.specs.Overlays.{over, left_row, left_rows, hides, lent, told_row, FoundFits};
ghost use Rattle.sv_effect.specs.Reads.{seen_of};
ghost use Rattle.sv_effect.specs.TablesOfCut.{is_place};

use crate::asks::ask_row;
use crate::reads::{Halt, Seen};
use crate::rows::Rows;
use std::alloc::Global;
use sv_app::{Got, Place};
use sv_value::{List, NoMemory};

/// A row as a change left it: a value for each column, and whether it is present.
#[derive(Debug, Drop)]
pub struct LeftRow {
    pub values: List<Got>,
    pub present: bool,
}

/// Whether they are one place.
pub fn is_place(one: &Place, other: &Place) -> bool
    ensures { result ≡ is_place one.now other.now }
{
    one.cmp(other).is_eq()
}

/// The row that changes left there, if they left one. The latest stands first.
#[tactic(auto, using(crate::proofs::OverlayLaws::looking))]
pub fn left_at<'a>(left: &'a [(Place, LeftRow)], place: &Place) -> Option<&'a LeftRow>
    ensures { (t : Tables) → get (over left.now t) place.now ≡ hides (lent result) (get t place.now) }
{
    match left.split_first() {
        None => None,
        Some((first, rest)) => {
            if is_place(place, &first.0) {
                Some(&first.1)
            } else {
                left_at(rest, place)
            }
        }
    }
}

/// A list of these values.
pub fn copy_values(alloc: Global, values: &[Got]) -> Result<List<Got>, NoMemory>
    ensures { IfOk result (λ copy. copy ≡ values.now) }
{
    Ok(List::from_vec(Vec::from_slice(alloc, values)?))
}

fn copy_row(alloc: Global, row: &LeftRow) -> Result<LeftRow, NoMemory>
    ensures { IfOk result (λ copy. left_row copy ≡ left_row row.now) }
{
    Ok(LeftRow {
        values: copy_values(alloc, row.values.items())?,
        present: row.present,
    })
}

fn told_row(alloc: Global, seen: &Seen) -> Result<Option<LeftRow>, NoMemory>
    ensures { IfOk result (λ row. left_rows row ≡ told_row (seen_of seen.now)) }
{
    if !seen.kept {
        return Ok(None);
    }
    Ok(Some(LeftRow {
        values: copy_values(alloc, seen.values.as_slice())?,
        present: seen.present,
    }))
}

/// What stands at a place: the row that changes left there, the latest first, else the one that is told of; none where
/// no row is kept. It fails where the rows do, and where there is no memory for a copy of the row.
#[tactic(auto, using(crate::proofs::OverlayLaws::looking))]
pub fn look<R: Rows>(
    alloc: Global,
    left: &[(Place, LeftRow)],
    rows: &mut R,
    place: &Place,
) -> Result<Option<LeftRow>, Halt>
    ensures followed { IfOk result (λ row. Follows (R.face rows.old) (R.face rows.new) (R.noted rows.old) (R.noted rows.new) (λ t. get (over left.now t) place.now ≡ left_rows row)) }
    ensures fits { IfOk result (λ row. FoundFits (R.is_of rows.old) left.now place.now (left_rows row)) }
    ensures asked { Asked R.stays R.face rows.old rows.new result }
{
    match left_at(left, place) {
        Some(row) => {
            let copy = copy_row(alloc, row)?;
            Ok(Some(copy))
        }
        None => {
            let seen = ask_row(rows, place.table, &place.key)?;
            let row = told_row(alloc, &seen)?;
            Ok(row)
        }
    }
}
