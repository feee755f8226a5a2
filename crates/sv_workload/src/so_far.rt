//! The initial rows that were read so far.

ghost use Rattle.std.specs.Prelude.{◌≡◌, [], ◌∷◌, ◌++◌, IfOk};
ghost use Rattle.std.specs.List.{list_any};
ghost use Rattle.sv_effect.specs.TablesOfCut.{init_place, is_place};
ghost use Rattle.sv_workload.specs.Places.{StandAt};

use std::alloc::Global;
use std::collections::BTreeSet;
use sv_app::{InitRow, Place};
use sv_value::{List, NoMemory};

/// The initial rows that were read so far, and the places where they stand.
#[derive(Debug, Drop)]
pub struct RowsSoFar {
    pub rows: List<InitRow>,
    places: BTreeSet<Place>,
    ghost stand: { StandAt places rows },
}

fn place_of(row: &InitRow) -> Place
    ensures { result ≡ init_place row.now }
{
    Place {
        table: row.table,
        key: row.key,
    }
}

impl RowsSoFar {
    /// No rows.
    #[tactic(auto, using(crate::proofs::PlaceLaws::none_stand))]
    pub fn none(alloc: Global) -> RowsSoFar
        ensures { result.rows ≡ [] }
    {
        RowsSoFar {
            rows: List::new(alloc),
            places: BTreeSet::new(alloc),
        }
    }

    /// Whether one of the rows stands at the place of that one.
    pub fn has_place_of(&self, row: &InitRow) -> bool
        ensures { result ≡ list_any (λ other. is_place (init_place other) (init_place row.now)) self.now.rows }
    {
        self.places.contains(&place_of(row))
    }

    /// These rows, and that one behind them.
    #[tactic(auto, using(crate::proofs::PlaceLaws::more_stand))]
    pub fn and(self, row: InitRow) -> Result<RowsSoFar, NoMemory>
        ensures { IfOk result (λ more. more.rows ≡ self.rows ++ row ∷ []) }
    {
        let RowsSoFar {
            mut rows,
            mut places,
        } = self;
        places.insert(place_of(&row))?;
        rows.push(row)?;
        Ok(RowsSoFar { rows, places })
    }

    /// The rows.
    pub fn into_rows(self) -> List<InitRow>
        ensures { result ≡ self.rows }
    {
        let RowsSoFar { rows, places: _ } = self;
        rows
    }
}
