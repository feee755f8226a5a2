ghost use Rattle.std.specs.Prelude.{◌≡◌, ◌≤◌, ◌<◌, ◌+◌, ◌^◌, List, None, length, map, All, IfOk, IfErr, IfSome};
ghost use Rattle.std.specs.Option.{option_map};
ghost use Rattle.std.specs.FinMap as map_of;
ghost use Rattle.sv_app.specs.Accepted.{AcceptedSchema};
ghost use Rattle.sv_app.specs.Schema.{Declaration, declaration_of, schema_of};
ghost use Rattle.sv_effect.specs.StampedTables.{row_of};
ghost use Rattle.sv_effect.specs.RowChange.{changed, is_annotated, zero_row};
ghost use Rattle.sv_effect.specs.Applied.{place_of, changes_of, applied};
ghost use Rattle.sv_effect.specs.Fits.{CellsFit, ChangeFits, CountsFit, OpFits};
ghost use Rattle.sv_effect.specs.Reads.{seen_of};
ghost use Rattle.sv_effect.specs.Agrees.{key_behind, place_at, seen_at, IsNextKey};
ghost use Rattle.sv_effect.specs.BareTables.{bare, how_many};
ghost use Rattle.sv_effect.specs.RowsFit.{SeenFits, TablesAreOf};
ghost use Rattle.sv_effect.specs.Takes.{KeepsBounds, FindsRows, inserts};
ghost use Rattle.sv_effect.specs.Cut.{empty};
ghost use Rattle.sv_effect.specs.TablesOfCut.{tables_held};
ghost use Rattle.sv_store.specs.Initial.{InitFits, AreDistinct};
ghost use Rattle.sv_store.specs.Stored.{entry_of, AreRising, IsAt, IsGapFor, HasRoom, with_row};
ghost use Rattle.sv_store.specs.Rest.{IsStart, first_present};
ghost use Rattle.sv_store.specs.Standing.{standing, left_by};

use crate::rows::{KeptRow, init_row, new_row};
use std::alloc::Global;
use std::marker::Model;
use sv_app::{App, InitRow, Place, Table};
use sv_effect::{Op, Row, RowEffect, Seen, apply_row};
use sv_value::{Key, NoMemory, Stamp};

/// A site's rows, as a list in the order of their places. Contracts see them as stamped tables, and see how many
/// further rows fit.
#[derive(Debug, Drop)]
pub struct ListStore {
    kept: Vec<KeptRow>,
}

impl Model for ListStore {
    ghost use Rattle.std.specs.Vec.{vec_capacity};
    ghost use Rattle.sv_store.specs.Stored.{Stored, coded_stored};

    ghost Value = { Stored };

    ghost coded = { coded_stored };

    ghost use Rattle.sv_store.specs.Stored.{stored_in, Keeps};

    ghost view = { λ store. stored_in store.kept.items (vec_capacity store.kept) };

    ghost invariant = { λ store. Keeps store.kept.items (vec_capacity store.kept) };
}

/// Where the place is, or where it would go.
fn search(kept: &[KeptRow], place: &Place) -> Result<usize, usize>
    requires { AreRising kept.now }
    ensures found { IfOk result (IsAt kept.now place.now) }
    ensures absent { IfErr result (IsGapFor kept.now place.now) }
{
    kept.binary_search_by_key(place, |row| row.place)
}

/// Where the rows of a table begin.
fn table_start(kept: &[KeptRow], table: u16) -> usize
    requires { AreRising kept.now }
    ensures { IsStart kept.now table None result }
{
    kept.partition_point(|row| row.place.table < table)
}

/// Where the rows of a table behind a key begin, or all of them.
#[tactic(auto, using(crate::proofs::NextLaws::start_at))]
fn rest_start(kept: &[KeptRow], table: u16, after: Option<&Key>) -> usize
    requires { AreRising kept.now }
    ensures { IsStart kept.now table (key_behind after.entry) result }
{
    match after {
        Some(key) => match search(kept, &Place { table, key: *key }) {
            Ok(at) => at + 1,
            Err(at) => at,
        },
        None => table_start(kept, table),
    }
}

/// The key of the first row that is present, before any of another table.
#[tactic(auto, using(crate::proofs::NextLaws::look_other, crate::proofs::NextLaws::look_found, crate::proofs::NextLaws::look_past, crate::proofs::NextLaws::look_end))]
fn first_present(kept: &[KeptRow], table: u16) -> Option<Key>
    ensures { result ≡ first_present table kept.now }
{
    for row in kept {
        if row.place.table != table {
            return None;
        }
        if row.row.mark {
            return Some(row.place.key);
        }
    }
    None
}

impl ListStore {
    /// A store of the initial rows, with space for so many further ones. The application is accepted, the initial rows
    /// fit its tables, and no two stand at one place.
    pub fn start(
        alloc: Global,
        app: &App,
        init: &[InitRow],
        room: u32,
    ) -> Result<ListStore, NoMemory>
        requires accepted { AcceptedSchema (schema_of app.now.tables.items) }
        requires fits { All (InitFits (schema_of app.now.tables.items)) init.now }
        requires distinct { AreDistinct init.now }
        requires few { length init.now + room < 2 ^ 32 }
        ensures tables { IfOk result (λ store. store.tables ≡ tables_held (schema_of app.now.tables.items) init.now empty) }
        ensures room { IfOk result (λ store. store.room ≡ room) }
        ensures of_app { IfOk result (λ store. TablesAreOf (schema_of app.now.tables.items) store.tables) }
    {
        let mut store = ListStore {
            kept: Vec::with_capacity(alloc, init.len() + room as usize)?,
        };
        for row in init {
            store.put(init_row(&app.tables[row.table as usize], row));
        }
        Ok(store)
    }

    /// The row at the place, if one is kept.
    pub fn get(&self, place: &Place) -> Option<&KeptRow>
        ensures value { option_map (λ kept. row_of kept.now.row) result ≡ map_of.get self.now.tables place.now }
        ensures there { IfSome result (λ kept. kept.now.place ≡ place.now) }
    {
        match search(&self.kept, place) {
            Ok(at) => Some(&self.kept[at]),
            Err(_) => None,
        }
    }

    /// What is told of the row of that key.
    pub(crate) fn seen(&self, table: u16, key: &Key) -> Seen
        ensures value { seen_of result ≡ seen_at (bare self.now.tables) (place_at table key.now) }
        ensures fits { (schema : List Declaration) → TablesAreOf schema self.now.tables → SeenFits schema (place_at table key.now) (seen_of result) }
    {
        match self.get(&Place { table, key: *key }) {
            Some(kept) => kept.row.seen(),
            None => Seen::unkept(),
        }
    }

    /// The least key after that one, or of all, whose row is present.
    #[tactic(auto, using(crate::proofs::NextLaws::next_found))]
    pub(crate) fn key_after(&self, table: u16, after: Option<&Key>) -> Option<Key>
        ensures { IsNextKey (bare self.now.tables) table (key_behind after.entry) result }
    {
        let start = rest_start(&self.kept, table, after);
        first_present(&self.kept[start..], table)
    }

    /// All rows, in the order of their places.
    pub fn kept(&self) -> &[KeptRow]
        ensures { map entry_of result.now ≡ map_of.entries self.now.tables }
    {
        &self.kept
    }

    /// How many further rows fit.
    pub fn room(&self) -> u32
        ensures { result ≡ self.now.room }
    {
        (self.kept.capacity() - self.kept.len()) as u32
    }

    /// Keeps a row, in place of the one that stood at its place.
    fn put(&mut self, row: KeptRow)
        requires { HasRoom (map_of.get self.old.tables row.place) self.old.room }
        ensures { self.new ≡ with_row self.old row.place (row_of row.row) }
    {
        match search(&self.kept, &row.place) {
            Ok(at) => self.kept[at] = row,
            Err(at) => match self.kept.insert(at, row) {
                Ok(()) => {}
                Err(_) => unreachable!(),
            },
        }
    }

    /// Makes one change, of the row that is kept at its place or of the zero row.
    fn change(&mut self, table: &Table, effect: &RowEffect, stamp: Stamp)
        requires few { length (declaration_of table.now).columns ≤ 16 }
        requires change { ChangeFits (declaration_of table.now) effect.now }
        requires row { CellsFit (declaration_of table.now).columns (standing (declaration_of table.now) effect.now self.old.tables).cells }
        requires counts { CountsFit (left_by (declaration_of table.now) stamp effect.now self.old.tables).cells }
        requires room { HasRoom (map_of.get self.old.tables (place_of effect.now)) self.old.room }
        ensures made { self.new ≡ with_row self.old (place_of effect.now) (left_by (declaration_of table.now) stamp effect.now self.old.tables) }
        ensures room { self.new.room + how_many self.new.tables ≡ self.old.room + how_many self.old.tables }
    {
        let place = Place {
            table: effect.table,
            key: effect.key,
        };
        match search(&self.kept, &place) {
            Ok(at) => apply_row(&mut self.kept[at].row, table, effect, stamp),
            Err(at) => {
                let row = new_row(table, effect, stamp);
                match self.kept.insert(at, KeptRow { place, row }) {
                    Ok(()) => {}
                    Err(_) => unreachable!(),
                }
            }
        }
    }

    /// Makes the changes of an operation, in order, and takes no memory. The rows and the operation are of the
    /// application, each row that is updated or removed is kept or was inserted by an earlier change of the operation,
    /// each count that a change leaves lies between -2^100 and 2^100, and there is room for the inserts.
    /// The room falls by the number of rows that came to be kept, and the rows are still of the application.
    pub fn apply(&mut self, app: &App, op: &Op)
        requires rows { TablesAreOf (schema_of app.now.tables.items) self.old.tables }
        requires fits { OpFits (schema_of app.now.tables.items) op.now }
        requires found { FindsRows (schema_of app.now.tables.items) (changes_of op.now) self.old.tables }
        requires counts { KeepsBounds (schema_of app.now.tables.items) (changes_of op.now) self.old.tables }
        requires room { inserts op.now.effects ≤ self.old.room }
        ensures tables { self.new.tables ≡ applied (schema_of app.now.tables.items) op.now self.old.tables }
        ensures room { self.new.room + how_many self.new.tables ≡ self.old.room + how_many self.old.tables }
        ensures spent { self.old.room ≤ self.new.room + inserts op.now.effects }
        ensures of_app { TablesAreOf (schema_of app.now.tables.items) self.new.tables }
    {
        for (place, effect) in op.effects.items().iter().enumerate() {
            let stamp = Stamp {
                time: op.time,
                site: op.site.number(),
                place: place as u16,
            };
            self.change(&app.tables[effect.table as usize], effect, stamp);
        }
    }
}
