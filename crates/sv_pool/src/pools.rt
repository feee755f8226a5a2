ghost use Rattle.std.specs.Prelude.{◌≡◌, ◌≤◌, ◌<◌, ◌+◌, ◌^◌, ◌++◌, ◌∷◌, [], List, Some, drop, length, slice_get, All, IfOk, IfErr, IfSome};
ghost use Rattle.std.specs.List.{insert};
ghost use Rattle.std.specs.Option.{option_map};
ghost use Rattle.std.specs.Vec.{vec_capacity};
ghost use Rattle.std.specs.FinMap as map_of;
ghost use Rattle.sv_app.specs.Accepted.{AcceptedSchema};
ghost use Rattle.sv_app.specs.Schema.{Declaration, declaration_of, schema_of};
ghost use Rattle.sv_effect.specs.StampedTables.{row_of};
ghost use Rattle.sv_effect.specs.Applied.{place_of, changes_of, applied};
ghost use Rattle.sv_effect.specs.Fits.{CellsFit, ChangeFits, CountsFit, OpFits};
ghost use Rattle.sv_effect.specs.Reads.{seen_of};
ghost use Rattle.sv_effect.specs.Agrees.{key_behind, place_at, seen_at, IsNextKey};
ghost use Rattle.sv_effect.specs.BareTables.{bare, how_many};
ghost use Rattle.sv_effect.specs.RowsFit.{SeenFits, TablesAreOf};
ghost use Rattle.sv_effect.specs.Takes.{KeepsBounds, FindsRows, inserts};
ghost use Rattle.sv_effect.specs.Cut.{empty};
ghost use Rattle.sv_effect.specs.TablesOfCut.{tables_held};
ghost use Rattle.sv_store.specs.Initial.{InitFits, AreDistinct};
ghost use Rattle.sv_store.specs.Stored.{entry_of, AreRising, IsGapFor, HasRoom, with_row};
ghost use Rattle.sv_store.specs.Rest.{IsStart, is_behind, first_present};
ghost use Rattle.sv_store.specs.Standing.{standing, left_by};
ghost use Rattle.sv_pool.specs.Pooled.{AreGiven, kept_in, IsSlotOf};

use crate::regions::{Region, Slot};
use std::alloc::Global;
use std::cmp::Ordering;
use std::marker::Model;
use sv_app::{App, InitRow, Place, Table};
use sv_effect::{Op, RowEffect, Seen, apply_row};
use sv_store::{KeptRow, init_row, new_row};
use sv_value::{Key, NoMemory, Stamp};

/// A site's rows in one region, where each stays where it was placed, and their slots in the order of their places.
/// All space is taken at the start. Contracts see them as stamped tables, and see how many further rows fit.
#[derive(Debug, Drop)]
pub struct PoolStore {
    rows: Region<KeptRow>,
    index: Vec<Slot>,
}

impl Model for PoolStore {
    ghost use Rattle.std.specs.Vec.{vec_capacity};
    ghost use Rattle.sv_store.specs.Stored.{Stored, coded_stored};
    ghost use Rattle.sv_pool.specs.Pooled.{pooled, Holds};

    ghost Value = { Stored };

    ghost coded = { coded_stored };

    ghost view = { λ store. pooled store.index.items store.rows };

    ghost invariant = { λ store. Holds store.index.items store.rows (vec_capacity store.index) };
}

/// The row at a slot of the index.
fn row_at<'a>(index: &[Slot], rows: &'a Region<KeptRow>, at: usize) -> &'a KeptRow
    requires given { AreGiven index.now rows.now.values }
    requires within { at < length index.now }
    ensures { slice_get (kept_in index.now rows.now.values) at ≡ Some result.now }
{
    rows.at(index[at])
}

/// The slot of the row at the place, or else where it would go in the index.
fn search(index: &[Slot], rows: &Region<KeptRow>, place: &Place) -> Result<Slot, usize>
    requires given { AreGiven index.now rows.now.values }
    requires rising { AreRising (kept_in index.now rows.now.values) }
    ensures found { IfOk result (IsSlotOf index.now rows.now.values place.now) }
    ensures absent { IfErr result (IsGapFor (kept_in index.now rows.now.values) place.now) }
{
    let mut low = 0;
    let mut high = index.len();
    while low < high {
        let middle = low + (high - low) / 2;
        let slot = index[middle];
        match rows.at(slot).place.cmp(place) {
            Ordering::Less => low = middle + 1,
            Ordering::Equal => return Ok(slot),
            Ordering::Greater => high = middle,
        }
    }
    Err(low)
}

/// Whether the place is one of the table behind the key, or of a later table.
fn is_behind(place: &Place, table: u16, after: Option<&Key>) -> bool
    ensures { result ≡ is_behind table (key_behind after.entry) place.now }
{
    if place.table != table {
        return place.table > table;
    }
    match after {
        Some(key) => key.cmp(&place.key).is_lt(),
        None => true,
    }
}

/// Where the rows of a table behind a key begin in the index, or all of them.
fn rest_start(index: &[Slot], rows: &Region<KeptRow>, table: u16, after: Option<&Key>) -> usize
    requires given { AreGiven index.now rows.now.values }
    requires rising { AreRising (kept_in index.now rows.now.values) }
    ensures { IsStart (kept_in index.now rows.now.values) table (key_behind after.entry) result }
{
    let mut low = 0;
    let mut high = index.len();
    while low < high {
        let middle = low + (high - low) / 2;
        if is_behind(&row_at(index, rows, middle).place, table, after) {
            high = middle;
        } else {
            low = middle + 1;
        }
    }
    low
}

/// The key of the first row from that number on that is present, before any of another table.
fn first_present(index: &[Slot], rows: &Region<KeptRow>, table: u16, start: usize) -> Option<Key>
    requires { AreGiven index.now rows.now.values }
    ensures { result ≡ first_present table (drop start (kept_in index.now rows.now.values)) }
{
    for at in start..index.len() {
        let kept = row_at(index, rows, at);
        if kept.place.table != table {
            return None;
        }
        if kept.row.mark {
            return Some(kept.place.key);
        }
    }
    None
}

/// Places a row, and puts its slot into the index at that number. There is space for both.
fn keep(index: &mut Vec<Slot>, rows: &mut Region<KeptRow>, at: usize, row: KeptRow)
    requires within { at ≤ length index.old.items }
    requires space { length index.old.items < vec_capacity index.old }
    requires spare { 1 ≤ rows.old.spare }
    ensures index { index.new.items ≡ insert index.old.items at (record { number = length rows.old.values }) }
    ensures capacity { vec_capacity index.new ≡ vec_capacity index.old }
    ensures values { rows.new.values ≡ rows.old.values ++ row ∷ [] }
    ensures spare { rows.new.spare + 1 ≡ rows.old.spare }
{
    let slot = rows.place(row);
    match index.insert(at, slot) {
        Ok(()) => {}
        Err(_) => unreachable!(),
    }
}

impl PoolStore {
    /// A store of the initial rows, with space for so many further ones. The application is accepted, the initial rows
    /// fit its tables, and no two stand at one place.
    pub fn start(
        alloc: Global,
        app: &App,
        init: &[InitRow],
        room: u32,
    ) -> Result<PoolStore, NoMemory>
        requires accepted { AcceptedSchema (schema_of app.now.tables.items) }
        requires fits { All (InitFits (schema_of app.now.tables.items)) init.now }
        requires distinct { AreDistinct init.now }
        requires few { length init.now + room < 2 ^ 32 }
        ensures tables { IfOk result (λ store. store.tables ≡ tables_held (schema_of app.now.tables.items) init.now empty) }
        ensures room { IfOk result (λ store. store.room ≡ room) }
        ensures of_app { IfOk result (λ store. TablesAreOf (schema_of app.now.tables.items) store.tables) }
    {
        let space = init.len() as u32 + room;
        let mut store = PoolStore {
            rows: Region::reserve(alloc, space)?,
            index: Vec::with_capacity(alloc, space as usize)?,
        };
        for row in init {
            store.put(init_row(&app.tables[row.table as usize], row));
        }
        Ok(store)
    }

    /// The row at the place, if one is kept.
    pub fn get(&self, place: &Place) -> Option<&KeptRow>
        ensures value { option_map (λ kept. row_of kept.now.row) result ≡ map_of.get self.now.tables place.now }
        ensures there { IfSome result (λ kept. kept.now.place ≡ place.now) }
    {
        match search(&self.index, &self.rows, place) {
            Ok(slot) => Some(self.rows.at(slot)),
            Err(_) => None,
        }
    }

    /// What is told of the row of that key.
    pub(crate) fn seen(&self, table: u16, key: &Key) -> Seen
        ensures value { seen_of result ≡ seen_at (bare self.now.tables) (place_at table key.now) }
        ensures fits { (schema : List Declaration) → TablesAreOf schema self.now.tables → SeenFits schema (place_at table key.now) (seen_of result) }
    {
        match self.get(&Place { table, key: *key }) {
            Some(kept) => kept.row.seen(),
            None => Seen::unkept(),
        }
    }

    /// The least key after that one, or of all, whose row is present.
    pub(crate) fn key_after(&self, table: u16, after: Option<&Key>) -> Option<Key>
        ensures { IsNextKey (bare self.now.tables) table (key_behind after.entry) result }
    {
        let start = rest_start(&self.index, &self.rows, table, after);
        first_present(&self.index, &self.rows, table, start)
    }

    /// How many rows are kept.
    pub fn len(&self) -> usize
        ensures { result ≡ how_many self.now.tables }
    {
        self.index.len()
    }

    /// The row at that number in the order of places, from 0 on. There are more rows than that.
    pub fn entry(&self, at: usize) -> &KeptRow
        requires { at < how_many self.now.tables }
        ensures { slice_get (map_of.entries self.now.tables) at ≡ Some (entry_of result.now) }
    {
        row_at(&self.index, &self.rows, at)
    }

    /// How many further rows fit.
    pub fn room(&self) -> u32
        ensures { result ≡ self.now.room }
    {
        self.rows.spare()
    }

    /// Keeps a row, in place of the one that stood at its place.
    fn put(&mut self, row: KeptRow)
        requires { HasRoom (map_of.get self.old.tables row.place) self.old.room }
        ensures { self.new ≡ with_row self.old row.place (row_of row.row) }
    {
        match search(&self.index, &self.rows, &row.place) {
            Ok(slot) => *self.rows.at_mut(slot) = row,
            Err(at) => keep(&mut self.index, &mut self.rows, at, row),
        }
    }

    /// Makes one change, of the row that is kept at its place or of the zero row.
    fn change(&mut self, table: &Table, effect: &RowEffect, stamp: Stamp)
        requires few { length (declaration_of table.now).columns ≤ 16 }
        requires change { ChangeFits (declaration_of table.now) effect.now }
        requires row { CellsFit (declaration_of table.now).columns (standing (declaration_of table.now) effect.now self.old.tables).cells }
        requires counts { CountsFit (left_by (declaration_of table.now) stamp effect.now self.old.tables).cells }
        requires room { HasRoom (map_of.get self.old.tables (place_of effect.now)) self.old.room }
        ensures made { self.new ≡ with_row self.old (place_of effect.now) (left_by (declaration_of table.now) stamp effect.now self.old.tables) }
        ensures room { self.new.room + how_many self.new.tables ≡ self.old.room + how_many self.old.tables }
    {
        let place = Place {
            table: effect.table,
            key: effect.key,
        };
        match search(&self.index, &self.rows, &place) {
            Ok(slot) => apply_row(&mut self.rows.at_mut(slot).row, table, effect, stamp),
            Err(at) => {
                let row = new_row(table, effect, stamp);
                keep(&mut self.index, &mut self.rows, at, KeptRow { place, row });
            }
        }
    }

    /// Makes the changes of an operation, in order, and takes no memory. The rows and the operation are of the
    /// application, each row that is updated or removed is kept or was inserted by an earlier change of the operation,
    /// each count that a change leaves lies between -2^100 and 2^100, and there is room for the inserts.
    /// The room falls by the number of rows that came to be kept, and the rows are still of the application.
    pub fn apply(&mut self, app: &App, op: &Op)
        requires rows { TablesAreOf (schema_of app.now.tables.items) self.old.tables }
        requires fits { OpFits (schema_of app.now.tables.items) op.now }
        requires found { FindsRows (schema_of app.now.tables.items) (changes_of op.now) self.old.tables }
        requires counts { KeepsBounds (schema_of app.now.tables.items) (changes_of op.now) self.old.tables }
        requires room { inserts op.now.effects ≤ self.old.room }
        ensures tables { self.new.tables ≡ applied (schema_of app.now.tables.items) op.now self.old.tables }
        ensures room { self.new.room + how_many self.new.tables ≡ self.old.room + how_many self.old.tables }
        ensures spent { self.old.room ≤ self.new.room + inserts op.now.effects }
        ensures of_app { TablesAreOf (schema_of app.now.tables.items) self.new.tables }
    {
        for (place, effect) in op.effects.items().iter().enumerate() {
            let stamp = Stamp {
                time: op.time,
                site: op.site.number(),
                place: place as u16,
            };
            self.change(&app.tables[effect.table as usize], effect, stamp);
        }
    }
}
