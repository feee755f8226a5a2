//! Rows by the query: a source of the rows of a cut.

ghost use Rattle.std.specs.Prelude.{◌≡◌, ◌==◌, ◌&&◌, ◌++◌, ◌∷◌, [], refl, true, List, map, None, Some, IfOk, OnOk};
ghost use Rattle.std.proofs.Common.{◌∙◌, sym, subst};
ghost use Rattle.std.specs.List.{list_any};
ghost use Rattle.sv_value.specs.Cuts.{counts};
ghost use Rattle.sv_app.specs.Schema.{Declaration, schema_of};
ghost use Rattle.sv_effect.specs.Agrees.{key_behind, place_at, seen_at, is_after, IsNextKey};
ghost use Rattle.sv_effect.specs.Applied.{place_of};
ghost use Rattle.sv_effect.specs.BareTables.{bare};
ghost use Rattle.sv_effect.specs.Cut.{held};
ghost use Rattle.sv_effect.specs.Reads.{seen_of};
ghost use Rattle.sv_effect.specs.Fits.{CountsFit};
ghost use Rattle.sv_effect.specs.RowsFit.{SeenFits};
ghost use Rattle.sv_plain.specs.Stand.{TablesStand};
ghost use Rattle.sv_effect.specs.StampedTables.{row_of};
ghost use Rattle.sv_effect.specs.TablesOfCut.{all_to, init_place, is_place, named_by, row_at};
ghost use Rattle.sv_plain.specs.Held.{medium_of};
ghost use Rattle.sv_plain.specs.Rest.{rest_of};
ghost use Rattle.sv_plain.specs.Chosen.{is_before, chosen};
ghost use Rattle.sv_plain.specs.Behind.{held_by, places_of, tables_behind};

use crate::changes::held;
use crate::sources::PlainRows;
use crate::tables::{init_place, row_at};
use std::alloc::Global;
use sv_app::{InitRow, Place};
use sv_effect::{Halt, Op, Row, RowEffect, Rows, Seen, is_place};
use sv_value::{Cut, Key, NoMemory, Val};

fn put_place(places: &mut Vec<Place>, table: u16, key: &Key) -> Result<(), NoMemory>
    ensures { OnOk result (places.new.items ≡ places.old.items ++ place_at table key.now ∷ []) }
{
    let first: Val = key.first;
    let second: Option<Val> = key.second;
    places.push(Place {
        table,
        key: Key { first, second },
    })?;
    Ok(())
}

/// Appends where initial rows stand.
fn put_init(places: &mut Vec<Place>, init: &[InitRow]) -> Result<(), NoMemory>
    ensures { OnOk result (places.new.items ≡ places.old.items ++ map init_place init.now) }
{
    for row in init {
        put_place(places, row.table, &row.key)?;
    }
    Ok(())
}

/// Appends the places that changes name.
fn put_places_of(places: &mut Vec<Place>, effects: &[RowEffect]) -> Result<(), NoMemory>
    ensures { OnOk result (places.new.items ≡ places.old.items ++ map place_of effects.now) }
{
    for effect in effects {
        put_place(places, effect.table, &effect.key)?;
    }
    Ok(())
}

/// Appends the places that the operations' changes name.
fn put_named(places: &mut Vec<Place>, ops: &[Op]) -> Result<(), NoMemory>
    ensures { OnOk result (places.new.items ≡ places.old.items ++ named_by ops.now) }
{
    for op in ops {
        put_places_of(places, op.effects.items())?;
    }
    Ok(())
}

/// The places at which rows are kept: those of the initial rows, and those that held changes name.
fn places_of(
    alloc: Global,
    init: &[InitRow],
    published: &[Vec<Op>],
    cut: &Cut,
) -> Result<Vec<Place>, NoMemory>
    ensures { IfOk result (λ places. places.items ≡ map init_place init.now ++ all_to (λ o. named_by (held
        (medium_of (map (λ ops. ops.items) published.now)) (counts cut.now) o)) 9) }
{
    let mut places = Vec::new(alloc);
    put_init(&mut places, init)?;
    put_named(&mut places, held(published, 0, cut.reds))?;
    for site in 0..8usize {
        put_named(&mut places, held(published, site + 1, cut.blue[site]))?;
    }
    Ok(places)
}

/// Whether the place is one of these.
fn is_among(place: &Place, places: &[Place]) -> bool
    ensures { result ≡ list_any (is_place place.now) places.now }
{
    places.iter().any(|other| is_place(place, other))
}

/// The key that is asked after, held here.
fn key_behind(after: Option<&Key>) -> Option<Key>
    ensures { result ≡ key_behind after.entry }
{
    match after {
        Some(key) => Some(*key),
        None => None,
    }
}

fn is_after(after: &Option<Key>, key: &Key) -> bool
    ensures { result ≡ is_after after.now key.now }
{
    match after {
        Some(after) => after.cmp(key).is_lt(),
        None => true,
    }
}

fn is_before(key: &Key, best: &Option<Key>) -> bool
    ensures { result ≡ is_before key.now best.now }
{
    match best {
        Some(best) => key.cmp(best).is_lt(),
        None => true,
    }
}

/// The least key so far, with one more key looked at.
fn chosen(counts: bool, after: &Option<Key>, key: &Key, best: &Option<Key>) -> Option<Key>
    ensures { result ≡ chosen counts after.now key.now best.now }
{
    if counts && is_after(after, key) && is_before(key, best) {
        Some(*key)
    } else {
        *best
    }
}

impl PlainRows<'_> {
    fn places(&self) -> Result<Vec<Place>, NoMemory>
        ensures { IfOk result (λ places. places.items ≡ places_of self.now) }
    {
        places_of(self.alloc, self.init, self.published, self.cut)
    }

    /// The row at a place.
    fn row_of(&self, place: &Place) -> Result<Row, NoMemory>
        ensures value { IfOk result (λ row. row_of row ≡ row_at (schema_of self.now.app.now.tables.items)
            self.now.init.now (held_by self.now) place.now) }
        ensures narrow { IfOk result (λ row. CountsFit row.cells.items) }
    {
        row_at(
            self.alloc,
            self.app,
            self.init,
            self.published,
            self.cut,
            place,
        )
    }

    /// Whether the row at a place of the table is present.
    fn counts(&self, table: u16, place: &Place) -> Result<bool, NoMemory>
        ensures { IfOk result (λ yes. yes ≡ (table == place.now.table && (row_at (schema_of
            self.now.app.now.tables.items) self.now.init.now (held_by self.now) place.now).mark.value)) }
    {
        if table != place.table {
            return Ok(false);
        }
        let row = self.row_of(place)?;
        Ok(row.mark)
    }

    /// What is told of the row of that key.
    #[tactic(auto, using(crate::proofs::RowsLaws::tell_none))]
    fn seen(&self, table: u16, key: &Key) -> Result<Seen, NoMemory>
        ensures value { IfOk result (λ seen. seen_at (bare (tables_behind self.now)) (place_at table key.now) ≡
            seen_of seen) }
        ensures fits { IfOk result (λ seen. (schema : List Declaration) → TablesStand schema (tables_behind
            self.now) → SeenFits schema (place_at table key.now) (seen_of seen)) }
    {
        let places = self.places()?;
        let place = Place { table, key: *key };
        if is_among(&place, &places) {
            let row = self.row_of(&place)?;
            Ok(row.seen())
        } else {
            Ok(Seen::unkept())
        }
    }

    /// The least key after that one, or of all, whose row is present.
    fn key_after(&self, table: u16, after: &Option<Key>) -> Result<Option<Key>, NoMemory>
        ensures { IfOk result (λ next. IsNextKey (bare (tables_behind self.now)) table after.now next) }
    {
        let places = self.places()?;
        let mut best: Option<Key> = None;
        for place in &places {
            let counts = self.counts(table, place)?;
            best = chosen(counts, after, &place.key, &best);
        }
        Ok(best)
    }
}

impl Rows for PlainRows<'_> {
    ghost is_of = { λ rows schema. TablesStand schema (tables_behind rows) };

    ghost face = { λ rows. record {
      tables = Some (bare (tables_behind rows));
      knows = λ ask. true;
      rest = rest_of
          (tables_behind rows);
    } };

    ghost stays = { λ a b. b ≡ a };

    ghost stays_laws = { record {
      none = λ a. refl;
      both = λ a b c p q. q ∙ p;
      same_face = λ a b p i. record {
        tables = Some (bare (tables_behind (p i)));
        knows = λ ask. true;
        rest =
            rest_of (tables_behind (p i));
      };
      same_app = λ a b schema p of. subst (λ rows. TablesStand schema (tables_behind rows)) (sym p) of;
    } };

    ghost noted = { λ rows. None };

    ghost takes_memory = { λ rows. true };

    fn row(&mut self, table: u16, key: &Key) -> Result<Seen, Halt> {
        let seen = self.seen(table, key)?;
        Ok(seen)
    }

    #[tactic(auto, using(crate::proofs::RestLaws::next_fits, crate::proofs::RestLaws::next_rises, crate::proofs::RestLaws::next_falls))]
    fn next(&mut self, table: u16, after: Option<&Key>) -> Result<Option<Key>, Halt> {
        let after = key_behind(after);
        let next = self.key_after(table, &after)?;
        Ok(next)
    }
}
