//! Answers that were fetched from a site's rows, as a source of rows that knows nothing else.

ghost use Rattle.std.specs.Prelude.{◌≡◌, ◌+◌, ◌≤◌, [], false, None, refl, IfOk, IfSome, IfNone, OnOk, OnErr, MatchOption, length, map};
ghost use Rattle.std.proofs.Common.{◌∙◌, ap, sym};
ghost use Rattle.std.specs.Option.{option_cmp};
ghost use Rattle.std.specs.Ordering.{eq_by_cmp};
ghost use Rattle.sv_value.specs.Orders.{key_cmp};
ghost use Rattle.sv_app.specs.Schema.{schema_of};
ghost use Rattle.sv_effect.specs.Agrees.{key_behind};
ghost use Rattle.sv_effect.specs.Reads.{IsKey, IsRow, answer_of, read_of, seen_of};
ghost use Rattle.sv_core.specs.Sheets.{AnswerFits, AreOthers, IsAnswered, Knows, is_ask, is_known, rest_in, with_read};
ghost use Rattle.sv_effect.specs.declared.reads.Ask.TheVariants as ask;

use crate::docs::Doc;
use arrayvec::ArrayVec;
use std::alloc::Global;
use std::marker::Model;
use std::sync::Arc;
use sv_app::Place;
use sv_effect::{Ask, Halt, Read, Rows, Seen, Told, is_place};
use sv_value::{Key, NoMemory};

/// The answers that were fetched for a run, with places for more. A run that asks for what isn't known is answered
/// `Missing`. Contracts see the document, what is known in the order in which it was fetched, and how many places are
/// left.
#[derive(Drop)]
pub struct Sheet {
    doc: Arc<Doc>,
    reads: Vec<Read>,
    room: u32,
    /// Where the answer to the next ask is likely to stand: a run that begins anew asks again in the same order.
    next: usize,
}

impl Model for Sheet {
    ghost use Rattle.std.specs.Prelude.{◌≤◌, ◌+◌, length, map};
    ghost use Rattle.std.specs.Vec.{vec_capacity};
    ghost use Rattle.std.specs.Coded.{codes};
    ghost use Rattle.sv_app.specs.Schema.{schema_of};
    ghost use Rattle.sv_effect.specs.Reads.{read_of};
    ghost use Rattle.sv_core.specs.Sheets.{ReadsFit, SheetView};
    ghost use Rattle.sv_core.specs.contracts.docs.Doc as docs;

    ghost Value = { SheetView };

    ghost coded = { Prim.hlevel (codes, docs.the_row.coded) };

    ghost view = { λ sheet. record { doc = sheet.doc.value; known = map read_of sheet.reads.items; room = sheet.room } };

    ghost invariant = { λ sheet. ReadsFit (schema_of sheet.doc.value.app.tables.items) (map read_of sheet.reads.items) × (length sheet.reads.items + sheet.room ≤ vec_capacity sheet.reads) × (sheet.next ≤ length sheet.reads.items) };
}

/// Whether the keys are the same, or both none.
fn is_key(one: &Option<Key>, other: &Option<Key>) -> bool
    ensures { result ≡ eq_by_cmp (option_cmp key_cmp) one.now other.now }
{
    one.cmp(other).is_eq()
}

/// Whether they ask for the same.
fn is_ask(one: &Ask, other: &Ask) -> bool
    ensures { result ≡ is_ask one.now other.now }
{
    match (one, other) {
        (
            Ask::Row { table, key },
            Ask::Row {
                table: other,
                key: asked,
            },
        ) => is_place(
            &Place {
                table: *table,
                key: *key,
            },
            &Place {
                table: *other,
                key: *asked,
            },
        ),
        (
            Ask::Next { table, after },
            Ask::Next {
                table: other,
                after: asked,
            },
        ) => { table == other && is_key(after, asked) }
        (Ask::Row { .. }, Ask::Next { .. }) | (Ask::Next { .. }, Ask::Row { .. }) => false,
    }
}

/// The place of the answer to the ask, from a place on and before another; `None` where there is none.
fn find(reads: &[Read], from: usize, to: usize, ask: &Ask) -> Option<usize>
    requires { to ≤ length reads.now }
    ensures { MatchOption result (AreOthers reads.now ask.now from to) (λ place. IsAnswered reads.now ask.now place) }
{
    for place in from..to {
        if is_ask(ask, &reads[place].ask) {
            return Some(place);
        }
    }
    None
}

/// The place of the answer to the ask; `None` where it isn't known. It is looked for from a place on, and then before it.
fn place_of(reads: &[Read], next: usize, ask: &Ask) -> Option<usize>
    requires { next ≤ length reads.now }
    ensures { MatchOption result (is_known (map read_of reads.now) ask.now ≡ false) (λ place. IsAnswered reads.now ask.now place) }
{
    match find(reads, next, reads.len(), ask) {
        Some(place) => Some(place),
        None => find(reads, 0, next, ask),
    }
}

/// A copy of what is told of a row.
fn copied(seen: &Seen) -> Seen
    ensures { seen_of result ≡ seen_of seen.now }
{
    let mut values = ArrayVec::new();
    for got in seen.values.as_slice() {
        values.push(*got);
    }
    Seen {
        kept: seen.kept,
        present: seen.present,
        values,
    }
}

impl Sheet {
    /// A sheet with so many places, which knows nothing.
    ///
    /// # Errors
    ///
    /// `NoMemory` where there is none for the places.
    pub fn new(alloc: Global, doc: Arc<Doc>, room: u32) -> Result<Sheet, NoMemory>
        ensures { IfOk result (λ sheet. sheet ≡ record { doc = doc.value; known = []; room = room }) }
    {
        Ok(Sheet {
            doc,
            reads: Vec::with_capacity(alloc, room as usize)?,
            room,
            next: 0,
        })
    }

    /// How many further answers there is a place for.
    pub fn room(&self) -> u32
        ensures { result ≡ self.now.room }
    {
        self.room
    }

    /// Makes so many further places; without memory the sheet stands as before.
    pub fn grow(&mut self, more: u32) -> Result<(), NoMemory>
        requires { self.old.room + more ≤ 4294967295 }
        ensures ok { OnOk result (self.new ≡ record { doc = self.old.doc; known = self.old.known; room = self.old.room + more }) }
        ensures err { OnErr result (self.new ≡ self.old) }
    {
        let room = self.room + more;
        self.reads.reserve(room as usize)?;
        self.room = room;
        Ok(())
    }

    /// What is known of the row; `None` where nothing is.
    fn known_row(&mut self, table: u16, key: &Key) -> Option<Seen>
        ensures same { self.new ≡ self.old }
        ensures some { IfSome result (λ seen. Knows self.old (ask.Row table key.now) (IsRow (seen_of seen))) }
        ensures none { IfNone result (is_known self.old.known (ask.Row table key.now) ≡ false) }
    {
        let ask = Ask::Row { table, key: *key };
        let place = place_of(self.reads.as_slice(), self.next, &ask)?;
        self.next = place + 1;
        match &self.reads[place].told {
            Told::Row(seen) => Some(copied(seen)),
            Told::Next(_) => unreachable!(),
        }
    }

    /// What is known to follow the key; `None` where nothing is.
    fn known_next(&mut self, table: u16, after: Option<&Key>) -> Option<Option<Key>>
        ensures same { self.new ≡ self.old }
        ensures some { IfSome result (λ next. Knows self.old (ask.Next table (key_behind after.entry)) (IsKey next)) }
        ensures none { IfNone result (is_known self.old.known (ask.Next table (key_behind after.entry)) ≡ false) }
    {
        let ask = next_ask(table, after);
        let place = place_of(self.reads.as_slice(), self.next, &ask)?;
        self.next = place + 1;
        match &self.reads[place].told {
            Told::Next(next) => Some(*next),
            Told::Row(_) => unreachable!(),
        }
    }

    /// Whether the answer to the ask is known.
    pub fn is_known(&self, ask: &Ask) -> bool
        ensures { result ≡ is_known self.now.known ask.now }
    {
        match place_of(self.reads.as_slice(), self.next, ask) {
            Some(_) => true,
            None => false,
        }
    }

    /// Adds an answer.
    pub(crate) fn add(&mut self, ask: &Ask, told: Told)
        requires room { 1 ≤ self.old.room }
        requires fits { AnswerFits (schema_of self.old.doc.app.tables.items) ask.now (answer_of told) }
        ensures { self.new ≡ with_read self.old (record { ask = ask.now; answer = answer_of told }) }
    {
        self.reads.push_reserved(Read { ask: *ask, told });
        self.room -= 1;
    }
}

fn next_ask(table: u16, after: Option<&Key>) -> Ask
    ensures { result ≡ ask.Next table (key_behind after.entry) }
{
    Ask::Next {
        table,
        after: after.copied(),
    }
}

impl Rows for Sheet {
    ghost is_of = { λ sheet schema. schema ≡ schema_of sheet.doc.app.tables.items };

    ghost face = { λ sheet. record { tables = None; knows = is_known sheet.known; rest = rest_in sheet.known } };

    ghost stays = { λ a b. b ≡ a };

    ghost stays_laws = { record {
      none = λ a. refl;
      both = λ a b c p q. q ∙ p;
      same_face = λ a b p i. record { tables = None; knows = is_known (p i).known; rest = rest_in (p i).known };
      same_app = λ a b schema p of. of ∙ sym (ap (λ sheet. schema_of sheet.doc.app.tables.items) p);
    } };

    ghost noted = { λ sheet. None };

    ghost takes_memory = { λ sheet. false };

    #[tactic(auto, using(crate::proofs::SheetLaws::known_is, crate::proofs::SheetLaws::row_fits))]
    fn row(&mut self, table: u16, key: &Key) -> Result<Seen, Halt> {
        match self.known_row(table, key) {
            Some(seen) => Ok(seen),
            None => Err(Halt::Missing(Ask::Row { table, key: *key })),
        }
    }

    #[tactic(auto, using(crate::proofs::SheetLaws::known_is, crate::proofs::SheetLaws::known_falls, crate::proofs::SheetLaws::key_fits, crate::proofs::SheetLaws::key_rises))]
    fn next(&mut self, table: u16, after: Option<&Key>) -> Result<Option<Key>, Halt> {
        match self.known_next(table, after) {
            Some(next) => Ok(next),
            None => Err(Halt::Missing(next_ask(table, after))),
        }
    }
}
