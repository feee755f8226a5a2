ghost use Rattle.std.specs.Prelude.{refl, ◌≡◌, ◌<◌, ◌^◌, ◌++◌, ◌∷◌, [], Some, map, true, length, vec_len, OnOk, OnErr, IfOk, IfErr};
ghost use Rattle.std.proofs.Common.{◌∙◌};
ghost use Rattle.sv_effect.specs.declared.reads.Ask.TheVariants as ask;
ghost use Rattle.sv_effect.specs.declared.reads.Halt.TheVariants as halt;
ghost use Rattle.sv_effect.specs.declared.reads.Told.TheVariants as told;
ghost use Rattle.sv_effect.specs.Reads.{seen_of, answer_of, read_of};
ghost use Rattle.sv_effect.specs.Agrees.{key_behind};

use crate::reads::{Ask, Halt, Read, Seen, Told};
use crate::rows::Rows;
use std::alloc::Global;
use sv_value::Key;

/// The most reads that are noted.
const MOST_READS: usize = 4_294_967_295;

/// What was told so far, in order: fewer than 2^32 reads.
#[derive(Drop)]
pub struct Reads {
    list: Vec<Read>,
    ghost few: { vec_len list < 2 ^ 32 },
}

impl Reads {
    fn new(alloc: Global) -> Reads
        ensures { result.list.items ≡ [] }
    {
        Reads {
            list: Vec::new(alloc),
        }
    }

    /// Notes an ask with what was told.
    fn note(&mut self, ask: Ask, told: Told) -> Result<(), Halt>
        ensures noted { OnOk result (map read_of self.new.list.items ≡ map read_of self.old.list.items ++ record { ask = ask; answer = answer_of told } ∷ []) }
        ensures stands { OnErr result (self.new.list.items ≡ self.old.list.items) }
        ensures short { IfErr result (λ stop. stop ≡ halt.NoMemory) }
    {
        if self.list.len() >= MOST_READS {
            return Err(Halt::NoMemory);
        }
        self.list.push(Read { ask, told })?;
        Ok(())
    }

    fn into_vec(self) -> Vec<Read>
        ensures value { result.items ≡ self.list.items }
        ensures few { length result.items < 2 ^ 32 }
    {
        self.list
    }
}

/// Rows that pass each ask on, and note it with what was told. Fewer than 2^32 reads are noted.
#[derive(Drop)]
pub struct Noted<'a, R, L = Reads> {
    rows: &'a mut R,
    reads: L,
}

fn next_ask(table: u16, after: Option<&Key>) -> Ask
    ensures { result ≡ ask.Next table (key_behind after.entry) }
{
    match after {
        Some(key) => Ask::Next {
            table,
            after: Some(*key),
        },
        None => Ask::Next { table, after: None },
    }
}

fn next_told(next: &Option<Key>) -> Told
    ensures { result ≡ told.Next next.now }
{
    Told::Next(*next)
}

fn copied(seen: &Seen) -> Result<Seen, Halt>
    ensures same { IfOk result (λ copy. seen_of copy ≡ seen_of seen.now) }
    ensures short { IfErr result (λ stop. stop ≡ halt.NoMemory) }
{
    let copy = seen.clone()?;
    Ok(copy)
}

impl<'a, R: Rows> Noted<'a, R> {
    /// Rows that ask these, with nothing noted.
    pub fn new(alloc: Global, rows: &'a mut R) -> Noted<'a, R>
        ensures empty { result.reads.list.items ≡ [] }
        ensures lent { result.rows ≡ rows.entry }
    {
        Noted {
            rows,
            reads: Reads::new(alloc),
        }
    }

    /// The reads, in order. The rows that were lent are handed back as they stand.
    pub fn into_reads(self) -> Vec<Read>
        ensures reads { result.items ≡ self.entry.reads.list.items }
        ensures few { length result.items < 2 ^ 32 }
        ensures left { self.exit.0.now ≡ self.entry.rows.now }
    {
        self.reads.into_vec()
    }
}

impl<R: Rows> Rows for Noted<'_, R> {
    ghost is_of = { λ noted schema. R.is_of noted.rows.now schema };

    ghost face = { λ noted. R.face noted.rows.now };

    ghost stays = { λ a b. (b.rows.ghost_name ≡ a.rows.ghost_name) × R.stays a.rows.now b.rows.now };

    ghost stays_laws = { record {
      none = λ a. (refl, R.stays_laws.none a.rows.now);
      both = λ a b c p q. (q.0 ∙ p.0, R.stays_laws.both a.rows.now b.rows.now c.rows.now p.1 q.1);
      same_face = λ a b p. R.stays_laws.same_face a.rows.now b.rows.now p.1;
      same_app = λ a b schema p. R.stays_laws.same_app a.rows.now b.rows.now schema p.1;
    } };

    ghost noted = { λ noted. Some (map read_of noted.reads.list.items) };

    ghost takes_memory = { λ noted. true };

    fn row(&mut self, table: u16, key: &Key) -> Result<Seen, Halt> {
        let ask = Ask::Row { table, key: *key };
        match self.rows.row(table, key) {
            Ok(seen) => {
                let copy = copied(&seen)?;
                self.reads.note(ask, Told::Row(copy))?;
                Ok(seen)
            }
            Err(halt) => Err(halt),
        }
    }

    fn next(&mut self, table: u16, after: Option<&Key>) -> Result<Option<Key>, Halt> {
        let ask = next_ask(table, after);
        match self.rows.next(table, after) {
            Ok(next) => {
                self.reads.note(ask, next_told(&next))?;
                Ok(next)
            }
            Err(halt) => Err(halt),
        }
    }
}
