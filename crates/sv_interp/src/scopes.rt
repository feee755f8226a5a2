ghost use Rattle.std.specs.Prelude.{◌≡◌, ◌==◌, ◌<◌, ◌++◌, ◌∷◌, [], length, OnOk, IfOk};
ghost use Rattle.std.specs.List.{list_any};
ghost use Rattle.sv_app.specs.declared.gots.Got.TheVariants as gots;
ghost use Rattle.sv_app.specs.declared.instances.Source.TheVariants as sources;
ghost use Rattle.sv_app.specs.Slots.{item, with_item};
ghost use Rattle.sv_app.specs.Symbols.{is_same_source, is_known};
ghost use Rattle.sv_effect.specs.RunValues.{nothing, brought, brought_old, put, chosen, column, with_progress};
ghost use Rattle.sv_interp.specs.Machine.{progress_of, scope_of};

use std::alloc::Global;
use sv_app::{Got, Source};
use sv_effect::column;
use sv_value::{List, NoMemory, Val};

/// An instance that isn't complete.
#[derive(Debug, Drop)]
pub struct Progress {
    pub unit: u16,
    pub number: u32,
    pub choices: List<bool>,
    pub tape: List<Val>,
    pub known: List<Source>,
    pub known_old: List<u16>,
}

/// What expressions read: variables and rows by the numbers of their names, and the row before the update.
#[derive(Debug, Drop)]
pub struct Scope {
    pub values: Vec<Val>,
    pub rows: Vec<List<Got>>,
    pub before: List<Got>,
    pub progress: Progress,
}

fn is_same_source(left: &Source, right: &Source) -> bool
    ensures { result ≡ is_same_source left.now right.now }
{
    match (left, right) {
        (Source::Variable(x), Source::Variable(y)) => *x == *y,
        (Source::Column { row: r, col: c }, Source::Column { row: q, col: d }) => {
            *r == *q && *c == *d
        }
        _ => false,
    }
}

fn is_known(source: &Source, known: &[Source]) -> bool
    ensures { result ≡ is_known source.now known.now }
{
    known.iter().any(|other| is_same_source(source, other))
}

/// Whether the number is one of these.
pub fn is_among(col: u16, known: &[u16]) -> bool
    ensures { result ≡ list_any (λ d. col == d) known.now }
{
    known.iter().any(|other| col == *other)
}

impl Progress {
    /// Adds the value of a symbol to the tape.
    pub fn put(&mut self, val: &Val) -> Result<(), NoMemory>
        ensures { OnOk result (progress_of self.new ≡ put val.now (progress_of self.old)) }
    {
        self.tape.push(*val)?;
        Ok(())
    }

    /// Brings in the symbol of a source, with its value, unless it is known.
    pub fn bring(&mut self, source: Source, val: &Val) -> Result<(), NoMemory>
        ensures { OnOk result (progress_of self.new ≡ brought source val.now (progress_of self.old)) }
    {
        if is_known(&source, self.known.items()) {
            return Ok(());
        }
        self.known.push(source)?;
        self.tape.push(*val)?;
        Ok(())
    }

    /// The same of a column of the row that is being updated.
    pub fn bring_old(&mut self, col: u16, val: &Val) -> Result<(), NoMemory>
        ensures { OnOk result (progress_of self.new ≡ brought_old col val.now (progress_of self.old)) }
    {
        if is_among(col, self.known_old.items()) {
            return Ok(());
        }
        self.known_old.push(col)?;
        self.tape.push(*val)?;
        Ok(())
    }

    /// The same, of its own.
    fn copied(&self, alloc: Global) -> Result<Progress, NoMemory>
        ensures { IfOk result (λ copy. progress_of copy ≡ progress_of self.now) }
    {
        Ok(Progress {
            unit: self.unit,
            number: self.number,
            choices: self.choices.copied(alloc)?,
            tape: self.tape.copied(alloc)?,
            known: self.known.copied(alloc)?,
            known_old: self.known_old.copied(alloc)?,
        })
    }

    /// Takes a choice.
    pub fn choose(&mut self, holds: bool) -> Result<(), NoMemory>
        ensures { OnOk result (progress_of self.new ≡ chosen holds (progress_of self.old)) }
    {
        self.choices.push(holds)?;
        Ok(())
    }
}

impl Scope {
    /// The value of a variable.
    pub fn variable(&self, var: u16) -> Val
        ensures { result ≡ item nothing self.now.values.items var }
    {
        match self.values.get(var as usize) {
            Some(val) => *val,
            None => Val::Int(0),
        }
    }

    /// A column of the row of a row variable.
    pub fn field(&self, row: u16, col: u16) -> Got
        ensures { result ≡ column (item [] self.now.rows.items row) col }
    {
        match self.rows.get(row as usize) {
            Some(values) => column(values.items(), col),
            None => Got::Num(0),
        }
    }

    /// The same, of its own.
    pub fn copied(&self, alloc: Global) -> Result<Scope, NoMemory>
        ensures { IfOk result (λ copy. scope_of copy ≡ scope_of self.now) }
    {
        Ok(Scope {
            values: Vec::from_slice(alloc, &self.values)?,
            rows: copy_rows(alloc, &self.rows)?,
            before: self.before.copied(alloc)?,
            progress: self.progress.copied(alloc)?,
        })
    }
}

fn copy_rows(alloc: Global, rows: &[List<Got>]) -> Result<Vec<List<Got>>, NoMemory>
    ensures { IfOk result (λ copy. copy.items ≡ rows.now) }
{
    let mut copies = Vec::new(alloc);
    for row in rows {
        copies.push(row.copied(alloc)?)?;
    }
    Ok(copies)
}
