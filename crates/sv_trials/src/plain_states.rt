use crate::halts::{End, Halted};
use crate::plain_rows::PlainRow;
use std::alloc::Global;
use std::mem::replace;
use sv_app::{Got, Instance};
use sv_effect::RowEffect;
use sv_value::{List, NoMemory, Val};

/// Where a symbol comes from.
#[derive(Clone, Copy, Debug, PartialEq, Eq)]
pub enum Origin {
    Variable(u16),
    Column { row: u16, col: u16 },
    /// A column of the row of the update that is being made.
    Old(u16),
}

/// How far an instance has come: its unit and its number, the choices so far, and the values of its symbols. `origins`
/// have brought in their symbols, and the variables of `formed` were assigned and have forms.
#[derive(Debug, Drop)]
pub struct Progress {
    pub unit: u16,
    pub number: u32,
    pub choices: List<bool>,
    pub tape: List<Val>,
    pub origins: Vec<Origin>,
    pub formed: Vec<u16>,
}

impl Progress {
    pub fn new(alloc: Global, unit: u16, number: u32) -> Progress {
        Progress {
            unit,
            number,
            choices: List::new(alloc),
            tape: List::new(alloc),
            origins: Vec::new(alloc),
            formed: Vec::new(alloc),
        }
    }
}

/// A run that goes on: the first key that it may draw, the rows, the values of variables and of row variables by their
/// numbers, of which the first one counts, the lists, the row before the update, and what was made so far. A quiet run
/// brings in no symbols and makes no choices.
#[derive(Debug, Drop)]
pub struct Machine {
    pub first: i64,
    pub rows: Vec<PlainRow>,
    pub variables: Vec<(u16, Val)>,
    pub bound: Vec<(u16, Vec<Got>)>,
    pub lists: Vec<(u16, List<i64>)>,
    pub old: Vec<Got>,
    pub progress: Progress,
    pub quiet: bool,
    pub effects: List<RowEffect>,
    pub replies: List<Val>,
    pub instances: List<Instance>,
}

/// The value of a column as an integer of 64 bits or a text.
pub fn narrow(got: &Got) -> Result<Val, Halted> {
    match got {
        Got::Text(text) => Ok(Val::Text(*text)),
        Got::Num(number) => match i64::try_from(*number) {
            Ok(number) => Ok(Val::Int(number)),
            Err(_) => Err(Halted::Ended(End::Range)),
        },
    }
}

/// The value of a column.
pub fn column(values: &[Got], col: u16) -> Got {
    match values.get(col as usize) {
        Some(got) => *got,
        None => Got::Num(0),
    }
}

fn latest(variables: &[(u16, Val)], number: u16) -> Val {
    for (other, val) in variables {
        if *other == number {
            return *val;
        }
    }
    Val::Int(0)
}

fn bound_column(bound: &[(u16, Vec<Got>)], row: u16, col: u16) -> Got {
    for (other, values) in bound {
        if *other == row {
            return column(values, col);
        }
    }
    Got::Num(0)
}

impl Machine {
    /// Brings in the symbol of an origin, where that was not done before.
    fn bring(&mut self, origin: Origin, val: &Val) -> Result<(), NoMemory> {
        if self.quiet || self.progress.origins.contains(&origin) {
            return Ok(());
        }
        self.progress.origins.push(origin)?;
        self.progress.tape.push(*val)
    }

    /// Brings in a symbol that has no origin.
    pub fn bring_new(&mut self, val: &Val) -> Result<(), NoMemory> {
        if self.quiet {
            return Ok(());
        }
        self.progress.tape.push(*val)
    }

    pub fn choose(&mut self, holds: bool) -> Result<(), NoMemory> {
        if self.quiet {
            return Ok(());
        }
        self.progress.choices.push(holds)
    }

    pub fn variable(&mut self, number: u16) -> Result<Val, Halted> {
        let val = latest(&self.variables, number);
        if !self.progress.formed.contains(&number) {
            self.bring(Origin::Variable(number), &val)?;
        }
        Ok(val)
    }

    /// A column of a row variable.
    pub fn field(&mut self, row: u16, col: u16) -> Result<Val, Halted> {
        let val = narrow(&bound_column(&self.bound, row, col))?;
        self.bring(Origin::Column { row, col }, &val)?;
        Ok(val)
    }

    /// A column of the row before the update.
    pub fn old_field(&mut self, col: u16) -> Result<Val, Halted> {
        let val = narrow(&column(&self.old, col))?;
        self.bring(Origin::Old(col), &val)?;
        Ok(val)
    }

    /// Gives a variable a value, and with it a form.
    pub fn assign(&mut self, number: u16, val: Val) -> Result<(), NoMemory> {
        self.variables.insert(0, (number, val))?;
        self.progress.formed.push(number)?;
        Ok(())
    }

    /// Ends an instance, and goes on where the one around it was left.
    pub fn close(&mut self, outer: Progress) -> Result<(), NoMemory> {
        let Progress {
            unit,
            choices,
            tape,
            ..
        } = replace(&mut self.progress, outer);
        self.instances.push(Instance {
            unit,
            choices,
            tape,
        })
    }

    /// Takes the forms and the symbols from the variables that a loop assigns.
    pub fn renew(&mut self, assigned: &[u16]) {
        for number in assigned {
            let number = *number;
            self.progress.formed.retain(|other| *other != number);
            self.progress
                .origins
                .retain(|origin| *origin != Origin::Variable(number));
        }
    }
}
