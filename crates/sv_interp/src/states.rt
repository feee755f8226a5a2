ghost use Rattle.std.specs.Prelude.{◌≡◌, ◌++◌, ◌∷◌, [], ℕ, OnOk, IfOk, Some, None, map, suc, length};
ghost use Rattle.sv_app.specs.Trees.{block_of};
ghost use Rattle.sv_app.specs.Tables.{Tables};
ghost use Rattle.sv_effect.specs.Run.{Goes, assigned, with_row, with_scope, with_value, with_symbol, changed, row_with};
ghost use Rattle.sv_effect.specs.Run.{updating, update_over, replied, beginning, instance_of, begun, closed, left_loop};
ghost use Rattle.sv_interp.specs.Machine.{progress_of, scope_of, stand, flow_of};

use crate::loops::{known_after, put_assigned};
use crate::made::Made;
use crate::scopes::{Progress, Scope};
use crate::slots::{put_row, put_value};
use arrayvec::ArrayVec;
use std::alloc::Global;
use std::mem::replace;
use sv_app::limits::MOST_REPLIES;
use sv_app::{Act, Got, Instance, Place, Source, Stmt};
use sv_effect::{LeftRow, Outcome, Write};
use sv_value::{List, NoMemory, Val};

/// An instance of a unit, in which nothing was done yet.
pub fn beginning(alloc: Global, unit: u16, number: u32) -> Progress
    ensures { progress_of result ≡ beginning unit number }
{
    Progress {
        unit,
        number,
        choices: List::new(alloc),
        tape: List::new(alloc),
        known: List::new(alloc),
        known_old: List::new(alloc),
    }
}

/// The instance that this was.
pub fn instance_of(progress: Progress) -> Instance
    ensures { result ≡ instance_of (progress_of progress) }
{
    Instance {
        unit: progress.unit,
        choices: progress.choices,
        tape: progress.tape,
    }
}

/// Where a run stands. `own` are the rows that it wrote, the latest first.
#[derive(Debug, Drop)]
pub struct State {
    pub scope: Scope,
    pub own: Vec<(Place, LeftRow)>,
    pub effects: Made,
    pub replies: List<Val>,
    pub instances: List<Instance>,
}

impl State {
    /// Gives a variable a value.
    pub fn set(&mut self, var: u16, val: &Val) -> Result<(), NoMemory>
        ensures { OnOk result ((t : Tables) → stand t self.new ≡ assigned var val.now (stand t self.old)) }
    {
        put_value(&mut self.scope.values, var, val)?;
        self.scope.progress.known.push(Source::Variable(var))?;
        Ok(())
    }

    /// Gives a variable a drawn key, which is a symbol of its own, brought in last.
    pub fn draw(&mut self, var: u16, key: &Val) -> Result<(), NoMemory>
        ensures drawn { OnOk result ((t : Tables) → stand t self.new
            ≡ assigned var key.now (with_symbol key.now (stand t self.old))) }
        ensures number { OnOk result (self.new.scope.progress.number ≡ self.old.scope.progress.number) }
    {
        self.scope.progress.put(key)?;
        self.set(var, key)?;
        Ok(())
    }

    /// Binds a row variable to a row with these values.
    pub fn bind(&mut self, alloc: Global, row: u16, values: List<Got>) -> Result<(), NoMemory>
        ensures { OnOk result ((t : Tables) → stand t self.new ≡ with_scope (stand t self.old) (with_row row values (stand t self.old).scope)) }
    {
        put_row(alloc, &mut self.scope.rows, row, values)
    }

    /// Gives a reply; the 17th ends the run.
    pub fn reply(&mut self, val: &Val) -> Result<Option<Outcome>, NoMemory>
        ensures { IfOk result (λ end. (t : Tables) → replied val.now (stand t self.old) ≡ flow_of end (stand t self.new)) }
    {
        if self.replies.len() >= MOST_REPLIES {
            return Ok(Some(Outcome::TooLarge));
        }
        self.replies.push(*val)?;
        Ok(None)
    }

    /// Lets `old` be this row.
    pub fn start_update(&mut self, alloc: Global, values: List<Got>)
        ensures { (t : Tables) → stand t self.new ≡ with_scope (stand t self.old) (updating values (stand t self.old).scope) }
    {
        self.scope.before = values;
        self.scope.progress.known_old = List::new(alloc);
    }

    /// Forgets the columns of the row that was updated.
    pub fn end_update(&mut self, alloc: Global)
        ensures { (t : Tables) → stand t self.new ≡ update_over (stand t self.old) }
    {
        self.scope.progress.known_old = List::new(alloc);
    }

    /// The number of the next instance of a loop. There are fewer than 2^32 of them.
    fn next_number(&self) -> Result<u32, NoMemory>
        ensures { IfOk result (λ number. number ≡ suc (length self.now.instances)) }
    {
        if self.instances.len() >= 4_294_967_294 {
            return Err(NoMemory);
        }
        Ok(self.instances.len() as u32 + 1)
    }

    /// Begins an instance of a loop's unit; the one that it is in is answered.
    pub fn begin(&mut self, alloc: Global, unit: u16) -> Result<Progress, NoMemory>
        ensures begun { OnOk result ((t : Tables) → stand t self.new ≡ begun unit (stand t self.old)) }
        ensures outer { IfOk result (λ outer. progress_of outer ≡ progress_of self.old.scope.progress) }
    {
        let number = self.next_number()?;
        let outer = replace(&mut self.scope.progress, beginning(alloc, unit, number));
        Ok(outer)
    }

    /// Ends an instance of a loop, and goes back to the one around it.
    pub fn close(&mut self, outer: Progress) -> Result<(), NoMemory>
        ensures { OnOk result ((t : Tables) → stand t self.new ≡ closed (progress_of outer) (stand t self.old)) }
    {
        let inner = replace(&mut self.scope.progress, outer);
        self.instances.push(instance_of(inner))?;
        Ok(())
    }

    /// Gives the variables that a loop's body assigns new sources.
    pub fn leave_loop(&mut self, alloc: Global, body: &[Stmt]) -> Result<(), NoMemory>
        ensures { OnOk result ((t : Tables) → left_loop (block_of body.now) (stand t self.old) ≡ Goes (stand t self.new)) }
    {
        let mut vars = List::new(alloc);
        put_assigned(&mut vars, body)?;
        let known = known_after(alloc, vars.items(), self.scope.progress.known.items())?;
        self.scope.progress.known = known;
        Ok(())
    }
}
