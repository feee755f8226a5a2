//! What tells greatest differences.

ghost use Rattle.std.specs.Prelude.{◌≡◌};
ghost use Rattle.sv_gains.specs.Gains.{IsShort};
ghost use Rattle.sv_linear.specs.Atoms.{Gain};

use std::alloc::Global;
use std::marker::Model;
use sv_app::App;
use sv_gains::Gains;
use sv_value::NoMemory;

/// What tells the greatest difference of two columns of a table, over all numbers that meet the table's checks.
pub trait GainTeller {
    /// What it tells, by the number of the table.
    ghost told: { Self → Gain };

    /// The greatest `hi - lo` of the table with this number, where a side that is missing counts as zero; none where
    /// there is none.
    fn gain(&self, table: u16, hi: Option<u16>, lo: Option<u16>) -> Option<i128>
        ensures is { result ≡ told self.now table hi lo }
        ensures short { IsShort result };
}

/// The greatest differences of all tables of an application, found once.
#[derive(Drop)]
pub struct TableGains {
    tables: Vec<Gains>,
}

impl Model for TableGains {
    ghost use Rattle.std.specs.Prelude.{List as Items};
    ghost use Rattle.sv_gains.specs.declared.gains.Gain.{Gain as Noted};

    ghost Value = { Items (Items Noted) };

    ghost view = { λ gains. gains.tables.items };
}

impl TableGains {
    ghost use Rattle.std.specs.Prelude.{IfOk};
    ghost use Rattle.sv_app.specs.Accepted.{AcceptedSchema};
    ghost use Rattle.sv_app.specs.Schema.{schema_of};
    ghost use Rattle.sv_wp.specs.Told.{TellsGreatest, told_by};

    /// Those of an accepted application.
    #[tactic(auto, using(crate::proofs::GainLaws::telling))]
    pub fn of(alloc: Global, app: &App) -> Result<TableGains, NoMemory>
        requires { AcceptedSchema (schema_of app.now.tables.items) }
        ensures { IfOk result (λ gains. TellsGreatest (schema_of app.now.tables.items) (told_by gains)) }
    {
        let mut tables = Vec::new(alloc);
        for table in &app.tables {
            tables.push(Gains::of(alloc, table)?)?;
        }
        Ok(TableGains { tables })
    }
}

impl GainTeller for TableGains {
    ghost use Rattle.sv_wp.specs.Told.{told_by};

    ghost told = { told_by };

    fn gain(&self, table: u16, hi: Option<u16>, lo: Option<u16>) -> Option<i128> {
        match self.tables.get(table as usize) {
            Some(gains) => gains.gain(hi, lo),
            None => None,
        }
    }
}
