//! Greatest differences, found once for a table.

use crate::asked::{asked_of, gains_of};
use crate::noted::noted_in;
use crate::systems::system_of;
use std::alloc::Global;
use std::marker::Model;
use sv_app::Table;
use sv_value::{List, NoMemory};

/// The greatest `hi - lo` over the numbers of two columns, where one that is missing counts as zero; none where there is
/// none.
#[derive(Clone, Copy, Debug, PartialEq, Eq)]
pub struct Gain {
    pub hi: Option<u16>,
    pub lo: Option<u16>,
    pub most: Option<i128>,
}

/// The greatest differences that the cases of a table's checks ask.
#[derive(Drop)]
pub struct Gains {
    gains: List<Gain>,
}

impl Model for Gains {
    ghost use Rattle.std.specs.Prelude.{All, List as Items};
    ghost use Rattle.std.specs.Coded.{coded_list};
    ghost use Rattle.sv_gains.specs.declared.gains.Gain.{Gain as GainValue};
    ghost use Rattle.sv_gains.specs.Gains.{IsShort};

    ghost Value = { Items GainValue };

    ghost view = { λ gains. gains.gains };

    ghost invariant = { λ gains. All (λ gain. IsShort gain.most) gains.gains };
}

impl Gains {
    ghost use Rattle.std.specs.Prelude.{◌≡◌, IfOk};
    ghost use Rattle.sv_app.specs.Satisfiable.{IsSatisfiable};
    ghost use Rattle.sv_app.specs.Schema.{declaration_of};
    ghost use Rattle.sv_gains.specs.Gains.{AreGains, IsShort, noted_in};
    ghost use Rattle.sv_gains.specs.Systems.{IsNarrowTable};

    /// Those of a table of an accepted application.
    pub fn of(alloc: Global, table: &Table) -> Result<Gains, NoMemory>
        requires narrow { IsNarrowTable (declaration_of table.now) }
        requires satisfiable { IsSatisfiable (declaration_of table.now) }
        ensures { IfOk result (λ gains. AreGains (declaration_of table.now) (noted_in gains)) }
    {
        let system = system_of(alloc, table)?;
        let asked = asked_of(alloc, table)?;
        let gains = gains_of(alloc, &system, asked.items())?;
        Ok(Gains { gains })
    }

    /// The greatest `hi - lo` over all numbers of the table's columns that meet its checks, where one that is missing
    /// counts as zero; none where there is none, and for two sides that no case asks. It is the only reader.
    pub fn gain(&self, hi: Option<u16>, lo: Option<u16>) -> Option<i128>
        ensures told { result ≡ noted_in self.now hi lo }
        ensures short { IsShort result }
    {
        noted_in(self.gains.items(), hi, lo)
    }
}
