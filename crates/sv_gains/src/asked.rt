//! What the cases of a table's checks ask, and the answers.

ghost use Rattle.std.specs.Prelude.{◌≡◌, ◌++◌, ◌<◌, map, All, IfOk, OnOk};
ghost use Rattle.sv_app.specs.Satisfiable.{check_in, checks_of};
ghost use Rattle.sv_app.specs.Schema.{declaration_of, rule_of};
ghost use Rattle.sv_gains.specs.Asked.{asked_in, AreSides, IsCheckSystem, IsRight, most_of, sides_of};
ghost use Rattle.sv_gains.specs.Systems.{variable_of, IsNarrowRule, IsNarrowTable};

use crate::gains::Gain;
use crate::systems::{side, variable};
use std::alloc::Global;
use sv_app::{InvBody, Table};
use sv_bounds::{System, Widest, greatest};
use sv_value::{List, NoMemory};

/// Appends what the cases of an invariant ask.
fn put_asked(asked: &mut List<(Option<u16>, Option<u16>)>, body: &InvBody) -> Result<(), NoMemory>
    requires narrow { IsNarrowRule (rule_of body.now) }
    requires within { All AreSides asked.old }
    ensures asked { OnOk result (asked.new ≡ asked.old ++ asked_in (check_in (rule_of body.now))) }
    ensures within { OnOk result (All AreSides asked.new) }
{
    match body {
        InvBody::Check(check) => {
            let hi = side(&check.hi);
            let lo = side(&check.lo);
            asked.push((hi, lo))?;
            asked.push((None, lo))?;
            asked.push((hi, None))?;
            Ok(())
        }
        InvBody::List { .. } | InvBody::Unique { .. } | InvBody::Refers { .. } => Ok(()),
    }
}

/// What the cases of the table's checks ask.
#[tactic(auto, using(crate::proofs::RowLaws::rowing))]
pub fn asked_of(alloc: Global, table: &Table) -> Result<List<(Option<u16>, Option<u16>)>, NoMemory>
    requires { IsNarrowTable (declaration_of table.now) }
    ensures asked { IfOk result (λ asked. asked ≡ asked_in (checks_of (declaration_of table.now))) }
    ensures within { IfOk result (λ asked. All AreSides asked) }
{
    let mut asked = List::new(alloc);
    for inv in &table.invs {
        put_asked(&mut asked, &inv.body)?;
    }
    Ok(asked)
}

fn most_of(widest: &Widest) -> Option<i128>
    ensures { result ≡ most_of widest.now }
{
    match widest {
        Widest::Most { value, .. } => Some(*value),
        Widest::Unbounded => None,
    }
}

/// The greatest difference of two sides.
fn gain_of(
    alloc: Global,
    system: &System,
    hi: Option<u16>,
    lo: Option<u16>,
) -> Result<Gain, NoMemory>
    requires system { IsCheckSystem system.now }
    requires hi { variable_of hi < 17 }
    requires lo { variable_of lo < 17 }
    ensures sides { IfOk result (λ gain. sides_of gain ≡ (hi, lo)) }
    ensures right { IfOk result (λ gain. IsRight system.now gain) }
{
    let widest = greatest(alloc, system, variable(hi), variable(lo))?;
    Ok(Gain {
        hi,
        lo,
        most: most_of(&widest),
    })
}

/// The greatest differences of these sides.
#[tactic(auto, using(crate::proofs::GainLaws::one_answer, crate::proofs::GainLaws::one_right))]
pub fn gains_of(
    alloc: Global,
    system: &System,
    asked: &[(Option<u16>, Option<u16>)],
) -> Result<List<Gain>, NoMemory>
    requires system { IsCheckSystem system.now }
    requires asked { All AreSides asked.now }
    ensures sides { IfOk result (λ gains. map sides_of gains ≡ asked.now) }
    ensures right { IfOk result (λ gains. All (IsRight system.now) gains) }
{
    let mut gains = List::new(alloc);
    for (hi, lo) in asked {
        gains.push(gain_of(alloc, system, *hi, *lo)?)?;
    }
    Ok(gains)
}
