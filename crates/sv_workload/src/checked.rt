ghost use Rattle.std.specs.Prelude.{◌≡◌, ◌≤◌, ◌-◌, length, Err, OnOk, IfOk, All, Ok};
ghost use Rattle.sv_app.specs.declared.refusals.Refusal.{Refusal as IsRefusal};
ghost use Rattle.sv_app.specs.declared.refusals.Stop.TheVariants.{Refused};
ghost use Rattle.sv_app.specs.Accepted.{AcceptedApp};
ghost use Rattle.sv_app.specs.Schema.{schema_of};
ghost use Rattle.sv_app.specs.Trees.{transactions_of};
ghost use Rattle.sv_app.specs.Valid.{Valid};
ghost use Rattle.sv_check.specs.Initial.{initial_tables};
ghost use Rattle.sv_effect.specs.Initial.{InitFits, AreDistinct};
ghost use Rattle.sv_reader.specs.declared.faults.ReadFault.{ReadFault as IsFault};
ghost use Rattle.sv_reader.specs.declared.faults.ReadStop.TheVariants.{Faulty};
ghost use Rattle.sv_reader.specs.Reading.{IsLeft};
ghost use Rattle.sv_workload.specs.Reading.{init_from};
ghost use Rattle.sv_workload.specs.Stops.{IsBad, InitStops, InitKept};

use crate::inits::init;
use std::alloc::Global;
use sv_app::{App, Code, InitRow, Refusal, Stop};
use sv_check::check_all;
use sv_lex::Token;
use sv_reader::{ReadStop, Reader, refusal_of};
use sv_value::{List, Spot};

/// The initial rows at the front of the tokens, and how many tokens are left behind them.
fn read_front(
    alloc: Global,
    app: &App,
    tokens: &[Token],
) -> Result<(List<InitRow>, usize), ReadStop>
    requires few { length app.now.tables.items ≤ 16 }
    ensures read { IfOk result (λ read. IsLeft (init_from (schema_of app.now.tables.items) tokens.now) read.0 read.1) }
    ensures fault { (fault : IsFault) → result ≡ Err (Faulty fault) → init_from (schema_of app.now.tables.items) tokens.now ≡ Err fault }
{
    let mut reader = Reader { rest: tokens };
    let rows = init(alloc, &mut reader, &app.tables)?;
    Ok((rows, reader.rest.len()))
}

/// Refuses rows that break an invariant.
fn check_rows(alloc: Global, app: &App, rows: &[InitRow]) -> Result<(), Stop>
    requires accepted { AcceptedApp (schema_of app.now.tables.items) (transactions_of app.now.txns.items) }
    requires fits { All (InitFits (schema_of app.now.tables.items)) rows.now }
    requires distinct { AreDistinct rows.now }
    requires few { length rows.now ≤ 4096 }
    ensures valid { OnOk result (Valid (schema_of app.now.tables.items) (initial_tables rows.now)) }
    ensures bad { (refusal : IsRefusal) → result ≡ Err (Refused refusal) → IsBad (schema_of app.now.tables.items) rows.now refusal }
{
    match check_all(alloc, app, rows)? {
        None => Ok(()),
        Some((inv, row)) => Err(Stop::Refused(Refusal {
            spot: rows[row as usize].spot,
            code: Code::BadInit { inv, row },
        })),
    }
}

/// The initial rows at the front of the tokens, none of which breaks an invariant, and how many tokens are left behind
/// them.
pub fn read_init(
    alloc: Global,
    app: &App,
    tokens: &[Token],
    end: Spot,
) -> Result<(List<InitRow>, usize), Stop>
    requires accepted { AcceptedApp (schema_of app.now.tables.items) (transactions_of app.now.txns.items) }
    ensures kept { IfOk result (λ read. InitKept (schema_of app.now.tables.items) tokens.now read.0 read.1) }
    ensures few { IfOk result (λ read. length read.0 ≤ 4096) }
    ensures refused { (refusal : IsRefusal) → result ≡ Err (Refused refusal) → InitStops (schema_of app.now.tables.items) tokens.now end refusal }
{
    match read_front(alloc, app, tokens) {
        Ok((rows, left)) => match check_rows(alloc, app, rows.items()) {
            Ok(()) => Ok((rows, left)),
            Err(stop) => Err(stop),
        },
        Err(ReadStop::Faulty(fault)) => Err(Stop::Refused(refusal_of(tokens, end, fault))),
        Err(ReadStop::NoMemory) => Err(Stop::NoMemory),
    }
}
