ghost use Rattle.std.specs.Prelude.{◌≡◌, ◌≤◌, IfOk, length};
ghost use Rattle.std.specs.List.{flat_map};
ghost use Rattle.sv_io.specs.Flows.{most_bytes};
ghost use Rattle.sv_app.specs.Schema.{schema_of};
ghost use Rattle.sv_tool.specs.CheckText.{IsCheckAnswer, accepted_with, sizes_in};
ghost use Rattle.sv_tool.specs.ReadDocument.{said_by};

use crate::answers::{Answer, refusal_answer};
use crate::documents::read_document;
use crate::statuses::Status;
use crate::texts::{Accepted, put_accepted};
use std::alloc::Global;
use sv_app::{App, Stop, Table};
use sv_value::NoMemory;

/// How many invariants the tables have.
fn invariants_of(tables: &[Table]) -> usize
    requires { length (flat_map (λ t. t.invs) (schema_of tables.now)) ≤ 256 }
    ensures { result ≡ length (flat_map (λ t. t.invs) (schema_of tables.now)) }
{
    match tables {
        [] => 0,
        [table, others @ ..] => table.invs.len() + invariants_of(others),
    }
}

/// The line of a document that is accepted.
fn accepted_answer(alloc: Global, app: &App) -> Result<Answer, NoMemory>
    requires { (sizes_in app.now).invariants ≤ 256 }
    ensures { IfOk result (λ answer. said_by answer ≡ accepted_with (sizes_in app.now)) }
{
    let mut text = Vec::new(alloc);
    put_accepted(
        &mut text,
        &Accepted {
            tables: app.tables.len() as u64,
            txns: app.txns.len() as u64,
            invariants: invariants_of(&app.tables) as u64,
        },
    )?;
    Ok(Answer {
        status: Status::Done,
        text,
    })
}

/// The answer of `check` to a document of at most 1,048,576 bytes.
#[tactic(auto, using(crate::proofs::CheckLaws::few_invariants))]
pub fn check_answer(alloc: Global, bytes: &[u8]) -> Result<Answer, NoMemory>
    requires { length bytes.now ≤ most_bytes }
    ensures { IfOk result (λ answer. IsCheckAnswer bytes.now (said_by answer)) }
{
    match read_document(alloc, bytes) {
        Ok(checked) => accepted_answer(alloc, &checked.app),
        Err(Stop::Refused(refusal)) => refusal_answer(alloc, &refusal),
        Err(Stop::NoMemory) => Err(NoMemory),
    }
}
