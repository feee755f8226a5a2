//! Compiles a document: prints the dictionary of its application.

ghost use Rattle.std.specs.Prelude.{◌≡◌, ◌≤◌, IfOk, length};
ghost use Rattle.sv_io.specs.Flows.{most_bytes};
ghost use Rattle.sv_app.specs.Trees.{transactions_of};
ghost use Rattle.sv_tool.specs.CompileAnswer.{IsCompileAnswer, compiled_with};
ghost use Rattle.sv_tool.specs.ReadDocument.{said_by};

use crate::answers::{Answer, refusal_answer};
use crate::documents::{Checked, read_document};
use crate::statuses::Status;
use std::alloc::Global;
use sv_app::Stop;
use sv_report::put_compile;
use sv_value::NoMemory;

/// The text of the dictionary of a document that is accepted.
fn compiled_answer(alloc: Global, checked: &Checked) -> Result<Answer, NoMemory>
    ensures { IfOk result (λ answer. said_by answer ≡ compiled_with (transactions_of checked.now.app.txns.items) checked.now.dict) }
{
    let mut text = Vec::new(alloc);
    put_compile(&mut text, &checked.app, &checked.dict)?;
    Ok(Answer {
        status: Status::Done,
        text,
    })
}

/// The answer of `compile` to a document of at most 1,048,576 bytes.
pub fn compile_answer(alloc: Global, bytes: &[u8]) -> Result<Answer, NoMemory>
    requires { length bytes.now ≤ most_bytes }
    ensures { IfOk result (λ answer. IsCompileAnswer bytes.now (said_by answer)) }
{
    match read_document(alloc, bytes) {
        Ok(checked) => compiled_answer(alloc, &checked),
        Err(Stop::Refused(refusal)) => refusal_answer(alloc, &refusal),
        Err(Stop::NoMemory) => Err(NoMemory),
    }
}
