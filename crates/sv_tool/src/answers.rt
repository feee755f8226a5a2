ghost use Rattle.std.specs.Prelude.{◌≡◌, ◌≤◌, ◌⊎◌, IfOk, IsErrOf, IfSome, length};
ghost use Rattle.std.specs.Io.KnownBytes.{IsAtEnd};
ghost use Rattle.sv_io.specs.Faults.{Rose};
ghost use Rattle.sv_io.specs.Flows.{most_bytes};
ghost use Rattle.sv_tool.specs.Answer.{Answer as AnswerTold, at_the_front, refused_with};
ghost use Rattle.sv_tool.specs.Commands.{IsAnswerOf, IsAnswerTo};
ghost use Rattle.sv_tool.specs.ReadDocument.{said_by};
ghost use Rattle.sv_tool.specs.ReplayAnswer.{IsLegalReplay};
ghost use Rattle.sv_tool.specs.Statuses.{status_of};
ghost use Rattle.sv_tool.specs.declared.statuses.Status.TheVariants.{Done, Refused};
ghost use Rattle.sv_tool.specs.declared.words.Command.TheVariants.{Replay};

use crate::checks::check_answer;
use crate::compiles::compile_answer;
use crate::replays::replay_answer;
use crate::statuses::Status;
use crate::words::Command;
use std::alloc::Global;
use sv_app::{Code, Refusal};
use sv_io::{ReadError, Source, read_all};
use sv_report::put_refusal;
use sv_value::{NoMemory, Spot};

/// What is to be written, and how the program ends when it was.
#[derive(Debug, Drop)]
pub struct Answer {
    pub status: Status,
    pub text: Vec<u8>,
}

/// Why there is no answer.
#[derive(Clone, Copy, Debug, PartialEq, Eq)]
pub enum Halt {
    /// The source failed.
    SourceFailed,
    /// There was no memory.
    NoMemory,
}

impl Halt {
    /// How the program ends without an answer.
    pub fn status(self) -> Status
        ensures { result ≡ status_of self }
    {
        match self {
            Halt::SourceFailed => Status::SourceFailed,
            Halt::NoMemory => Status::NoMemory,
        }
    }
}

impl From<NoMemory> for Halt {
    ghost use Rattle.sv_tool.specs.declared.answers.Halt.TheVariants.{NoMemory as no_memory};

    ghost from_gives = { λ _ halt. halt ≡ no_memory };

    fn from(_none: NoMemory) -> Halt {
        Halt::NoMemory
    }
}

/// A refusal of the whole document, placed at its front.
fn at_the_front(code: Code) -> Refusal
    ensures { result ≡ at_the_front code }
{
    Refusal {
        spot: Spot { line: 1, col: 1 },
        code,
    }
}

/// The answer to a document that is refused.
pub fn refusal_answer(alloc: Global, refusal: &Refusal) -> Result<Answer, NoMemory>
    ensures { IfOk result (λ answer. said_by answer ≡ refused_with refusal.now) }
{
    let mut text = Vec::new(alloc);
    put_refusal(&mut text, refusal)?;
    Ok(Answer {
        status: Status::Refused,
        text,
    })
}

/// The answer of a command to a document of at most 1,048,576 bytes.
fn answer_of(alloc: Global, command: Command, bytes: &[u8]) -> Result<Answer, NoMemory>
    requires { length bytes.now ≤ most_bytes }
    ensures answer { IfOk result (λ answer. IsAnswerOf command bytes.now (said_by answer)) }
    // a document that isn't refused has one answer
    ensures only { (other : AnswerTold) → IsAnswerOf command bytes.now other → other.status ≡ Done → IfOk result (λ answer. said_by answer ≡ other) }
    // the history of a replay is legal
    ensures legal { IfOk result (λ answer. command ≡ Replay → answer.status ≡ Done → IsLegalReplay bytes.now) }
{
    match command {
        Command::Replay => replay_answer(alloc, bytes),
        Command::Check => check_answer(alloc, bytes),
        Command::Compile => compile_answer(alloc, bytes),
    }
}

/// Reads a document and answers it.
///
/// # Errors
///
/// `SourceFailed` only where the source's count of faults rose, and `NoMemory`.
#[tactic(auto, using(crate::proofs::CommandLaws::answers))]
pub fn answer_from<S: Source>(
    alloc: Global,
    command: Command,
    input: &mut S,
) -> Result<Answer, Halt>
    ensures answer { IfOk result (λ answer. IsAnswerTo (IsAnswerOf command) (S.left input.old) (said_by answer)) }
    // a document that isn't refused has one answer
    ensures only { IfOk result (λ answer. IfSome (S.left input.old) (λ bytes. (other : AnswerTold) → IsAnswerOf command bytes other → other.status ≡ Done → said_by answer ≡ other)) }
    // the history of a replay is legal
    ensures legal { IfOk result (λ answer. command ≡ Replay → answer.status ≡ Done → IfSome (S.left input.old) IsLegalReplay) }
    ensures status { IfOk result (λ answer. (answer.status ≡ Done) ⊎ (answer.status ≡ Refused)) }
    ensures end { IfOk result (λ answer. answer.status ≡ Done → IsAtEnd (S.left input.new)) }
    ensures failed { IsErrOf result Halt.SourceFailed → Rose (S.faults input.old) (S.faults input.new) }
{
    match read_all(alloc, input) {
        Ok(bytes) => Ok(answer_of(alloc, command, &bytes)?),
        Err(ReadError::TooLong) => Ok(refusal_answer(alloc, &at_the_front(Code::TooLong))?),
        Err(ReadError::Failed) => Err(Halt::SourceFailed),
        Err(ReadError::NoMemory) => Err(Halt::NoMemory),
    }
}
