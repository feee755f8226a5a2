ghost use Rattle.std.specs.Prelude.{◌≡◌, IfSome};
ghost use Rattle.sv_tool.specs.Headline.{Headline};
ghost use Rattle.sv_tool.specs.ReplayAnswer.{IsLegalReplay, IsReplay};
ghost use Rattle.sv_tool.specs.Statuses.{Writes};

use crate::answers::{Halt, answer_from};
use crate::statuses::Status;
use crate::words::Words;
use std::alloc::Global;
use std::sync::Wait;
use std::thread::Threads;
use sv_io::{Failed, Sink, Source, write_all};

/// Writes the text, and answers the number of the status, or 4 where the sink failed.
fn tell<K: Sink>(out: &mut K, status: Status, text: &[u8]) -> u8
    ensures { Writes (K.taken out.old) (K.taken out.new) (K.faults out.old) (K.faults out.new) status text.now result }
{
    match write_all(out, text) {
        Ok(()) => status.number(),
        Err(Failed) => Status::SinkFailed.number(),
    }
}

/// Does what the words of the command line say, from the bytes of the source to those of the sink, and answers the
/// status to end with:
///
/// - 0: done; the text was written, and the source was read to its end.
/// - 1: the document is refused; the line of the refusal was written.
/// - 2: the words are no command; `usage` was written, and nothing was read.
/// - 3: the source failed; nothing was written.
/// - 4: the sink failed; it took a front of the text.
/// - 5: there was no memory; nothing was written.
#[tactic(auto, using(crate::proofs::HeadlineLaws::headlines, crate::proofs::HeadlineLaws::histories))]
pub fn plain<S: Source, K: Sink>(alloc: Global, words: &Words, input: &mut S, out: &mut K) -> u8
    ensures headline { Headline S.left S.faults K.taken K.faults words.now input.old input.new out.old out.new result }
    ensures legal { result ≡ 0 → IsReplay words.now → IfSome (S.left input.old) IsLegalReplay }
{
    let Some(command) = words.command() else {
        return tell(out, Status::Usage, b"usage\n");
    };
    match answer_from(alloc, command, input) {
        Ok(answer) => tell(out, answer.status, &answer.text),
        Err(halt) => halt.status().number(),
    }
}

/// Does what the words of the command line say, as `plain` does; the threads of `rt` serve the commands that need them.
pub fn top<R: Threads + Wait + Sync, S: Source, K: Sink>(
    _rt: &R,
    alloc: Global,
    words: &Words,
    input: &mut S,
    out: &mut K,
) -> u8
    ensures headline { Headline S.left S.faults K.taken K.faults words.now input.old input.new out.old out.new result }
    ensures legal { result ≡ 0 → IsReplay words.now → IfSome (S.left input.old) IsLegalReplay }
{
    plain(alloc, words, input, out)
}
