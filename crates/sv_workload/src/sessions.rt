ghost use Rattle.std.specs.Prelude.{◌≡◌, ◌≤◌, ◌+◌, IfOk, length, []};
ghost use Rattle.sv_app.specs.Trees.{transactions_of};
ghost use Rattle.sv_reader.specs.Reading.{Reads};
ghost use Rattle.sv_workload.specs.Documents.{request_of};
ghost use Rattle.sv_workload.specs.LineReading.{is_more};
ghost use Rattle.sv_workload.specs.Reading.{as_item};
ghost use Rattle.sv_workload.specs.SessionReading.{sooner, crowd_mark, entry_mark, entry_at, entry_from, requests_from, session_mark, session_head_at, session_head_from, session_requests, sessions_from};

use crate::call_marks::{call_mark, txn_place};
use crate::calls::call;
use crate::inits::is_word;
use crate::settings::out_mark;
use crate::values::count;
use crate::written::Call;
use std::alloc::Global;
use sv_app::limits::{MOST_REQUESTS, MOST_SESSIONS};
use sv_app::{Code, Request, Txn};
use sv_lex::{Mark, Token};
use sv_reader::{ReadFault, ReadStop, Reader};
use sv_value::{List, NoMemory};

/// The request that a written call stands for.
pub fn request_of(txns: &[Txn], call: Call) -> Request
    requires few { length txns.now ≤ 32 }
    ensures { result ≡ request_of (transactions_of txns.now) call }
{
    let txn = match txn_place(txns, &call.txn) {
        Some(place) => place,
        None => 0,
    };
    Request {
        txn: txn as u16,
        args: call.args,
    }
}

/// The earlier of two faults, and of two at one place the first.
fn sooner(first: Option<ReadFault>, second: Option<ReadFault>) -> Option<ReadFault>
    ensures { result ≡ sooner first second }
{
    match (first, second) {
        (Some(first), Some(second)) if first.left < second.left => Some(second),
        (Some(first), _) => Some(first),
        (None, second) => second,
    }
}

/// The fault of a request behind so many, if it is one too many.
fn crowd_mark(requests: usize, tokens: &[Token]) -> Option<ReadFault>
    ensures { result ≡ crowd_mark requests tokens.now }
{
    if requests >= MOST_REQUESTS {
        return Some(ReadFault {
            code: Code::Many,
            left: tokens.len(),
        });
    }
    None
}

/// What is refused of the call that begins here, behind so many requests, besides the grammar.
fn entry_mark(
    alloc: Global,
    txns: &[Txn],
    requests: usize,
    tokens: &[Token],
) -> Result<Option<ReadFault>, NoMemory>
    ensures { IfOk result (λ mark. mark ≡ entry_mark (transactions_of txns.now) requests tokens.now) }
{
    match call_mark(alloc, txns, tokens) {
        Ok(fault) => Ok(sooner(fault, crowd_mark(requests, tokens))),
        Err(NoMemory) => Err(NoMemory),
    }
}

/// Reads a call and its semicolon.
#[tactic(auto, unfolding(crate::specs::SessionReading::entry_at))]
fn entry(alloc: Global, reader: &mut Reader<'_>) -> Result<Call, ReadStop>
    ensures { Reads (λ call. call) result reader.new.rest.now (entry_at reader.old.rest.now) }
{
    let call = call(alloc, reader)?;
    reader.mark(Mark::Semi)?;
    Ok(call)
}

/// Reads the call that begins here, behind so many requests.
#[tactic(auto, unfolding(crate::specs::SessionReading::entry_from))]
fn next_request(
    alloc: Global,
    reader: &mut Reader<'_>,
    txns: &[Txn],
    requests: usize,
) -> Result<Request, ReadStop>
    requires few { length txns.now ≤ 32 }
    ensures { Reads (λ request. request) result reader.new.rest.now (as_item (request_of (transactions_of txns.now)) (entry_from (transactions_of txns.now) requests reader.old.rest.now)) }
{
    match entry_mark(alloc, txns, requests, reader.rest) {
        Ok(Some(fault)) => Err(ReadStop::Faulty(fault)),
        Ok(None) => {
            let call = entry(alloc, reader)?;
            Ok(request_of(txns, call))
        }
        Err(NoMemory) => Err(ReadStop::NoMemory),
    }
}

/// Reads all calls that stand here, behind so many requests of earlier sessions.
#[tactic(auto, using(crate::proofs::SessionTurnLaws::requests))]
fn requests(
    alloc: Global,
    reader: &mut Reader<'_>,
    txns: &[Txn],
    earlier: usize,
) -> Result<List<Request>, ReadStop>
    requires few { length txns.now ≤ 32 }
    requires room { earlier ≤ 8192 }
    ensures read { Reads (λ requests. requests) result reader.new.rest.now (requests_from (transactions_of txns.now) earlier [] reader.old.rest.now) }
    ensures few { IfOk result (λ requests. earlier + length requests ≤ 8192) }
{
    let mut requests = List::new(alloc);
    while reader.is_name() {
        let next = next_request(alloc, reader, txns, earlier + requests.len())?;
        requests.push(next)?;
    }
    Ok(requests)
}

/// What is refused of the head of a session behind so many others, besides the grammar.
fn session_mark(sessions: usize, tokens: &[Token]) -> Option<ReadFault>
    ensures { result ≡ session_mark sessions tokens.now }
{
    match tokens {
        [token, others @ ..] if is_word(token, b"session") => {
            if sessions >= MOST_SESSIONS {
                return Some(ReadFault {
                    code: Code::Many,
                    left: tokens.len(),
                });
            }
            let number = sessions as u64 + 1;
            out_mark(Code::BadStep, number, number, others)
        }
        _ => None,
    }
}

/// Reads the head of a session: its word, its number and the brace.
#[tactic(auto, unfolding(crate::specs::SessionReading::session_head_at))]
fn session_head(reader: &mut Reader<'_>) -> Result<u64, ReadStop>
    ensures { Reads (λ number. number) result reader.new.rest.now (session_head_at reader.old.rest.now) }
{
    reader.word(b"session")?;
    let number = count(reader)?;
    reader.mark(Mark::LeftBrace)?;
    Ok(number)
}

/// Reads the head of the session that begins here, behind so many others.
#[tactic(auto, unfolding(crate::specs::SessionReading::session_head_from))]
fn next_head(reader: &mut Reader<'_>, sessions: usize) -> Result<u64, ReadStop>
    ensures { Reads (λ number. number) result reader.new.rest.now (session_head_from sessions reader.old.rest.now) }
{
    match session_mark(sessions, reader.rest) {
        Some(fault) => Err(ReadStop::Faulty(fault)),
        None => session_head(reader),
    }
}

/// Reads the session that begins here, behind so many others and so many requests.
#[tactic(auto, unfolding(crate::specs::SessionReading::session_requests))]
fn session(
    alloc: Global,
    reader: &mut Reader<'_>,
    txns: &[Txn],
    sessions: usize,
    earlier: usize,
) -> Result<List<Request>, ReadStop>
    requires few { length txns.now ≤ 32 }
    requires room { earlier ≤ 8192 }
    ensures read { Reads (λ requests. requests) result reader.new.rest.now (session_requests (transactions_of txns.now) sessions earlier reader.old.rest.now) }
    ensures few { IfOk result (λ requests. earlier + length requests ≤ 8192) }
{
    next_head(reader, sessions)?;
    let requests = requests(alloc, reader, txns, earlier)?;
    reader.mark(Mark::RightBrace)?;
    Ok(requests)
}

/// Reads all sessions, up to the end.
#[tactic(auto, using(crate::proofs::SessionTurnLaws::sessions))]
pub fn sessions(
    alloc: Global,
    reader: &mut Reader<'_>,
    txns: &[Txn],
) -> Result<List<List<Request>>, ReadStop>
    requires few { length txns.now ≤ 32 }
    ensures { Reads (λ sessions. sessions) result reader.new.rest.now (sessions_from (transactions_of txns.now) [] reader.old.rest.now) }
{
    let mut sessions = List::new(alloc);
    let mut earlier = 0;
    while !reader.rest.is_empty() {
        let next = session(alloc, reader, txns, sessions.len(), earlier)?;
        earlier += next.len();
        sessions.push(next)?;
    }
    Ok(sessions)
}
