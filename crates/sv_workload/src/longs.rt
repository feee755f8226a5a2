ghost use Rattle.std.specs.Prelude.{◌≡◌, IfOk};
ghost use Rattle.sv_reader.specs.Reading.{Reads, next, is_some};
ghost use Rattle.sv_workload.specs.Reading.{natural_of, integer_at, argument_at, begins_integer, comma_after, left_of, long_in, list_long, long_among, opening_at, long_call, long_fault};

use crate::calls::argument;
use crate::values::{integer, natural_of};
use std::alloc::Global;
use sv_app::limits::MOST_ELEMENTS;
use sv_app::{Arg, Code, Ident};
use sv_lex::{Mark, Token};
use sv_reader::{ReadFault, ReadStop, Reader};
use sv_value::NoMemory;

/// Whether a number begins here.
fn begins_number(tokens: &[Token]) -> bool
    ensures { result ≡ next (λ token. is_some (natural_of token.kind)) tokens.now }
{
    match tokens {
        [token, ..] => natural_of(token).is_some(),
        [] => false,
    }
}

/// Whether an integer begins here.
fn begins_integer(reader: &Reader<'_>) -> bool
    ensures { result ≡ begins_integer reader.now.rest.now }
{
    reader.is_mark(Mark::Minus) || begins_number(reader.rest)
}

/// Reads an integer and a comma.
fn integer_comma(reader: &mut Reader<'_>) -> Result<i64, ReadStop>
    ensures { Reads (λ n. n) result reader.new.rest.now (comma_after integer_at reader.old.rest.now) }
{
    let number = integer(reader)?;
    reader.mark(Mark::Comma)?;
    Ok(number)
}

/// Reads an argument and a comma.
fn argument_comma(alloc: Global, reader: &mut Reader<'_>) -> Result<Arg, ReadStop>
    ensures { Reads (λ a. a) result reader.new.rest.now (comma_after argument_at reader.old.rest.now) }
{
    let argument = argument(alloc, reader)?;
    reader.mark(Mark::Comma)?;
    Ok(argument)
}

/// How many tokens are left at the element behind so many others of a list, if there is one.
#[tactic(auto, using(crate::proofs::LongTurnLaws::elements))]
fn long_in(reader: &mut Reader<'_>, count: usize) -> Result<Option<usize>, NoMemory>
    ensures { IfOk result (λ left. left ≡ left_of (long_in count reader.old.rest.now)) }
{
    if count == 0 {
        if begins_integer(reader) {
            return Ok(Some(reader.rest.len()));
        }
        return Ok(None);
    }
    match integer_comma(reader) {
        Ok(_) => long_in(reader, count - 1),
        Err(ReadStop::Faulty(_)) => Ok(None),
        Err(ReadStop::NoMemory) => Err(NoMemory),
    }
}

/// How many tokens are left at the first element too many of a list that begins here, if there is one.
fn list_long(tokens: &[Token]) -> Result<Option<usize>, NoMemory>
    ensures { IfOk result (λ left. left ≡ left_of (list_long tokens.now)) }
{
    let mut reader = Reader { rest: tokens };
    if !reader.is_mark(Mark::LeftBracket) {
        return Ok(None);
    }
    reader.rest = &tokens[1..];
    long_in(&mut reader, MOST_ELEMENTS)
}

/// How many tokens are left at the first element too many of a list among the arguments that stand here, if there is one.
#[tactic(auto, using(crate::proofs::LongTurnLaws::turns))]
fn long_args(alloc: Global, reader: &mut Reader<'_>) -> Result<Option<usize>, NoMemory>
    ensures { IfOk result (λ left. left ≡ left_of (long_among reader.old.rest.now)) }
{
    loop {
        match list_long(reader.rest) {
            Ok(Some(left)) => return Ok(Some(left)),
            Ok(None) => {}
            Err(NoMemory) => return Err(NoMemory),
        }
        match argument_comma(alloc, reader) {
            Ok(_) => {}
            Err(ReadStop::Faulty(_)) => return Ok(None),
            Err(ReadStop::NoMemory) => return Err(NoMemory),
        }
    }
}

/// Reads the name of a call and its parenthesis.
fn opening(reader: &mut Reader<'_>) -> Result<Ident, ReadStop>
    ensures { Reads (λ txn. txn) result reader.new.rest.now (opening_at reader.old.rest.now) }
{
    let txn = reader.name()?;
    reader.mark(Mark::LeftParen)?;
    Ok(txn)
}

/// The fault of the first element too many of a list in the call that begins here, if there is one.
#[tactic(auto, using(crate::proofs::LongTurnLaws::faults))]
pub fn long_call(alloc: Global, tokens: &[Token]) -> Result<Option<ReadFault>, NoMemory>
    ensures { IfOk result (λ fault. fault ≡ long_fault (long_call tokens.now)) }
{
    let mut reader = Reader { rest: tokens };
    match opening(&mut reader) {
        Ok(_) => match long_args(alloc, &mut reader) {
            Ok(Some(left)) => Ok(Some(ReadFault {
                code: Code::Many,
                left,
            })),
            Ok(None) => Ok(None),
            Err(NoMemory) => Err(NoMemory),
        },
        Err(ReadStop::Faulty(_)) => Ok(None),
        Err(ReadStop::NoMemory) => Err(NoMemory),
    }
}
