ghost use Rattle.std.specs.Prelude.{◌≡◌};
ghost use Rattle.sv_lex.specs.declared.marks.Mark.TheVariants.{RightBracket, RightParen};
ghost use Rattle.sv_lex.specs.declared.tokens.TokenKind.TheVariants.{Mark as IsMark};
ghost use Rattle.sv_reader.specs.Reading.{Reads};
ghost use Rattle.sv_workload.specs.Reading.{integer_at, comma_before, more_to, integers_at, arg_of, argument_at, listed_to, call_at};

use crate::values::{integer, value};
use crate::written::Call;
use std::alloc::Global;
use sv_app::Arg;
use sv_lex::Mark;
use sv_reader::{ReadStop, Reader};
use sv_value::{List, Val};

/// Reads a comma and an integer.
fn next_integer(reader: &mut Reader<'_>) -> Result<i64, ReadStop>
    ensures { Reads (λ n. n) result reader.new.rest.now (comma_before integer_at reader.old.rest.now) }
{
    reader.mark(Mark::Comma)?;
    integer(reader)
}

/// Reads the integers behind these, up to the bracket.
#[tactic(auto, using(crate::proofs::CallTurnLaws::integers))]
fn more_integers(reader: &mut Reader<'_>, integers: List<i64>) -> Result<List<i64>, ReadStop>
    ensures { Reads (λ ns. ns) result reader.new.rest.now (more_to (IsMark RightBracket) integer_at integers reader.old.rest.now) }
{
    let mut read = integers;
    while reader.is_mark(Mark::Comma) {
        let next = next_integer(reader)?;
        read.push(next)?;
    }
    reader.mark(Mark::RightBracket)?;
    Ok(read)
}

/// Reads integers, if there are any, up to the bracket.
#[tactic(auto, unfolding(crate::specs::Reading::integers_at))]
fn integers(alloc: Global, reader: &mut Reader<'_>) -> Result<List<i64>, ReadStop>
    ensures { Reads (λ ns. ns) result reader.new.rest.now (integers_at reader.old.rest.now) }
{
    let mut integers = List::new(alloc);
    if reader.is_mark(Mark::RightBracket) {
        reader.mark(Mark::RightBracket)?;
        return Ok(integers);
    }
    let first = integer(reader)?;
    integers.push(first)?;
    more_integers(reader, integers)
}

/// The argument that is a value.
fn arg_of(value: Val) -> Arg
    ensures { result ≡ arg_of value }
{
    match value {
        Val::Int(number) => Arg::Int(number),
        Val::Text(text) => Arg::Text(text),
    }
}

/// Reads an argument.
#[tactic(auto, unfolding(crate::specs::Reading::argument_at))]
pub fn argument(alloc: Global, reader: &mut Reader<'_>) -> Result<Arg, ReadStop>
    ensures { Reads (λ a. a) result reader.new.rest.now (argument_at reader.old.rest.now) }
{
    if reader.is_mark(Mark::LeftBracket) {
        reader.mark(Mark::LeftBracket)?;
        return Ok(Arg::Ints(integers(alloc, reader)?));
    }
    Ok(arg_of(value(reader)?))
}

/// Reads a comma and an argument.
fn next_argument(alloc: Global, reader: &mut Reader<'_>) -> Result<Arg, ReadStop>
    ensures { Reads (λ a. a) result reader.new.rest.now (comma_before argument_at reader.old.rest.now) }
{
    reader.mark(Mark::Comma)?;
    argument(alloc, reader)
}

/// Reads the arguments behind these, up to the parenthesis.
#[tactic(auto, using(crate::proofs::CallTurnLaws::arguments))]
fn more_arguments(
    alloc: Global,
    reader: &mut Reader<'_>,
    arguments: List<Arg>,
) -> Result<List<Arg>, ReadStop>
    ensures { Reads (λ arguments. arguments) result reader.new.rest.now (more_to (IsMark RightParen) argument_at arguments reader.old.rest.now) }
{
    let mut read = arguments;
    while reader.is_mark(Mark::Comma) {
        let next = next_argument(alloc, reader)?;
        read.push(next)?;
    }
    reader.mark(Mark::RightParen)?;
    Ok(read)
}

/// Reads arguments, if there are any, up to the parenthesis.
fn arguments(alloc: Global, reader: &mut Reader<'_>) -> Result<List<Arg>, ReadStop>
    ensures { Reads (λ arguments. arguments) result reader.new.rest.now (listed_to (IsMark RightParen) argument_at reader.old.rest.now) }
{
    let mut arguments = List::new(alloc);
    if reader.is_mark(Mark::RightParen) {
        reader.mark(Mark::RightParen)?;
        return Ok(arguments);
    }
    let first = argument(alloc, reader)?;
    arguments.push(first)?;
    more_arguments(alloc, reader, arguments)
}

/// Reads a call.
#[tactic(auto, unfolding(crate::specs::Reading::call_at))]
pub fn call(alloc: Global, reader: &mut Reader<'_>) -> Result<Call, ReadStop>
    ensures { Reads (λ call. call) result reader.new.rest.now (call_at reader.old.rest.now) }
{
    let txn = reader.name()?;
    reader.mark(Mark::LeftParen)?;
    let args = arguments(alloc, reader)?;
    Ok(Call { txn, args })
}
