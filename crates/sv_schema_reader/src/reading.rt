ghost use Rattle.std.specs.Prelude.{◌≡◌, ◌≤◌, ◌-◌, ◌+◌, List, Ok, Err, IfOk, length, take, drop, ◌++◌};
ghost use Rattle.sv_app.specs.declared.refusals.Refusal.{Refusal as IsRefusal};
ghost use Rattle.sv_app.specs.declared.refusals.Stop.TheVariants.{Refused};
ghost use Rattle.sv_app.specs.Conditions.{KeepsGrammar, KeepsLimits, AreNumbered};
ghost use Rattle.sv_app.specs.Schema.{schema_of};
ghost use Rattle.sv_lex.specs.declared.tokens.Token.{Token as IsToken};
ghost use Rattle.sv_reader.specs.declared.faults.ReadFault.{ReadFault as IsFault};
ghost use Rattle.sv_reader.specs.declared.faults.ReadStop.TheVariants.{Faulty};
ghost use Rattle.sv_schema_reader.specs.Declarations.{all_declared};
ghost use Rattle.sv_schema_reader.specs.Grammar.{Written, schema};
ghost use Rattle.sv_schema_reader.specs.Limits.{AreSmall};
ghost use Rattle.sv_reader.specs.Reading.{IsLeft};
ghost use Rattle.sv_schema_reader.specs.Reading.{schema_at};
ghost use Rattle.sv_schema_reader.specs.Refused.{BeginsTable, IsRead, IsRefused, IsAnswer};

use crate::tables::schema;
use std::alloc::Global;
use sv_app::{Stop, Table};
use sv_lex::Token;
use sv_reader::{ReadStop, Reader, refusal_of};
use sv_value::Spot;

/// The tables that stand at the front of the tokens, and how many tokens are left behind them.
fn read_front(alloc: Global, tokens: &[Token]) -> Result<(Vec<Table>, usize), ReadStop>
    ensures read { IfOk result (λ read. IsLeft (schema_at tokens.now) (schema_of read.0.items) read.1) }
    ensures fault { (fault : IsFault) → result ≡ Err (Faulty fault) → schema_at tokens.now ≡ Err fault }
{
    let mut reader = Reader { rest: tokens };
    let tables = schema(alloc, &mut reader)?;
    Ok((tables, reader.rest.len()))
}

/// Reads the tables that stand from the place `at` on, at least one, up to a token that begins none. The answer has the
/// place of this token. `end` is the place behind the last byte of the document.
///
/// # Errors
///
/// `Refused`, with `Code::Syntax`, at the first token that the grammar doesn't allow at its place, or at `end`, where a
/// token is missing; and with `Code::Many` at the first token of an element that passes a limit. The first refusal by
/// place counts.
pub fn read_schema(
    alloc: Global,
    tokens: &[Token],
    end: Spot,
    at: usize,
) -> Result<(Vec<Table>, usize), Stop>
    requires { at ≤ length tokens.now }
    ensures place { IfOk result (λ read. (at ≤ read.1) × (read.1 ≤ length tokens.now)) }
    // what is read are tables that keep the limits, and no table begins behind them
    ensures read { IfOk result (λ read. IsRead (take (read.1 - at) (drop at tokens.now)) (drop read.1 tokens.now) (schema_of read.0.items)) }
    // they keep what acceptance asks for
    ensures grammar { IfOk result (λ read. KeepsGrammar (schema_of read.0.items)) }
    ensures limits { IfOk result (λ read. KeepsLimits (schema_of read.0.items)) }
    ensures invariants { IfOk result (λ read. AreNumbered (schema_of read.0.items)) }
    // such tables are read, unless there is no memory
    ensures all { (front rest : List IsToken) (tables : List Written) → drop at tokens.now ≡ front ++ rest → schema tables front → AreSmall tables
        → (BeginsTable rest → ⊥) → IsAnswer result (all_declared tables) (at + length front) }
    // a refusal stands where the grammar and the limits place it
    ensures refused { (refusal : IsRefusal) → result ≡ Err (Refused refusal) → IsRefused (drop at tokens.now) end refusal }
{
    match read_front(alloc, &tokens[at..]) {
        Ok((tables, left)) => Ok((tables, tokens.len() - left)),
        Err(ReadStop::Faulty(fault)) => {
            Err(Stop::Refused(refusal_of(&tokens[at..], end, fault)))
        }
        Err(ReadStop::NoMemory) => Err(Stop::NoMemory),
    }
}
