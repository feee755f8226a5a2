ghost use Rattle.std.specs.Prelude.{◌≡◌, ◌≤◌, ◌-◌, List, Ok, Err, IfOk, length, drop};
ghost use Rattle.sv_app.specs.declared.refusals.Refusal.{Refusal as IsRefusal};
ghost use Rattle.sv_app.specs.declared.refusals.Stop.TheVariants.{Refused};
ghost use Rattle.sv_app.specs.Trees.{Transaction, transactions_of};
ghost use Rattle.sv_app.specs.TxnConditions.{KeepsTxnGrammar, KeepsTxnLimits};
ghost use Rattle.sv_lex.specs.declared.tokens.Token.{Token as IsToken};
ghost use Rattle.sv_reader.specs.declared.faults.ReadFault.{ReadFault as IsFault};
ghost use Rattle.sv_reader.specs.declared.faults.ReadStop.TheVariants.{Faulty};
ghost use Rattle.sv_reader.specs.Reading.{IsLeft};
ghost use Rattle.sv_txn_reader.specs.Reading.{txns_at};
ghost use Rattle.sv_txn_reader.specs.Refused.{AreRead, IsRefused, IsAnswer};

use crate::txns::txns;
use std::alloc::Global;
use sv_app::{Stop, Txn};
use sv_lex::Token;
use sv_reader::{ReadStop, Reader, refusal_of};
use sv_value::Spot;

/// The transactions that stand at the front of the tokens, and how many tokens are left behind them.
fn read_front(alloc: Global, tokens: &[Token]) -> Result<(Vec<Txn>, usize), ReadStop>
    ensures read { IfOk result (λ read. IsLeft (txns_at tokens.now) (transactions_of read.0.items) read.1) }
    ensures fault { (fault : IsFault) → result ≡ Err (Faulty fault) → txns_at tokens.now ≡ Err fault }
{
    let mut reader = Reader { rest: tokens };
    let txns = txns(alloc, &mut reader)?;
    Ok((txns, reader.rest.len()))
}

/// Reads the transactions that stand from the place `at` on, up to a token that begins none; there may be none at all.
/// The answer has the place of this token. `end` is the place behind the last byte of the document.
///
/// # Errors
///
/// `Refused`, with `Code::Syntax`, at the first token that the grammar doesn't allow at its place, or at `end`, where a
/// token is missing; and with `Code::Many` at the first token with which a limit is passed. The first refusal by place
/// counts.
pub fn read_txns(
    alloc: Global,
    tokens: &[Token],
    end: Spot,
    at: usize,
) -> Result<(Vec<Txn>, usize), Stop>
    requires { at ≤ length tokens.now }
    ensures place { IfOk result (λ read. (at ≤ read.1) × (read.1 ≤ length tokens.now)) }
    // what is read are transactions that keep the limits, and none begins behind them
    ensures read { IfOk result (λ read. AreRead (transactions_of read.0.items) (drop at tokens.now) (drop read.1 tokens.now)) }
    // they keep what acceptance asks for
    ensures grammar { IfOk result (λ read. KeepsTxnGrammar (transactions_of read.0.items)) }
    ensures limits { IfOk result (λ read. KeepsTxnLimits (transactions_of read.0.items)) }
    // such transactions are read, unless there is no memory
    ensures all { (txns : List Transaction) (rest : List IsToken) → AreRead txns (drop at tokens.now) rest → IsAnswer result txns (length tokens.now - length rest) }
    // a refusal stands where the grammar and the limits place it
    ensures refused { (refusal : IsRefusal) → result ≡ Err (Refused refusal) → IsRefused (drop at tokens.now) end refusal }
{
    match read_front(alloc, &tokens[at..]) {
        Ok((txns, left)) => Ok((txns, tokens.len() - left)),
        Err(ReadStop::Faulty(fault)) => {
            Err(Stop::Refused(refusal_of(&tokens[at..], end, fault)))
        }
        Err(ReadStop::NoMemory) => Err(Stop::NoMemory),
    }
}
