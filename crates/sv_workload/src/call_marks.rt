ghost use Rattle.std.specs.Prelude.{◌≡◌, ◌<◌, length, slice_get, IfOk, IfSome, MatchOption};
ghost use Rattle.std.specs.Prelude.{None as none};
ghost use Rattle.sv_app.specs.Lookups.{place_of};
ghost use Rattle.sv_app.specs.Trees.{transaction_of, transactions_of};
ghost use Rattle.sv_app.specs.TxnNumbers.{txn_names};
ghost use Rattle.sv_workload.specs.Fits.{txn_of};
ghost use Rattle.sv_workload.specs.Reading.{arg_fits, args_fit, txn_meant, call_at, call_code, call_mark};

use crate::calls::call;
use crate::longs::long_call;
use std::alloc::Global;
use sv_app::{Arg, Code, Ident, Txn, Ty, is_named};
use sv_lex::Token;
use sv_reader::{ReadFault, ReadStop, Reader, name_of};
use sv_value::NoMemory;

/// The place of the first transaction of that name.
pub fn txn_place(txns: &[Txn], name: &Ident) -> Option<usize>
    ensures place { result ≡ place_of name.now (txn_names (transactions_of txns.now)) }
    ensures within { IfSome result (λ place. place < length txns.now) }
    ensures txn { MatchOption result (txn_of (transactions_of txns.now) name.now ≡ none) (λ place. txn_of (transactions_of txns.now) name.now ≡ slice_get (transactions_of txns.now) place) }
{
    match txns {
        [txn, rest @ ..] => {
            if is_named(&txn.name, name) {
                return Some(0);
            }
            match txn_place(rest, name) {
                Some(place) => Some(place + 1),
                None => None,
            }
        }
        [] => None,
    }
}

/// The place of the transaction that the first token names.
fn txn_meant(txns: &[Txn], tokens: &[Token]) -> Option<usize>
    ensures { MatchOption result (txn_meant (transactions_of txns.now) tokens.now ≡ none) (λ place. (place < length txns.now) × (txn_meant (transactions_of txns.now) tokens.now ≡ slice_get (transactions_of txns.now) place)) }
{
    match tokens {
        [token, ..] => match name_of(token) {
            Some(name) => txn_place(txns, &name),
            None => None,
        },
        [] => None,
    }
}

fn arg_fits(ty: Ty, arg: &Arg) -> bool
    ensures { result ≡ arg_fits ty arg.now }
{
    match (ty, arg) {
        (Ty::Int, Arg::Int(_)) => true,
        (Ty::Text, Arg::Text(_)) => true,
        (Ty::Ints, Arg::Ints(_)) => true,
        _ => false,
    }
}

/// Whether there is an argument of its type for each parameter.
fn args_fit(params: &[(Ident, Ty)], args: &[Arg]) -> bool
    ensures { result ≡ args_fit params.now args.now }
{
    match params {
        [] => args.is_empty(),
        [param, more @ ..] => match args {
            [arg, others @ ..] => arg_fits(param.1, arg) && args_fit(more, others),
            [] => false,
        },
    }
}

/// What is wrong with the call that begins here, if it is one of this transaction.
fn misfit(alloc: Global, txn: &Txn, tokens: &[Token]) -> Result<Option<Code>, NoMemory>
    ensures { IfOk result (λ code. code ≡ call_code (Some (transaction_of txn.now)) (call_at tokens.now)) }
{
    let mut reader = Reader { rest: tokens };
    match call(alloc, &mut reader) {
        Ok(written) => {
            if args_fit(&txn.params, written.args.items()) {
                return Ok(None);
            }
            Ok(Some(Code::Typing))
        }
        Err(ReadStop::Faulty(_)) => Ok(None),
        Err(ReadStop::NoMemory) => Err(NoMemory),
    }
}

/// What is wrong where a call begins.
fn call_code(alloc: Global, txns: &[Txn], tokens: &[Token]) -> Result<Option<Code>, NoMemory>
    ensures { IfOk result (λ code. code ≡ call_code (txn_meant (transactions_of txns.now) tokens.now) (call_at tokens.now)) }
{
    match txn_meant(txns, tokens) {
        Some(place) => misfit(alloc, &txns[place], tokens),
        None => Ok(Some(Code::Unknown)),
    }
}

/// What is refused of the call that begins here, besides the grammar.
pub fn call_mark(
    alloc: Global,
    txns: &[Txn],
    tokens: &[Token],
) -> Result<Option<ReadFault>, NoMemory>
    ensures { IfOk result (λ mark. mark ≡ call_mark (transactions_of txns.now) tokens.now) }
{
    match call_code(alloc, txns, tokens) {
        Ok(Some(code)) => Ok(Some(ReadFault {
            code,
            left: tokens.len(),
        })),
        Ok(None) => long_call(alloc, tokens),
        Err(NoMemory) => Err(NoMemory),
    }
}
