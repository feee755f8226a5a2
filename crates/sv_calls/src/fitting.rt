//! Whether the arguments of a request fit a transaction.
ghost use Rattle.std.specs.Prelude.{◌≡◌, OnOk, slice_get};
ghost use Rattle.std.specs.Option.{option_map};
ghost use Rattle.sv_app.specs.Fitting.{ArgFits, ArgsFit};
ghost use Rattle.sv_app.specs.Trees.{transaction_of, transactions_of};
ghost use Rattle.sv_workload.specs.PartsFit.{IsRequestOf};

use crate::troubles::Trouble;
use sv_app::{Arg, Ident, Request, Txn, Ty};

fn check_arg(ty: Ty, arg: &Arg) -> Result<(), Trouble>
    ensures { OnOk result (ArgFits ty arg.now) }
{
    match (ty, arg) {
        (Ty::Int, Arg::Int(_)) | (Ty::Text, Arg::Text(_)) | (Ty::Ints, Arg::Ints(_)) => Ok(()),
        _ => Err(Trouble::Wrong("an argument of another type")),
    }
}

fn check_args(params: &[(Ident, Ty)], args: &[Arg]) -> Result<(), Trouble>
    ensures { OnOk result (ArgsFit params.now args.now) }
{
    match params {
        [] => match args {
            [] => Ok(()),
            _ => Err(Trouble::Wrong("arguments without parameters")),
        },
        [param, params @ ..] => match args {
            [] => Err(Trouble::Wrong("parameters without arguments")),
            [arg, args @ ..] => {
                check_arg(param.1, arg)?;
                check_args(params, args)
            }
        },
    }
}

fn txn_at(txns: &[Txn], number: u16) -> Option<&Txn>
    ensures { slice_get (transactions_of txns.now) number ≡ option_map (λ txn. transaction_of txn.now) result }
{
    txns.get(number as usize)
}

/// Whether the request is for one of the transactions, and its arguments fit.
#[tactic(auto, using(crate::proofs::FitLaws::request_fits))]
pub fn check_request(txns: &[Txn], request: &Request) -> Result<(), Trouble>
    ensures { OnOk result (IsRequestOf (transactions_of txns.now) request.now) }
{
    let Some(txn) = txn_at(txns, request.txn) else {
        return Err(Trouble::Wrong("no such transaction"));
    };
    check_args(&txn.params, request.args.items())
}
