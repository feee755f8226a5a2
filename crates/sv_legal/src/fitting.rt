//! Whether a request is one of the document's, with arguments that fit.

ghost use Rattle.std.specs.Prelude.{◌≡◌, ◌↔◌, IsTrue, slice_get};
ghost use Rattle.std.specs.Option.{option_map};
ghost use Rattle.sv_app.specs.Fitting.{ArgFits, ArgsFit};
ghost use Rattle.sv_app.specs.Trees.{transaction_of, transactions_of};
ghost use Rattle.sv_core.specs.Document.{document_of};
ghost use Rattle.sv_core.specs.Sound.{RequestFits};

use sv_app::{Arg, Ident, Request, Txn, Ty};
use sv_core::Doc;

fn arg_fits(ty: Ty, arg: &Arg) -> bool
    ensures { IsTrue result ↔ ArgFits ty arg.now }
{
    match (ty, arg) {
        (Ty::Int, Arg::Int(_)) | (Ty::Text, Arg::Text(_)) | (Ty::Ints, Arg::Ints(_)) => true,
        (Ty::Int | Ty::Text | Ty::Ints, _) => false,
    }
}

fn args_fit(params: &[(Ident, Ty)], args: &[Arg]) -> bool
    ensures { IsTrue result ↔ ArgsFit params.now args.now }
{
    match params {
        [] => args.is_empty(),
        [param, params @ ..] => match args {
            [] => false,
            [arg, args @ ..] => arg_fits(param.1, arg) && args_fit(params, args),
        },
    }
}

fn txn_at(txns: &[Txn], number: u16) -> Option<&Txn>
    ensures { slice_get (transactions_of txns.now) number ≡ option_map (λ txn. transaction_of txn.now) result }
{
    txns.get(number as usize)
}

/// Whether the request is a call of a transaction of the document, with arguments of its parameters' types.
pub fn request_fits(doc: &Doc, request: &Request) -> bool
    ensures { IsTrue result ↔ RequestFits (document_of doc.now) request.now }
{
    match txn_at(&doc.app.txns, request.txn) {
        Some(txn) => args_fit(&txn.params, request.args.items()),
        None => false,
    }
}
