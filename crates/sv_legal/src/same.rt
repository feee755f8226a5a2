//! Whether two requests or two replies are the same.

ghost use Rattle.std.specs.Prelude.{◌≡◌, ◌↔◌, IsTrue};

use sv_app::{Arg, Request};
use sv_core::Reply;
use sv_effect::Outcome;
use sv_value::Val;

fn are_same_numbers(numbers: &[i64], others: &[i64]) -> bool
    ensures { IsTrue result ↔ (numbers.now ≡ others.now) }
{
    match numbers {
        [] => others.is_empty(),
        [number, numbers @ ..] => match others {
            [] => false,
            [other, others @ ..] => number == other && are_same_numbers(numbers, others),
        },
    }
}

fn is_same_arg(arg: &Arg, other: &Arg) -> bool
    ensures { IsTrue result ↔ (arg.now ≡ other.now) }
{
    match (arg, other) {
        (Arg::Int(number), Arg::Int(same)) => number == same,
        (Arg::Text(text), Arg::Text(same)) => text == same,
        (Arg::Ints(numbers), Arg::Ints(same)) => are_same_numbers(numbers.items(), same.items()),
        (Arg::Int(_) | Arg::Text(_) | Arg::Ints(_), _) => false,
    }
}

fn are_same_args(args: &[Arg], others: &[Arg]) -> bool
    ensures { IsTrue result ↔ (args.now ≡ others.now) }
{
    match args {
        [] => others.is_empty(),
        [arg, args @ ..] => match others {
            [] => false,
            [other, others @ ..] => is_same_arg(arg, other) && are_same_args(args, others),
        },
    }
}

pub fn is_same_request(request: &Request, other: &Request) -> bool
    ensures { IsTrue result ↔ (request.now ≡ other.now) }
{
    request.txn == other.txn && are_same_args(request.args.items(), other.args.items())
}

fn is_same_value(value: &Val, other: &Val) -> bool
    ensures { IsTrue result ↔ (value.now ≡ other.now) }
{
    value == other
}

fn are_same_values(values: &[Val], others: &[Val]) -> bool
    ensures { IsTrue result ↔ (values.now ≡ others.now) }
{
    match values {
        [] => others.is_empty(),
        [value, values @ ..] => match others {
            [] => false,
            [other, others @ ..] => is_same_value(value, other) && are_same_values(values, others),
        },
    }
}

fn is_same_outcome(outcome: &Outcome, other: &Outcome) -> bool
    ensures { IsTrue result ↔ (outcome.now ≡ other.now) }
{
    match (outcome, other) {
        (Outcome::Done(values), Outcome::Done(same)) => are_same_values(
            values.items(),
            same.items(),
        ),
        (Outcome::Abort(number), Outcome::Abort(same)) => number == same,
        (Outcome::NoRow, Outcome::NoRow)
        | (Outcome::Exists, Outcome::Exists)
        | (Outcome::Range, Outcome::Range)
        | (Outcome::TooLarge, Outcome::TooLarge) => true,
        (
            Outcome::Done(_)
            | Outcome::Abort(_)
            | Outcome::NoRow
            | Outcome::Exists
            | Outcome::Range
            | Outcome::TooLarge,
            _,
        ) => false,
    }
}

pub fn is_same_reply(reply: &Reply, other: &Reply) -> bool
    ensures { IsTrue result ↔ (reply.now ≡ other.now) }
{
    match (reply, other) {
        (Reply::Ran(outcome), Reply::Ran(same)) => is_same_outcome(outcome, same),
        (Reply::Refused { inv }, Reply::Refused { inv: same }) => inv == same,
        (
            Reply::Full { which, used },
            Reply::Full {
                which: same,
                used: also,
            },
        ) => which == same && used == also,
        (Reply::Ran(_) | Reply::Refused { .. } | Reply::Full { .. }, _) => false,
    }
}
