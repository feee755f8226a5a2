//! The label that a dictionary decides.

ghost use Rattle.std.specs.Prelude.{◌≡◌, ◌<◌, ◌^◌, length, IsSome};
ghost use Rattle.sv_app.specs.Schema.{schema_of};
ghost use Rattle.sv_app.specs.Trees.{transactions_of};
ghost use Rattle.sv_label.specs.Covers.{Covers, AreShaped};
ghost use Rattle.sv_label.specs.Decided.{IsDecided};
ghost use Rattle.sv_label.specs.Failures.{IsFirstAt};
ghost use Rattle.sv_label.specs.Groups.{found};

use crate::dictionaries::Dictionary;
use crate::failures::{Failed, first_failed};
use sv_app::{App, Instance};
use sv_threat::Label;

/// The label of a run with this trace: red where an atom that is left to the run is false on the tape of its instance,
/// with the first such by instance, place and order of listing, and else blue. Instances count from 0. The dictionary
/// covers the application, and the instances, fewer than 2^32, are shaped.
pub fn decide(app: &App, dict: &Dictionary, txn: u16, trace: &[Instance]) -> Label
    requires covers { Covers (schema_of app.now.tables.items) (transactions_of app.now.txns.items) dict.now }
    requires shaped { AreShaped (schema_of app.now.tables.items) (transactions_of app.now.txns.items) txn trace.now }
    requires few { length trace.now < 2 ^ 32 }
    ensures { IsDecided (schema_of app.now.tables.items) dict.now txn trace.now result }
{
    for number in 0..trace.len() {
        if let Some(failed) = failed_in(app, dict, txn, &trace[number]) {
            return Label::Red {
                instance: number as u32,
                place: failed.place,
                reason: failed.reason,
            };
        }
    }
    Label::Blue
}

/// The first atom that is false in one instance.
fn failed_in(app: &App, dict: &Dictionary, txn: u16, instance: &Instance) -> Option<Failed>
    requires { IsSome (found dict.now txn instance.now.unit instance.now.choices) }
    ensures { IsFirstAt (schema_of app.now.tables.items) instance.now.tape (found dict.now txn instance.now.unit instance.now.choices) result }
{
    match dict.look(txn, instance.unit, instance.choices.items()) {
        None => unreachable!(),
        Some(template) => first_failed(app, template, instance.tape.items()),
    }
}
