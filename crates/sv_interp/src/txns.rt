ghost use Rattle.std.specs.Prelude.{◌≡◌, ◌<◌, ◌≤ℤ◌, ◌^◌, pos, length, IfOk, List as Items, map, slice_get};
ghost use Rattle.sv_app.specs.Accepted.{AcceptedApp};
ghost use Rattle.sv_app.specs.Schema.{Declaration, schema_of};
ghost use Rattle.sv_app.specs.Tables.{Tables};
ghost use Rattle.sv_app.specs.Trees.{block_of, transactions_of};
ghost use Rattle.sv_app.specs.Units.{loop_variables};
ghost use Rattle.sv_effect.specs.Asked.{Asked};
ghost use Rattle.sv_effect.specs.Follows.{TableAgrees};
ghost use Rattle.sv_effect.specs.Agrees.{Agrees};
ghost use Rattle.sv_effect.specs.Reads.{read_of};
ghost use Rattle.sv_effect.specs.Run.{Goes, Ends, argument, body_of, started, result_of, ran_of};
ghost use Rattle.sv_interp.specs.Machine.{Learns, stand};
ghost use Rattle.sv_interp.specs.Results.{IsRunOf, IsRunOfBody, BodyFits, FitsWhereRunnable, IsEmpty};
ghost use Rattle.sv_interp.specs.Results.{IsEmptyUnlessDone};

use crate::loops::put_loops;
use crate::made::Made;
use crate::needs::needs;
use crate::runs::run_all;
use crate::scopes::Scope;
use crate::settings::Setting;
use crate::states::{State, beginning, instance_of};
use std::alloc::Global;
use sv_app::{App, Arg, Stmt, Table};
use sv_effect::{Halt, Noted, Outcome, Ran, Read, Rows, prepend};
use sv_value::{List, NoMemory, Val};

fn argument(arg: &Arg) -> Val
    ensures { result ≡ argument arg.now }
{
    match arg {
        Arg::Int(number) => Val::Int(*number),
        Arg::Text(text) => Val::Text(*text),
        Arg::Ints(_) => Val::Int(0),
    }
}

fn arguments(alloc: Global, args: &[Arg]) -> Result<Vec<Val>, NoMemory>
    ensures { IfOk result (λ vals. vals.items ≡ map argument args.now) }
{
    let mut vals = Vec::new(alloc);
    for arg in args {
        vals.push(argument(arg))?;
    }
    Ok(vals)
}

/// Where a run begins.
fn start(alloc: Global, args: &[Arg]) -> Result<State, NoMemory>
    ensures { IfOk result (λ state. (t : Tables) → stand t state ≡ started args.now t) }
{
    let scope = Scope {
        values: arguments(alloc, args)?,
        rows: Vec::new(alloc),
        before: List::new(alloc),
        progress: beginning(alloc, 0, 0),
    };
    Ok(State {
        scope,
        own: Vec::new(alloc),
        effects: Made::none(alloc),
        replies: List::new(alloc),
        instances: List::new(alloc),
    })
}

/// What a run comes to that wasn't ended before.
fn finish(alloc: Global, tables: &[Table], state: State) -> Result<Ran, NoMemory>
    ensures result { IfOk result (λ ran. (t : Tables) → result_of (schema_of tables.now) (Goes (stand t state))
        ≡ ran_of ran) }
    ensures instances { IfOk result (λ ran. length ran.trace < 2 ^ 32) }
    ensures empty { IfOk result IsEmptyUnlessDone }
{
    let State {
        scope,
        effects,
        replies,
        instances,
        ..
    } = state;
    if instances.len() >= 4_294_967_295 {
        return Err(NoMemory);
    }
    let effects = effects.into_list();
    let needs = needs(alloc, tables, effects.items())?;
    let trace = prepend(instance_of(scope.progress), instances)?;
    Ok(Ran {
        outcome: Outcome::Done(replies),
        effects,
        needs,
        trace,
    })
}

/// What a run comes to that was ended.
fn ended(alloc: Global, outcome: Outcome) -> Ran
    ensures result { (schema : Items Declaration) → result_of schema (Ends outcome) ≡ ran_of result }
    ensures instances { length result.trace < 2 ^ 32 }
    ensures empty { IsEmpty result }
{
    Ran {
        outcome,
        effects: List::new(alloc),
        needs: List::new(alloc),
        trace: List::new(alloc),
    }
}

/// Runs statements from the beginning.
#[tactic(auto, using(crate::proofs::TxnLaws::endings))]
pub fn run_body<R: Rows>(setting: &Setting<'_>, body: &[Stmt], rows: &mut R) -> Result<Ran, Halt>
    requires loops { setting.now.loops.now ≡ loop_variables (block_of body.now) }
    ensures followed { IfOk result (λ ran. Learns R.face R.noted rows.old rows.new
        (IsRunOfBody setting.now (block_of body.now) ran)) }
    ensures asked { Asked R.stays R.face rows.old rows.new result }
    ensures fits { IfOk result (BodyFits (R.is_of rows.old) setting.now (block_of body.now)) }
    ensures instances { IfOk result (λ ran. length ran.trace < 2 ^ 32) }
    ensures empty { IfOk result IsEmptyUnlessDone }
{
    let mut state = start(setting.alloc, setting.args)?;
    match run_all(setting, body, &mut state, rows)? {
        Some(outcome) => {
            let ran = ended(setting.alloc, outcome);
            Ok(ran)
        }
        None => {
            let ran = finish(setting.alloc, setting.tables, state)?;
            Ok(ran)
        }
    }
}

/// The statements of a transaction.
fn body_of(app: &App, number: u16) -> &[Stmt]
    ensures { block_of result.now ≡ body_of (slice_get (transactions_of app.now.txns.items) number) }
{
    match app.txns.get(number as usize) {
        Some(txn) => txn.body.as_slice(),
        None => &[],
    }
}

/// Runs the transaction of that number with these arguments, on rows that it asks for; `first` is the first key that
/// it draws. What it comes to is what the run comes to on whole tables, on all tables that agree with what the rows
/// answered; and it halts for a missing answer only where the rows don't know it. Whatever the rows answered, a run
/// that isn't done has no changes, needs or instances; and where the rows are of the application, this was accepted
/// and the arguments fit, each instance of the trace is shaped, and there are at most 64 changes, each of which fits
/// the schema. There are fewer than 2^32 instances; a run that would have more is told as want of memory.
pub fn run_txn<R: Rows>(
    alloc: Global,
    app: &App,
    txn: u16,
    args: &[Arg],
    first: i64,
    rows: &mut R,
) -> Result<Ran, Halt>
    requires accepted { AcceptedApp (schema_of app.now.tables.items) (transactions_of app.now.txns.items) }
    requires first { first ≤ℤ pos 9223372036854775743 }
    ensures followed { IfOk result (λ ran. Learns R.face R.noted rows.old rows.new
        (IsRunOf app.now txn args.now first ran)) }
    ensures asked { Asked R.stays R.face rows.old rows.new result }
    ensures empty { IfOk result IsEmptyUnlessDone }
    ensures fits { IfOk result (FitsWhereRunnable (R.is_of rows.old) app.now txn args.now) }
    ensures instances { IfOk result (λ ran. length ran.trace < 2 ^ 32) }
{
    let body = body_of(app, txn);
    let mut loops = Vec::new(alloc);
    put_loops(&mut loops, body)?;
    let setting = Setting {
        alloc,
        tables: &app.tables,
        args,
        first,
        loops: loops.as_slice(),
    };
    let ran = run_body(&setting, body, rows)?;
    Ok(ran)
}

/// Runs the transaction as `run_txn` does, and hands back what was read as well, in order: fewer than 2^32 reads. The
/// rows' tables agree with it, where these are told, and on all tables that agree with it the run comes to that.
pub fn run_noted<R: Rows>(
    alloc: Global,
    app: &App,
    txn: u16,
    args: &[Arg],
    first: i64,
    rows: &mut R,
) -> Result<(Ran, Vec<Read>), Halt>
    requires accepted { AcceptedApp (schema_of app.now.tables.items) (transactions_of app.now.txns.items) }
    requires first { first ≤ℤ pos 9223372036854775743 }
    ensures ran { IfOk result (λ end. (t : Tables) → Agrees t (map read_of end.1.items)
        → IsRunOf app.now txn args.now first end.0 t) }
    ensures honest { IfOk result (λ end. TableAgrees (R.face rows.old).tables (map read_of end.1.items)) }
    ensures few { IfOk result (λ end. length end.1.items < 2 ^ 32) }
    ensures asked { Asked R.stays R.face rows.old rows.new result }
    ensures empty { IfOk result (λ end. IsEmptyUnlessDone end.0) }
    ensures fits { IfOk result (λ end. FitsWhereRunnable (R.is_of rows.old) app.now txn args.now end.0) }
    ensures instances { IfOk result (λ end. length end.0.trace < 2 ^ 32) }
{
    let mut noted = Noted::new(alloc, rows);
    let end = run_txn(alloc, app, txn, args, first, &mut noted);
    let reads = noted.into_reads();
    let ran = end?;
    Ok((ran, reads))
}
