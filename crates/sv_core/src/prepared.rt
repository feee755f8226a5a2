ghost use Rattle.std.specs.Prelude.{◌≡◌, ◌<◌, ◌≤◌, ◌≤ℤ◌, ◌^◌, ◌++◌, ◌∷◌, [], pos, length, map, IfOk, OnOk};
ghost use Rattle.sv_app.specs.Accepted.{AcceptedApp};
ghost use Rattle.sv_app.specs.Schema.{schema_of};
ghost use Rattle.sv_app.specs.Trees.{transactions_of};
ghost use Rattle.sv_effect.specs.Asked.{Asked};
ghost use Rattle.sv_effect.specs.Fits.{AllFit};
ghost use Rattle.sv_effect.specs.Follows.{Follows, TableAgrees};
ghost use Rattle.sv_effect.specs.Reads.{read_of};
ghost use Rattle.sv_effect.specs.Run.{ran_of};
ghost use Rattle.sv_effect.specs.RunChanges.{effect_of};
ghost use Rattle.sv_interp.specs.Results.{IsEmptyUnlessDone};
ghost use Rattle.sv_label.specs.Covers.{AreShaped, Covers};
ghost use Rattle.sv_listing.specs.Right.{Right};
ghost use Rattle.sv_core.specs.Document.{document_of};
ghost use Rattle.sv_core.specs.Labelled.{IsLabelBy};
ghost use Rattle.sv_core.specs.Legal.{IsSession};
ghost use Rattle.sv_core.specs.Made.{DecidedBy, IsAnswerTo, IsAnswerOn, IsFor, IsListedAt, Made};
ghost use Rattle.sv_core.specs.Sound.{IsSite, RequestFits};

use crate::docs::Doc;
use crate::entries::Reply;
use crate::numbers::tell_words;
use std::alloc::Global;
use sv_app::{Arg, Request, first_key};
use sv_check::{Verdict, check_after};
use sv_effect::{Halt, Need, Noted, Ran, Read, RowEffect, Rows};
use sv_interp::run_txn;
use sv_label::decide;
use sv_threat::Label;
use sv_value::{List, NoMemory, Site};

/// A request with the answer that was prepared for it, and all that was read of rows: the answer is right as long as these
/// reads are.
#[derive(Debug, Drop)]
pub struct Prepared {
    pub session: u16,
    pub index: u32,
    pub site: Site,
    pub request: Request,
    pub reply: Reply,
    pub effects: List<RowEffect>,
    pub needs: List<Need>,
    pub label: Label,
    pub reads: List<Read>,
}

/// What a request is answered, and its label.
#[derive(Debug, Drop)]
pub struct Answered {
    pub reply: Reply,
    pub effects: List<RowEffect>,
    pub needs: List<Need>,
    pub label: Label,
}

/// The answer to a run that breaks an invariant.
fn refused(alloc: Global, inv: u16) -> Answered
    ensures { result ≡ record { reply = Reply.Refused inv; effects = []; needs = []; label = Label.Nothing } }
{
    Answered {
        reply: Reply::Refused { inv },
        effects: List::new(alloc),
        needs: List::new(alloc),
        label: Label::Nothing,
    }
}

/// The label of a run that keeps all invariants: none where it changes nothing, else what the dictionary decides.
fn label_of(doc: &Doc, txn: u16, ran: &Ran) -> Label
    requires covers { Covers (schema_of doc.now.app.tables.items) (transactions_of doc.now.app.txns.items) doc.now.dict }
    requires shaped { AreShaped (schema_of doc.now.app.tables.items) (transactions_of doc.now.app.txns.items) txn ran.now.trace }
    requires instances { length ran.now.trace < 2 ^ 32 }
    ensures { IsLabelBy (schema_of doc.now.app.tables.items) doc.now.dict txn ran.now.trace (map effect_of ran.now.effects) result }
{
    match ran.effects.items() {
        [] => Label::Nothing,
        [_, ..] => decide(&doc.app, &doc.dict, txn, ran.trace.items()),
    }
}

/// The answer to a run, by the invariants after its changes.
#[tactic(auto, using(crate::proofs::PreparedLaws::answering))]
fn answer<R: Rows>(
    alloc: Global,
    doc: &Doc,
    txn: u16,
    ran: Ran,
    rows: &mut R,
) -> Result<Answered, Halt>
    requires accepted { AcceptedApp (schema_of doc.now.app.tables.items) (transactions_of doc.now.app.txns.items) }
    requires covers { Covers (schema_of doc.now.app.tables.items) (transactions_of doc.now.app.txns.items) doc.now.dict }
    requires rows { R.is_of rows.old (schema_of doc.now.app.tables.items) }
    requires fits { AllFit (schema_of doc.now.app.tables.items) ran.effects }
    requires few { length ran.effects ≤ 64 }
    requires empty { IsEmptyUnlessDone ran }
    requires shaped { AreShaped (schema_of doc.now.app.tables.items) (transactions_of doc.now.app.txns.items) txn ran.trace }
    requires instances { length ran.trace < 2 ^ 32 }
    ensures followed { IfOk result (λ answer. Follows (R.face rows.old) (R.face rows.new) (R.noted rows.old) (R.noted rows.new)
        (IsAnswerTo (schema_of doc.now.app.tables.items) doc.now.dict txn (ran_of ran) answer)) }
    ensures asked { Asked R.stays R.face rows.old rows.new result }
{
    match check_after(alloc, &doc.app, ran.effects.items(), rows)? {
        Verdict::Keeps => {
            tell_words(ran.effects.items());
            let label = label_of(doc, txn, &ran);
            let Ran {
                outcome,
                effects,
                needs,
                ..
            } = ran;
            Ok(Answered {
                reply: Reply::Ran(outcome),
                effects,
                needs,
                label,
            })
        }
        Verdict::Breaks { inv, .. } => Ok(refused(alloc, inv)),
    }
}

/// The answer to a request that is run with this first key.
#[tactic(auto, using(crate::proofs::PreparedLaws::running))]
fn judge<R: Rows>(
    alloc: Global,
    doc: &Doc,
    first: i64,
    request: &Request,
    rows: &mut R,
) -> Result<Answered, Halt>
    requires accepted { AcceptedApp (schema_of doc.now.app.tables.items) (transactions_of doc.now.app.txns.items) }
    requires covers { Covers (schema_of doc.now.app.tables.items) (transactions_of doc.now.app.txns.items) doc.now.dict }
    requires fits { RequestFits (document_of doc.now) request.now }
    requires rows { R.is_of rows.old (schema_of doc.now.app.tables.items) }
    requires first { first ≤ℤ pos 9223372036854775743 }
    ensures followed { IfOk result (λ answer. Follows (R.face rows.old) (R.face rows.new) (R.noted rows.old) (R.noted rows.new)
        (IsAnswerOn (document_of doc.now) doc.now.dict first request.now answer)) }
    ensures asked { Asked R.stays R.face rows.old rows.new result }
{
    let ran = run_txn(
        alloc,
        &doc.app,
        request.txn,
        request.args.items(),
        first,
        rows,
    )?;
    let answer = answer(alloc, doc, request.txn, ran, rows)?;
    Ok(answer)
}

fn copied_arg(alloc: Global, arg: &Arg) -> Result<Arg, NoMemory>
    ensures { IfOk result (λ copy. copy ≡ arg.now) }
{
    match arg {
        Arg::Int(number) => Ok(Arg::Int(*number)),
        Arg::Text(text) => Ok(Arg::Text(*text)),
        Arg::Ints(numbers) => Ok(Arg::Ints(numbers.copied(alloc)?)),
    }
}

/// Appends copies of the arguments.
fn put_args(alloc: Global, copies: &mut List<Arg>, args: &[Arg]) -> Result<(), NoMemory>
    ensures { OnOk result (copies.new ≡ copies.old ++ args.now) }
{
    match args {
        [] => Ok(()),
        [arg, rest @ ..] => {
            copies.push(copied_arg(alloc, arg)?)?;
            put_args(alloc, copies, rest)
        }
    }
}

fn copied(alloc: Global, request: &Request) -> Result<Request, NoMemory>
    ensures { IfOk result (λ copy. copy ≡ request.now) }
{
    let mut args = List::new(alloc);
    put_args(alloc, &mut args, request.args.items())?;
    Ok(Request {
        txn: request.txn,
        args,
    })
}

/// Prepares the answer to a request of a session, to be given at the site under this index: the transaction runs on the
/// rows, the invariants are tested, and the document's dictionary decides the label, with all reads noted. The dictionary
/// covers the application; where it is right, the answer is. The rows' tables agree with the reads, where they are told.
/// It halts for a missing answer only where the rows don't know it, and they stay as they
/// were.
pub fn prepare<R: Rows>(
    alloc: Global,
    doc: &Doc,
    session: u16,
    site: Site,
    index: u32,
    request: &Request,
    rows: &mut R,
) -> Result<Prepared, Halt>
    requires session { IsSession session }
    requires site { IsSite (document_of doc.now) site }
    requires accepted { AcceptedApp (schema_of doc.now.app.tables.items) (transactions_of doc.now.app.txns.items) }
    requires covers { Covers (schema_of doc.now.app.tables.items) (transactions_of doc.now.app.txns.items) doc.now.dict }
    requires fits { RequestFits (document_of doc.now) request.now }
    requires listed { IsListedAt (document_of doc.now) session index request.now }
    requires rows { R.is_of rows.old (schema_of doc.now.app.tables.items) }
    ensures given { IfOk result (IsFor session site index request.now) }
    ensures made { Right (schema_of doc.now.app.tables.items) (transactions_of doc.now.app.txns.items) doc.now.dict → IfOk result (Made (document_of doc.now)) }
    ensures decided { IfOk result (DecidedBy doc.now) }
    ensures honest { IfOk result (λ p. TableAgrees (R.face rows.old).tables (map read_of p.reads)) }
    ensures asked { Asked R.stays R.face rows.old rows.new result }
{
    let request = copied(alloc, request)?;
    let mut noted = Noted::new(alloc, rows);
    let end = judge(alloc, doc, first_key(session, index), &request, &mut noted);
    let reads = noted.into_reads();
    let Answered {
        reply,
        effects,
        needs,
        label,
    } = end?;
    Ok(Prepared {
        session,
        index,
        site,
        request,
        reply,
        effects,
        needs,
        label,
        reads: List::from_vec(reads),
    })
}
