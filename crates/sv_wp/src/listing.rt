//! The atoms of a change in forms.

ghost use Rattle.std.specs.Prelude.{◌≡◌, ◌≤◌, ◌+◌, [], ◌∷◌, false, map, length, slice_get, IfOk, IfErr, IfSome, bytes_eq};
ghost use Rattle.std.specs.List.{flat_map, list_any};
ghost use Rattle.std.specs.Option.{option_copied, option_map};
ghost use Rattle.sv_app.specs.Accepted.{AcceptedSchema};
ghost use Rattle.sv_app.specs.Schema.{schema_of, invariant_of};
ghost use Rattle.sv_linear.specs.Atoms.{ByTest, is_never, never_where, list_tests, for_each, groups, atoms, is_wide_change};
ghost use Rattle.sv_linear.specs.Codes.{atom_of, effect_of, test_of, write_of};
ghost use Rattle.sv_wp.specs.Answers.{IsAnswer, IsAnswerBySome};
ghost use Rattle.sv_wp.specs.Cases.{asked_in};
ghost use Rattle.sv_wp.specs.Listing.{
  asked_by,
  group_by,
  groups_by,
  is_check,
  IsShortTest,
  IsStopIn,
  tests_in,
  tests_from,
  asked_of,
  Lists,
  ListsAsked,
};

use crate::cases::case_test;
use crate::gains::{GainTeller, TableGains};
use crate::held::{is_held, is_never};
use crate::questions::{Question, reason_by};
use crate::writes::{grows, is_plain_change, is_remove, touches, write_to};
use std::alloc::Global;
use sv_app::{App, Check, Inv, InvBody, Reason, Table};
use sv_linear::{Atom, FormStop, SymEffect, SymVal, SymWrite, Test};
use sv_threat::Case;
use sv_value::{List, NoMemory, Text};

/// The cases of a check, in order.
const CASES: [Case; 5] = [
    Case::BothLose,
    Case::HiWins,
    Case::LoWins,
    Case::BothWin,
    Case::FromNothing,
];

/// The questions, in the order of their reasons.
const IN_ORDER: [Question; 5] = [
    Question::Unique,
    Question::Child,
    Question::Parent,
    Question::Check,
    Question::List,
];

/// A change that is asked about: the tables, its place, and what tells greatest differences.
#[derive(Drop)]
struct Subject<'a, G> {
    alloc: Global,
    tables: &'a [Table],
    e: &'a SymEffect,
    place: u32,
    gains: &'a G,
}

fn never_if(threatens: bool) -> Option<Test>
    ensures is { map ByTest (tests_in (option_map test_of result)) ≡ never_where threatens }
    ensures short { IfSome result (λ test. IsShortTest (test_of test)) }
{
    if threatens { Some(Test::Never) } else { None }
}

fn has(texts: &[Text], text: &[u8]) -> bool
    ensures { result ≡ list_any (bytes_eq text.now) texts.now }
{
    texts.iter().any(|one| text == one.bytes())
}

/// What the list of the invariant with this number asks of a write: nothing of a text that it has.
fn list_test(number: u16, texts: &[Text], write: Option<&SymWrite>) -> Option<Test>
    ensures is { tests_in (option_map test_of result) ≡ list_tests number texts.now (option_map write_of (option_copied write.entry)) }
    ensures short { IfSome result (λ test. IsShortTest (test_of test)) }
{
    match write {
        None | Some(SymWrite::Delta(_)) => None,
        Some(SymWrite::Set(SymVal::Num(_))) => Some(Test::Never),
        Some(SymWrite::Set(SymVal::TextIs(text))) => {
            if has(texts, text.bytes()) {
                None
            } else {
                Some(Test::Never)
            }
        }
        Some(SymWrite::Set(SymVal::TextSym(symbol))) => Some(Test::InList {
            sym: *symbol,
            inv: number,
        }),
    }
}

/// What is asked about an invariant of the table with this number, where it is no check.
fn asked_test<G: GainTeller>(
    subject: &Subject<G>,
    question: Question,
    table: u16,
    inv: &Inv,
) -> Option<Test>
    requires { is_check question ≡ false }
    ensures is { map ByTest (tests_in (option_map test_of result)) ≡ asked_by question (G.told subject.now.gains.now) (schema_of subject.now.tables.now) (effect_of subject.now.e.now) table (invariant_of inv.now) }
    ensures short { IfSome result (λ test. IsShortTest (test_of test)) }
{
    let e = subject.e;
    match (question, &inv.body) {
        (Question::Unique, InvBody::Unique { col }) => never_if(
            e.table == table && touches(e, col),
        ),
        (
            Question::Child,
            InvBody::Refers {
                col,
                table: parent,
                ..
            },
        ) => never_if(!grows(subject.tables, parent.num) && e.table == table && touches(e, col)),
        (Question::Parent, InvBody::Refers { table: parent, .. }) => {
            never_if(e.table == parent.num && is_remove(e.act))
        }
        (Question::List, InvBody::List { col, texts }) => {
            if e.table == table {
                list_test(
                    inv.number,
                    texts.as_slice(),
                    write_to(col.num, e.writes.items()),
                )
            } else {
                None
            }
        }
        (Question::Unique, InvBody::Check(_) | InvBody::List { .. } | InvBody::Refers { .. })
        | (
            Question::Child | Question::Parent,
            InvBody::Check(_) | InvBody::List { .. } | InvBody::Unique { .. },
        )
        | (
            Question::Check,
            InvBody::Check(_)
            | InvBody::List { .. }
            | InvBody::Unique { .. }
            | InvBody::Refers { .. },
        )
        | (Question::List, InvBody::Check(_) | InvBody::Unique { .. } | InvBody::Refers { .. }) => {
            None
        }
    }
}

/// Lists a test, if there is one, and answers whether nothing meets it.
fn put_test(
    place: u32,
    reason: Reason,
    test: Option<Test>,
    atoms: &mut List<Atom>,
) -> Result<bool, NoMemory>
    requires { IfSome test (λ t. IsShortTest (test_of t)) }
    ensures { IfOk result (λ ended. ListsAsked place reason [] (map ByTest (tests_in (option_map test_of test))) (map atom_of atoms.old) (map atom_of atoms.new) ended) }
{
    match test {
        None => Ok(false),
        Some(test) => {
            let ended = is_never(&test);
            atoms.push(Atom {
                place,
                reason,
                test,
            })?;
            Ok(ended)
        }
    }
}

/// The same of a test that may be listed already for this reason, behind so many atoms for others.
fn put_once(
    place: u32,
    reason: Reason,
    test: Option<Test>,
    start: usize,
    atoms: &mut List<Atom>,
) -> Result<bool, NoMemory>
    requires within { start ≤ length atoms.old }
    requires short { IfSome test (λ t. IsShortTest (test_of t)) }
    requires going { list_any is_never (tests_from start atoms.old) ≡ false }
    ensures listed { IfOk result (λ ended. ListsAsked place reason (tests_from start atoms.old) (map ByTest (tests_in (option_map test_of test))) (map atom_of atoms.old) (map atom_of atoms.new) ended) }
{
    match test {
        None => Ok(false),
        Some(test) => {
            if is_held(&test, &atoms.items()[start..]) {
                return Ok(false);
            }
            put_test(place, reason, Some(test), atoms)
        }
    }
}

/// Lists the test of a case of a check of the change's table.
#[tactic(auto, using(crate::proofs::ArmLaws::casing))]
fn put_case<G: GainTeller>(
    subject: &Subject<G>,
    reason: Reason,
    check: &Check,
    case: Case,
    start: usize,
    atoms: &mut List<Atom>,
) -> Result<bool, FormStop>
    requires within { start ≤ length atoms.old }
    requires going { list_any is_never (tests_from start atoms.old) ≡ false }
    ensures listed { IfOk result (λ ended. ListsAsked subject.now.place reason (tests_from start atoms.old) (asked_in (G.told subject.now.gains.now subject.now.e.now.table) (effect_of subject.now.e.now) check.now case) (map atom_of atoms.old) (map atom_of atoms.new) ended) }
    ensures wide { IfErr result (IsStopIn (asked_in (G.told subject.now.gains.now subject.now.e.now.table) (effect_of subject.now.e.now) check.now case)) }
{
    match case_test(subject.alloc, subject.gains, subject.e, check, case) {
        Err(stop) => Err(stop),
        Ok(test) => Ok(put_once(subject.place, reason, test, start, atoms)?),
    }
}

/// Lists the tests of these cases of a check of the change's table.
fn put_cases<G: GainTeller>(
    subject: &Subject<G>,
    reason: Reason,
    check: &Check,
    cases: &[Case],
    start: usize,
    atoms: &mut List<Atom>,
) -> Result<bool, FormStop>
    requires within { start ≤ length atoms.old }
    requires going { list_any is_never (tests_from start atoms.old) ≡ false }
    ensures listed { IfOk result (λ ended. ListsAsked subject.now.place reason (tests_from start atoms.old) (flat_map (asked_in (G.told subject.now.gains.now subject.now.e.now.table) (effect_of subject.now.e.now) check.now) cases.now) (map atom_of atoms.old) (map atom_of atoms.new) ended) }
    ensures wide { IfErr result (IsStopIn (flat_map (asked_in (G.told subject.now.gains.now subject.now.e.now.table) (effect_of subject.now.e.now) check.now) cases.now)) }
{
    match cases {
        [] => Ok(false),
        [case, rest @ ..] => match put_case(subject, reason, check, *case, start, atoms) {
            Err(stop) => Err(stop),
            Ok(true) => Ok(true),
            Ok(false) => put_cases(subject, reason, check, rest, start, atoms),
        },
    }
}

/// Lists what is asked about an invariant of the table with this number.
fn put_group<G: GainTeller>(
    subject: &Subject<G>,
    question: Question,
    table: u16,
    inv: &Inv,
    atoms: &mut List<Atom>,
) -> Result<bool, FormStop>
    ensures listed { IfOk result (λ ended. Lists subject.now.place (group_by question (G.told subject.now.gains.now) (schema_of subject.now.tables.now) (effect_of subject.now.e.now) table (invariant_of inv.now) ∷ []) (map atom_of atoms.old) (map atom_of atoms.new) ended) }
    ensures wide { IfErr result (IsStopIn (asked_of (group_by question (G.told subject.now.gains.now) (schema_of subject.now.tables.now) (effect_of subject.now.e.now) table (invariant_of inv.now) ∷ []))) }
{
    let reason = reason_by(question, inv.number);
    match question {
        Question::Unique | Question::Child | Question::Parent | Question::List => {
            let test = asked_test(subject, question, table, inv);
            Ok(put_test(subject.place, reason, test, atoms)?)
        }
        Question::Check => match &inv.body {
            InvBody::Check(check) => {
                if subject.e.table == table {
                    put_cases(subject, reason, check, &CASES, atoms.len(), atoms)
                } else {
                    Ok(false)
                }
            }
            InvBody::List { .. } | InvBody::Unique { .. } | InvBody::Refers { .. } => Ok(false),
        },
    }
}

/// Lists what is asked about these invariants of the table with this number.
fn put_invs<G: GainTeller>(
    subject: &Subject<G>,
    question: Question,
    table: u16,
    invs: &[Inv],
    atoms: &mut List<Atom>,
) -> Result<bool, FormStop>
    ensures listed { IfOk result (λ ended. Lists subject.now.place (map (group_by question (G.told subject.now.gains.now) (schema_of subject.now.tables.now) (effect_of subject.now.e.now) table) (map invariant_of invs.now)) (map atom_of atoms.old) (map atom_of atoms.new) ended) }
    ensures wide { IfErr result (IsStopIn (asked_of (map (group_by question (G.told subject.now.gains.now) (schema_of subject.now.tables.now) (effect_of subject.now.e.now) table) (map invariant_of invs.now)))) }
{
    match invs {
        [] => Ok(false),
        [inv, rest @ ..] => {
            match put_group(subject, question, table, inv, atoms) {
                Err(stop) => Err(stop),
                Ok(true) => Ok(true),
                Ok(false) => put_invs(subject, question, table, rest, atoms),
            }
        }
    }
}

/// Lists what is asked about the invariants of these tables, which are numbered from this one.
fn put_tables<G: GainTeller>(
    subject: &Subject<G>,
    question: Question,
    table: u16,
    tables: &[Table],
    atoms: &mut List<Atom>,
) -> Result<bool, FormStop>
    requires { table + length tables.now ≤ 16 }
    ensures listed { IfOk result (λ ended. Lists subject.now.place (for_each (group_by question (G.told subject.now.gains.now) (schema_of subject.now.tables.now) (effect_of subject.now.e.now)) table (schema_of tables.now)) (map atom_of atoms.old) (map atom_of atoms.new) ended) }
    ensures wide { IfErr result (IsStopIn (asked_of (for_each (group_by question (G.told subject.now.gains.now) (schema_of subject.now.tables.now) (effect_of subject.now.e.now)) table (schema_of tables.now)))) }
{
    match tables {
        [] => Ok(false),
        [first, rest @ ..] => {
            match put_invs(subject, question, table, first.invs.as_slice(), atoms) {
                Err(stop) => Err(stop),
                Ok(true) => Ok(true),
                Ok(false) => put_tables(subject, question, table + 1, rest, atoms),
            }
        }
    }
}

/// Lists what these questions ask.
fn put_questions<G: GainTeller>(
    subject: &Subject<G>,
    questions: &[Question],
    atoms: &mut List<Atom>,
) -> Result<bool, FormStop>
    requires { length subject.now.tables.now ≤ 16 }
    ensures listed { IfOk result (λ ended. Lists subject.now.place (groups_by questions.now (G.told subject.now.gains.now) (schema_of subject.now.tables.now) (effect_of subject.now.e.now)) (map atom_of atoms.old) (map atom_of atoms.new) ended) }
    ensures wide { IfErr result (IsStopIn (asked_of (groups_by questions.now (G.told subject.now.gains.now) (schema_of subject.now.tables.now) (effect_of subject.now.e.now)))) }
{
    match questions {
        [] => Ok(false),
        [question, rest @ ..] => {
            match put_tables(subject, *question, 0, subject.tables, atoms) {
                Err(stop) => Err(stop),
                Ok(true) => Ok(true),
                Ok(false) => put_questions(subject, rest, atoms),
            }
        }
    }
}

/// Lists all that is asked.
fn put_all<G: GainTeller>(subject: &Subject<G>, atoms: &mut List<Atom>) -> Result<bool, FormStop>
    requires { length subject.now.tables.now ≤ 16 }
    ensures listed { IfOk result (λ ended. Lists subject.now.place (groups (G.told subject.now.gains.now) (schema_of subject.now.tables.now) (effect_of subject.now.e.now)) (map atom_of atoms.old) (map atom_of atoms.new) ended) }
    ensures wide { IfErr result (IsStopIn (asked_of (groups (G.told subject.now.gains.now) (schema_of subject.now.tables.now) (effect_of subject.now.e.now)))) }
{
    let plain = never_if(is_plain_change(subject.tables, subject.e));
    if put_test(subject.place, Reason::Plain, plain, atoms)? {
        Ok(true)
    } else {
        put_questions(subject, &IN_ORDER, atoms)
    }
}

/// The atoms of a change that has this place in its instance, in the order of their reasons and up to the first that
/// nothing meets. `gains` tells the greatest differences.
///
/// # Errors
///
/// `Wide` exactly where a case of a check that is asked for before anything that nothing meets has a form on its left
/// side that leaves 64 bits; a case without a greatest difference needs no form.
pub fn atoms_by<G: GainTeller>(
    alloc: Global,
    app: &App,
    e: &SymEffect,
    place: u32,
    gains: &G,
) -> Result<List<Atom>, FormStop>
    requires { AcceptedSchema (schema_of app.now.tables.items) }
    ensures { IsAnswer (G.told gains.now) (schema_of app.now.tables.items) (effect_of e.now) place result }
{
    let subject = Subject {
        alloc,
        tables: app.tables.as_slice(),
        e,
        place,
        gains,
    };
    let mut atoms = List::new(alloc);
    put_all(&subject, &mut atoms)?;
    Ok(atoms)
}

/// The same over the greatest differences of the application's tables, which it finds.
pub fn atoms(alloc: Global, app: &App, e: &SymEffect, place: u32) -> Result<List<Atom>, FormStop>
    requires { AcceptedSchema (schema_of app.now.tables.items) }
    ensures { IsAnswerBySome (schema_of app.now.tables.items) (effect_of e.now) place result }
{
    let gains = TableGains::of(alloc, app)?;
    atoms_by(alloc, app, e, place, &gains)
}
