//! Whether a change breaks a check on a row that is tried.

ghost use Rattle.std.specs.Prelude.{◌≡◌, ◌++◌, ◌∷◌, [], map, IfOk, OnOk};
ghost use Rattle.std.specs.List.{list_any};
ghost use Rattle.sv_app.specs.Schema.{declaration_of, invariant_of, rule_of};
ghost use Rattle.sv_effect.specs.RunChanges.{effect_of, merge_of};
ghost use Rattle.sv_plain_threats.specs.Tries.{
  is_last,
  is_tried,
  is_broken,
  breaks_with,
  breaks_from,
  breaks_near,
  breaks,
  side_in,
  sides_in,
  sides_of,
};

use crate::guesses::{Guess, all_guesses};
use crate::rows::{is_guessed, is_met_after, meets_all};
use crate::writes::{is_draw, is_insert};
use std::alloc::Global;
use sv_app::{Check, Column, Ident, Inv, InvBody, Merge, Table};
use sv_effect::RowEffect;
use sv_value::NoMemory;

/// A change, the table that it is of, and one of the table's checks.
#[derive(Clone, Copy)]
pub struct Question<'a> {
    pub table: &'a Table,
    pub change: &'a RowEffect,
    pub check: &'a Check,
}

/// Whether the last writer of the column wins.
fn is_last(columns: &[Column], column: u16) -> bool
    ensures { result ≡ is_last (merge_of columns.now column) }
{
    match columns.get(column as usize) {
        Some(column) => column.merge == Merge::Lww,
        None => false,
    }
}

/// Whether the guess is tried for the column: a write loses only where the last writer wins.
fn is_tried(table: &Table, column: u16, guess: Guess) -> bool
    ensures { result ≡ is_tried (declaration_of table.now) column guess }
{
    guess.wins || is_last(table.columns.as_slice(), column)
}

/// Whether the row meets all checks before the change, and doesn't meet this one after it.
fn is_broken(question: &Question<'_>, row: &[(u16, Guess)]) -> bool
    ensures { result ≡ is_broken (declaration_of question.now.table.now) (effect_of question.now.change.now) question.now.check.now row.now }
{
    meets_all(row, question.table.invs.as_slice())
        && !is_met_after(row, question.change, question.check)
}

/// The row with one guess more behind it.
fn with_guess(
    alloc: Global,
    row: &[(u16, Guess)],
    column: u16,
    guess: Guess,
) -> Result<Vec<(u16, Guess)>, NoMemory>
    ensures { IfOk result (λ longer. longer.items ≡ row.now ++ (column, guess) ∷ []) }
{
    let mut longer = Vec::from_slice(alloc, row)?;
    longer.push((column, guess))?;
    Ok(longer)
}

/// Whether some guesses for these columns, behind those of the row and this one, break the check, if it is tried.
#[cycle(search)]
fn is_broken_with(
    alloc: Global,
    question: &Question<'_>,
    guesses: &[Guess],
    columns: &[u16],
    row: &[(u16, Guess)],
    column: u16,
    guess: Guess,
) -> Result<bool, NoMemory>
    ensures { IfOk result (λ found. found ≡ breaks_with (declaration_of question.now.table.now) (effect_of question.now.change.now) question.now.check.now guesses.now columns.now row.now column guess) }
{
    if !is_tried(question.table, column, guess) {
        return Ok(false);
    }
    let longer = with_guess(alloc, row, column, guess)?;
    is_broken_from(alloc, question, guesses, columns, &longer)
}

/// The same with some guess.
#[cycle(search)]
fn is_broken_by(
    alloc: Global,
    question: &Question<'_>,
    guesses: &[Guess],
    columns: &[u16],
    row: &[(u16, Guess)],
    column: u16,
) -> Result<bool, NoMemory>
    ensures { IfOk result (λ found. found ≡ list_any (breaks_with (declaration_of question.now.table.now) (effect_of question.now.change.now) question.now.check.now guesses.now columns.now row.now column) guesses.now) }
{
    for guess in guesses {
        if is_broken_with(alloc, question, guesses, columns, row, column, *guess)? {
            return Ok(true);
        }
    }
    Ok(false)
}

/// Whether some guesses for these columns, behind those of the row, break the check.
#[cycle(search)]
fn is_broken_from(
    alloc: Global,
    question: &Question<'_>,
    guesses: &[Guess],
    columns: &[u16],
    row: &[(u16, Guess)],
) -> Result<bool, NoMemory>
    ensures { IfOk result (λ found. found ≡ breaks_from (declaration_of question.now.table.now) (effect_of question.now.change.now) question.now.check.now guesses.now columns.now row.now) }
{
    match columns {
        [] => Ok(is_broken(question, row)),
        [column, rest @ ..] => {
            if is_guessed(row, *column) {
                is_broken_from(alloc, question, guesses, rest, row)
            } else {
                is_broken_by(alloc, question, guesses, rest, row, *column)
            }
        }
    }
}

/// Appends the number of a side.
fn put_side(sides: &mut Vec<u16>, side: &Option<Ident>) -> Result<(), NoMemory>
    ensures { OnOk result (sides.new.items ≡ sides.old.items ++ side_in side.now) }
{
    if let Some(column) = side {
        sides.push(column.num)?;
    }
    Ok(())
}

/// Appends the columns that a rule names, if it is a check.
fn put_sides_in(sides: &mut Vec<u16>, body: &InvBody) -> Result<(), NoMemory>
    ensures { OnOk result (sides.new.items ≡ sides.old.items ++ sides_in (rule_of body.now)) }
{
    match body {
        InvBody::Check(check) => {
            put_side(sides, &check.hi)?;
            put_side(sides, &check.lo)
        }
        InvBody::List { .. } | InvBody::Unique { .. } | InvBody::Refers { .. } => Ok(()),
    }
}

/// Appends the columns that the checks among the invariants name.
fn put_sides(sides: &mut Vec<u16>, invs: &[Inv]) -> Result<(), NoMemory>
    ensures { OnOk result (sides.new.items ≡ sides.old.items ++ sides_of (map invariant_of invs.now)) }
{
    match invs {
        [] => Ok(()),
        [inv, rest @ ..] => {
            put_sides_in(sides, &inv.body)?;
            put_sides(sides, rest)
        }
    }
}

/// Whether the change breaks the check on some row that met all checks.
fn breaks_near(alloc: Global, question: &Question<'_>, reach: u8) -> Result<bool, NoMemory>
    ensures { IfOk result (λ found. found ≡ breaks_near reach (declaration_of question.now.table.now) (effect_of question.now.change.now) question.now.check.now) }
{
    if is_draw(question.change.act) {
        return Ok(false);
    }
    let guesses = all_guesses(alloc, reach)?;
    let mut sides = Vec::new(alloc);
    put_sides(&mut sides, question.table.invs.as_slice())?;
    is_broken_from(alloc, question, &guesses, &sides, &[])
}

/// Whether the change breaks the check on a row that met all checks, or makes a row from zeros that breaks it.
pub fn breaks(alloc: Global, question: &Question<'_>, reach: u8) -> Result<bool, NoMemory>
    ensures { IfOk result (λ found. found ≡ breaks reach (declaration_of question.now.table.now) (effect_of question.now.change.now) question.now.check.now) }
{
    if is_insert(question.change.act) && !is_met_after(&[], question.change, question.check) {
        return Ok(true);
    }
    breaks_near(alloc, question, reach)
}
