ghost use Rattle.std.specs.Prelude.{◌≡◌, []};
ghost use Rattle.sv_app.specs.Trees.{term_of, terms_of, sets_of};
ghost use Rattle.sv_reader.specs.Reading.{Reads, is_next, turns_at, keep};
ghost use Rattle.sv_txn_reader.specs.Reading.{keys_at, index_at, setting_at, item_step, item_turn, list_of, value_at, set_at, listed_at};

use crate::terms::expr;
use std::alloc::Global;
use sv_app::{Expr, Ident};
use sv_lex::Mark;
use sv_reader::{ReadStop, Reader};

/// Reads one or two keys.
#[tactic(auto, unfolding(crate::specs::Reading::keys_at))]
fn keys(alloc: Global, reader: &mut Reader<'_>) -> Result<Vec<Expr>, ReadStop>
    ensures { Reads (λ keys. terms_of keys.items) result reader.new.rest.now (keys_at reader.old.rest.now) }
{
    let mut keys = Vec::new(alloc);
    let first = expr(alloc, reader)?;
    keys.push(first)?;
    if reader.is_mark(Mark::Comma) {
        reader.mark(Mark::Comma)?;
        let second = expr(alloc, reader)?;
        keys.push(second)?;
    }
    Ok(keys)
}

/// Reads the keys of a row, between brackets.
#[tactic(auto, unfolding(crate::specs::Reading::index_at))]
pub fn index(alloc: Global, reader: &mut Reader<'_>) -> Result<Vec<Expr>, ReadStop>
    ensures { Reads (λ keys. terms_of keys.items) result reader.new.rest.now (index_at reader.old.rest.now) }
{
    reader.mark(Mark::LeftBracket)?;
    let keys = keys(alloc, reader)?;
    reader.mark(Mark::RightBracket)?;
    Ok(keys)
}

#[tactic(auto, unfolding(crate::specs::Reading::item_step, crate::specs::Reading::value_at))]
fn add_value(alloc: Global, reader: &mut Reader<'_>, values: &mut Vec<Expr>) -> Result<(), ReadStop>
    ensures { Reads (λ _. terms_of values.new.items) result reader.new.rest.now (item_step value_at (terms_of values.old.items) reader.old.rest.now) }
{
    let value = expr(alloc, reader)?;
    values.push(value)?;
    Ok(())
}

#[tactic(auto, unfolding(crate::specs::Reading::item_turn))]
fn more_values(
    alloc: Global,
    reader: &mut Reader<'_>,
    values: &mut Vec<Expr>,
) -> Result<(), ReadStop>
    ensures { Reads (λ _. terms_of values.new.items) result reader.new.rest.now (item_turn value_at (terms_of values.old.items) reader.old.rest.now) }
{
    reader.mark(Mark::Comma)?;
    add_value(alloc, reader, values)
}

/// Reads values between commas.
#[tactic(auto, unfolding(crate::specs::Reading::list_of), using(crate::proofs::ListLaws::values))]
pub fn values(alloc: Global, reader: &mut Reader<'_>) -> Result<Vec<Expr>, ReadStop>
    ensures { Reads (λ values. terms_of values.items) result reader.new.rest.now (list_of value_at reader.old.rest.now) }
{
    let mut values = Vec::new(alloc);
    add_value(alloc, reader, &mut values)?;
    while reader.is_mark(Mark::Comma) {
        more_values(alloc, reader, &mut values)?;
    }
    Ok(values)
}

/// Reads values between commas, or none before a parenthesis.
#[tactic(auto, unfolding(crate::specs::Reading::listed_at))]
pub fn listed(alloc: Global, reader: &mut Reader<'_>) -> Result<Vec<Expr>, ReadStop>
    ensures { Reads (λ values. terms_of values.items) result reader.new.rest.now (listed_at reader.old.rest.now) }
{
    if reader.is_mark(Mark::RightParen) {
        return Ok(Vec::new(alloc));
    }
    values(alloc, reader)
}

/// Reads a name and what it is set to.
#[tactic(auto, unfolding(crate::specs::Reading::setting_at))]
pub fn setting(alloc: Global, reader: &mut Reader<'_>) -> Result<(Ident, Expr), ReadStop>
    ensures { Reads (λ s. (s.0, term_of s.1)) result reader.new.rest.now (setting_at reader.old.rest.now) }
{
    let name = reader.name()?;
    reader.mark(Mark::Eq)?;
    let value = expr(alloc, reader)?;
    Ok((name, value))
}

#[tactic(auto, unfolding(crate::specs::Reading::item_step, crate::specs::Reading::set_at))]
fn add_set(
    alloc: Global,
    reader: &mut Reader<'_>,
    sets: &mut Vec<(Ident, Expr)>,
) -> Result<(), ReadStop>
    ensures { Reads (λ _. sets_of sets.new.items) result reader.new.rest.now (item_step set_at (sets_of sets.old.items) reader.old.rest.now) }
{
    let set = setting(alloc, reader)?;
    sets.push(set)?;
    Ok(())
}

#[tactic(auto, unfolding(crate::specs::Reading::item_turn))]
fn more_sets(
    alloc: Global,
    reader: &mut Reader<'_>,
    sets: &mut Vec<(Ident, Expr)>,
) -> Result<(), ReadStop>
    ensures { Reads (λ _. sets_of sets.new.items) result reader.new.rest.now (item_turn set_at (sets_of sets.old.items) reader.old.rest.now) }
{
    reader.mark(Mark::Comma)?;
    add_set(alloc, reader, sets)
}

/// Reads the sets of an update, between commas.
#[tactic(auto, unfolding(crate::specs::Reading::list_of), using(crate::proofs::ListLaws::sets))]
pub fn sets(alloc: Global, reader: &mut Reader<'_>) -> Result<Vec<(Ident, Expr)>, ReadStop>
    ensures { Reads (λ sets. sets_of sets.items) result reader.new.rest.now (list_of set_at reader.old.rest.now) }
{
    let mut sets = Vec::new(alloc);
    add_set(alloc, reader, &mut sets)?;
    while reader.is_mark(Mark::Comma) {
        more_sets(alloc, reader, &mut sets)?;
    }
    Ok(sets)
}
