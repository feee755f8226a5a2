ghost use Rattle.std.specs.Prelude.{◌≡◌, ◌++◌, OnOk, map};
ghost use Rattle.std.specs.List.{flat_map};
ghost use Rattle.sv_app.specs.declared.acts.Act.TheVariants as acts;
ghost use Rattle.sv_app.specs.declared.apps.Ident.{Ident as IdentValue};
ghost use Rattle.sv_app.specs.Lookups.{table_of as table_meant};
ghost use Rattle.sv_app.specs.Schema.{schema_of, declaration_of};
ghost use Rattle.sv_app.specs.Trees.{command_of, terms_of, sets_of, Term, Fetch, Insert, Fresh, Update, Remove};
ghost use Rattle.sv_app.specs.TxnTyping.{command_faults, value_list_faults, drawn_faults, sets_faults, at_table, kind_faults, term_faults};
ghost use Rattle.sv_app.specs.Typing.{repeats};
ghost use Rattle.sv_typing.specs.Noted.{noted};
ghost use Rattle.sv_typing.specs.Standing.{scope_of};

use crate::expressions::note_term;
use crate::firsts::First;
use crate::lookups::table_of;
use crate::scopes::Scope;
use crate::seconds::note_all_repeats;
use crate::values::{note_drawn, note_kind, note_sets, note_terms, note_values};
use std::alloc::Global;
use sv_app::{Act, Code, Expr, Ident, Table};
use sv_value::NoMemory;

/// Notes what is wrong with the keys of a row of the table.
#[tactic(auto, using(crate::proofs::NotedLaws::map_same))]
fn note_key(first: &mut First, at: &Scope, table: &Table, key: &[Expr], name: &Ident)
    ensures { first.new.held ≡ noted first.old.held (value_list_faults (scope_of at.now) (declaration_of table.now) (declaration_of table.now).key (terms_of key.now) name.now) }
{
    note_values(first, at, table, &table.key, key, name);
}

/// Notes what is wrong with the name of the table and the keys of a row.
#[tactic(auto, using(crate::proofs::NotedLaws::noting))]
pub fn note_fetch(first: &mut First, at: &Scope, row: &Ident, name: &Ident, key: &[Expr])
    ensures { first.new.held ≡ noted first.old.held (command_faults (scope_of at.now) (Fetch row.now name.now (terms_of key.now))) }
{
    match table_of(at.tables, name) {
        None => first.note_if(true, name.spot, Code::Unknown),
        Some(table) => note_key(first, at, table, key, name),
    }
    note_terms(first, at, key);
}

/// Notes what is wrong with an insert.
#[tactic(auto, using(crate::proofs::NotedLaws::noting))]
pub fn note_insert(first: &mut First, at: &Scope, name: &Ident, values: &[Expr])
    ensures { first.new.held ≡ noted first.old.held (command_faults (scope_of at.now) (Insert name.now (terms_of values.now))) }
{
    match table_of(at.tables, name) {
        None => first.note_if(true, name.spot, Code::Unknown),
        Some(table) => {
            note_kind(first, table, Act::Insert, name);
            note_values(first, at, table, &table.columns, values, name);
        }
    }
    note_terms(first, at, values);
}

/// Notes what is wrong with the table and the values of a row whose key is drawn.
#[tactic(auto, using(crate::proofs::NotedLaws::noting))]
pub fn note_fresh(
    alloc: Global,
    first: &mut First,
    at: &Scope,
    var: &Ident,
    name: &Ident,
    values: &[Expr],
) -> Result<(), NoMemory>
    ensures { OnOk result (first.new.held ≡ noted first.old.held (command_faults (scope_of at.now) (Fresh var.now name.now (terms_of values.now)))) }
{
    match table_of(at.tables, name) {
        None => first.note_if(true, name.spot, Code::Unknown),
        Some(table) => {
            note_kind(first, table, Act::Fresh, name);
            note_drawn(alloc, first, at, table, values, name)?;
        }
    }
    note_terms(first, at, values);
    Ok(())
}

/// Notes what is wrong with a remove.
#[tactic(auto, using(crate::proofs::NotedLaws::noting))]
pub fn note_remove(first: &mut First, at: &Scope, name: &Ident, key: &[Expr])
    ensures { first.new.held ≡ noted first.old.held (command_faults (scope_of at.now) (Remove name.now (terms_of key.now))) }
{
    match table_of(at.tables, name) {
        None => first.note_if(true, name.spot, Code::Unknown),
        Some(table) => {
            note_kind(first, table, Act::Remove, name);
            note_key(first, at, table, key, name);
        }
    }
    note_terms(first, at, key);
}

/// Notes what is wrong with the columns that an update of this table sets.
fn note_columns_set(
    first: &mut First,
    at: &Scope,
    table: &Table,
    name: &Ident,
    sets: &[(Ident, Expr)],
)
    ensures { first.new.held ≡ noted first.old.held (sets_faults (scope_of at.now) name.now (declaration_of table.now) (sets_of sets.now)) }
{
    note_sets(first, &at.updating(*name), table, sets);
}

/// Notes what is wrong with the row that an update is of, and with the columns that it sets.
#[tactic(auto, using(crate::proofs::NotedLaws::noting))]
fn note_updated(first: &mut First, at: &Scope, name: &Ident, key: &[Expr], sets: &[(Ident, Expr)])
    ensures { first.new.held ≡ noted first.old.held (at_table (table_meant (schema_of at.now.tables.now) name.now) name.now
        (λ d. kind_faults d acts.Update name.now ++ value_list_faults (scope_of at.now) d d.key (terms_of key.now) name.now ++ sets_faults (scope_of at.now) name.now d (sets_of sets.now))) }
{
    match table_of(at.tables, name) {
        None => first.note_if(true, name.spot, Code::Unknown),
        Some(table) => {
            note_kind(first, table, Act::Update, name);
            note_key(first, at, table, key, name);
            note_columns_set(first, at, table, name, sets);
        }
    }
}

/// Notes what is wrong with the expressions behind `set`.
#[tactic(auto, using(crate::proofs::NotedLaws::looping))]
fn note_set_terms(first: &mut First, at: &Scope, sets: &[(Ident, Expr)])
    ensures { first.new.held ≡ noted first.old.held (flat_map (λ (s : IdentValue × Term). term_faults (scope_of at.now) s.1) (sets_of sets.now)) }
{
    for (_, expr) in sets {
        note_term(first, at, expr);
    }
}

/// Notes each column that is set a second time.
#[tactic(auto, using(crate::proofs::ValueLaws::set_names))]
fn note_second_sets(
    alloc: Global,
    first: &mut First,
    sets: &[(Ident, Expr)],
) -> Result<(), NoMemory>
    ensures { OnOk result (first.new.held ≡ noted first.old.held (repeats (map (λ (s : IdentValue × Term). s.0) (sets_of sets.now)))) }
{
    note_all_repeats(alloc, first, sets)
}

/// Notes what is wrong with an update.
#[tactic(auto, using(crate::proofs::NotedLaws::noting))]
pub fn note_update(
    alloc: Global,
    first: &mut First,
    at: &Scope,
    name: &Ident,
    key: &[Expr],
    sets: &[(Ident, Expr)],
) -> Result<(), NoMemory>
    ensures { OnOk result (first.new.held ≡ noted first.old.held (command_faults (scope_of at.now) (Update name.now (terms_of key.now) (sets_of sets.now)))) }
{
    note_updated(first, at, name, key, sets);
    note_terms(first, at, key);
    note_second_sets(alloc, first, sets)?;
    note_set_terms(first, &at.updating(*name), sets);
    Ok(())
}
