ghost use Rattle.std.specs.Prelude.{◌≡◌, ◌&&◌, ◌++◌, [], ◌∷◌, not, filter, IfOk, OnOk, map};
ghost use Rattle.std.specs.List.{flat_map};
ghost use Rattle.std.specs.Option.{option_map, is_none};
ghost use Rattle.sv_app.specs.Kinds.{kind_allows, keys_allow, allows};
ghost use Rattle.sv_app.specs.Lookups.{column_of as column_meant, table_of as table_meant, is_key};
ghost use Rattle.sv_app.specs.Schema.{declaration_of, schema_of};
ghost use Rattle.sv_app.specs.Scopes.{updating};
ghost use Rattle.sv_app.specs.Trees.{term_of, terms_of, sets_of};
ghost use Rattle.sv_app.specs.TxnTyping.{all_term_faults, no_table, place_for, kind_faults, count_faults, type_faults, each_type_faults, value_list_faults, drawn_columns, drawn_faults, set_faults, sets_faults};
ghost use Rattle.sv_typing.specs.Noted.{noted};
ghost use Rattle.sv_typing.specs.Standing.{scope_of};

use crate::columns::note_no_column;
use crate::expressions::note_term;
use crate::firsts::First;
use crate::lookups::column_of;
use crate::named::Named;
use crate::references::is_no_table;
use crate::scopes::Scope;
use crate::terms::{are_apart, type_in_table, type_of};
use std::alloc::Global;
use sv_app::{Act, Code, Expr, Ident, Kind, Table, is_fresh, is_key, spot_of};
use sv_value::{NoMemory, Spot};

/// Notes what is wrong with these expressions.
#[tactic(auto, using(crate::proofs::NotedLaws::looping))]
pub fn note_terms(first: &mut First, at: &Scope, exprs: &[Expr])
    ensures { first.new.held ≡ noted first.old.held (all_term_faults (scope_of at.now) (terms_of exprs.now)) }
{
    for expr in exprs {
        note_term(first, at, expr);
    }
}

/// Notes a name that is no table.
pub fn note_no_table(first: &mut First, tables: &[Table], name: &Ident)
    ensures { first.new.held ≡ noted first.old.held (no_table (schema_of tables.now) name.now) }
{
    first.note_if(is_no_table(tables, name), name.spot, Code::Unknown);
}

fn kind_allows(kind: Kind, act: Act) -> bool
    ensures { result ≡ kind_allows kind act }
{
    match kind {
        Kind::Plain | Kind::Arset => match act {
            Act::Insert | Act::Fresh | Act::Update | Act::Remove => true,
        },
        Kind::Aoset => match act {
            Act::Insert | Act::Fresh => true,
            Act::Update | Act::Remove => false,
        },
        Kind::Uoset => match act {
            Act::Update => true,
            Act::Insert | Act::Fresh | Act::Remove => false,
        },
        Kind::Auset => match act {
            Act::Insert | Act::Fresh | Act::Update => true,
            Act::Remove => false,
        },
    }
}

fn keys_allow(fresh: bool, act: Act) -> bool
    ensures { result ≡ keys_allow fresh act }
{
    match act {
        Act::Insert => !fresh,
        Act::Fresh => fresh,
        Act::Update | Act::Remove => true,
    }
}

fn allows(table: &Table, act: Act) -> bool
    ensures { result ≡ allows (declaration_of table.now) act }
{
    kind_allows(table.kind, act) && keys_allow(is_fresh(table), act)
}

/// Notes a change that the table doesn't allow.
pub fn note_kind(first: &mut First, table: &Table, act: Act, name: &Ident)
    ensures { first.new.held ≡ noted first.old.held (kind_faults (declaration_of table.now) act name.now) }
{
    first.note_if(!allows(table, act), name.spot, Code::Kind);
}

/// Notes a wrong number of keys or values.
fn note_count<T: Named>(first: &mut First, columns: &[T], exprs: &[Expr], name: &Ident)
    ensures { first.new.held ≡ noted first.old.held (count_faults (map T.ident columns.now) (terms_of exprs.now) name.now) }
{
    first.note_if(columns.len() != exprs.len(), name.spot, Code::Typing);
}

fn place_for(place: Option<Spot>, expr: &Expr) -> Spot
    ensures { result ≡ place_for place (term_of expr.now) }
{
    match place {
        None => spot_of(expr),
        Some(spot) => spot,
    }
}

/// Notes a value of another type than the column's, at that place if there is one.
fn note_type(
    first: &mut First,
    at: &Scope,
    table: &Table,
    place: Option<Spot>,
    column: &Ident,
    expr: &Expr,
)
    ensures { first.new.held ≡ noted first.old.held (type_faults (scope_of at.now) (declaration_of table.now) place column.now (term_of expr.now)) }
{
    first.note_if(
        are_apart(type_in_table(table, column), type_of(at, expr)),
        place_for(place, expr),
        Code::Typing,
    );
}

/// Notes each value of another type than its column's.
#[tactic(auto, using(crate::proofs::ValueLaws::pairing))]
fn note_types<T: Named>(
    first: &mut First,
    at: &Scope,
    table: &Table,
    place: Option<Spot>,
    columns: &[T],
    exprs: &[Expr],
)
    ensures { first.new.held ≡ noted first.old.held (each_type_faults (scope_of at.now) (declaration_of table.now) place (map T.ident columns.now) (terms_of exprs.now)) }
{
    for number in 0..columns.len() {
        if exprs.len() <= number {
            return;
        }
        let column = columns[number].ident();
        note_type(first, at, table, place, &column, &exprs[number]);
    }
}

/// Notes what is wrong with the values of these columns of a table.
#[tactic(auto, using(crate::proofs::NotedLaws::noting))]
pub fn note_values<T: Named>(
    first: &mut First,
    at: &Scope,
    table: &Table,
    columns: &[T],
    exprs: &[Expr],
    name: &Ident,
)
    ensures { first.new.held ≡ noted first.old.held (value_list_faults (scope_of at.now) (declaration_of table.now) (map T.ident columns.now) (terms_of exprs.now) name.now) }
{
    note_count(first, columns, exprs, name);
    note_types(first, at, table, None, columns, exprs);
}

/// Appends the name of a column, unless it is one of the key.
fn put_if_given(names: &mut Vec<Ident>, table: &Table, name: Ident) -> Result<(), NoMemory>
    ensures { OnOk result (names.new.items ≡ names.old.items ++ filter (λ other. not (is_key (declaration_of table.now) other)) (name ∷ [])) }
{
    if !is_key(table, &name) {
        names.push(name)?;
    }
    Ok(())
}

/// The columns but the key.
#[tactic(auto, using(crate::proofs::ValueLaws::drawn_more))]
fn drawn_columns(alloc: Global, table: &Table) -> Result<Vec<Ident>, NoMemory>
    ensures { IfOk result (λ names. names.items ≡ drawn_columns (declaration_of table.now)) }
{
    let mut names = Vec::new(alloc);
    for column in &table.columns {
        put_if_given(&mut names, table, column.name)?;
    }
    Ok(names)
}

/// Notes what is wrong with the values of a row whose key is drawn.
#[tactic(auto, using(crate::proofs::NotedLaws::noting, crate::proofs::NotedLaws::map_same))]
pub fn note_drawn(
    alloc: Global,
    first: &mut First,
    at: &Scope,
    table: &Table,
    exprs: &[Expr],
    name: &Ident,
) -> Result<(), NoMemory>
    ensures { OnOk result (first.new.held ≡ noted first.old.held (drawn_faults (scope_of at.now) (declaration_of table.now) (terms_of exprs.now) name.now)) }
{
    let columns = drawn_columns(alloc, table)?;
    note_count(first, &columns, exprs, name);
    note_types(first, at, table, Some(name.spot), &columns, exprs);
    Ok(())
}

#[tactic(auto, using(crate::proofs::NotedLaws::noting))]
fn note_set(first: &mut First, at: &Scope, table: &Table, column: &Ident, expr: &Expr)
    ensures { first.new.held ≡ noted first.old.held (set_faults (scope_of at.now) (declaration_of table.now) (column.now, term_of expr.now)) }
{
    note_no_column(first, table, column);
    first.note_if(is_key(table, column), column.spot, Code::Typing);
    note_type(first, at, table, None, column, expr);
}

/// Notes what is wrong with the columns that an update sets, and with the types of their values.
#[tactic(auto, using(crate::proofs::NotedLaws::looping))]
pub fn note_sets(first: &mut First, at: &Scope, table: &Table, sets: &[(Ident, Expr)])
    ensures { first.new.held ≡ noted first.old.held (flat_map (λ set. set_faults (scope_of at.now) (declaration_of table.now) set) (sets_of sets.now)) }
{
    for (column, expr) in sets {
        note_set(first, at, table, column, expr);
    }
}
