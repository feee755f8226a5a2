ghost use Rattle.std.specs.Prelude.{◌≡◌, not, nat_lt, length, Option, Bool};
ghost use Rattle.std.specs.Option.{is_none};
ghost use Rattle.sv_app.specs.Schema.{declaration_of, schema_of, Refers};
ghost use Rattle.sv_app.specs.Lookups.{holds_of, is_key};
ghost use Rattle.sv_app.specs.Lookups.{column_of as column_meant, table_of as table_meant};
ghost use Rattle.sv_app.specs.Typing.{is_numdelta, differs, referring_faults, referred_faults, target_faults, rule_faults};
ghost use Rattle.sv_typing.specs.Noted.{noted};

use crate::columns::note_no_column;
use crate::firsts::First;
use crate::lookups::{column_of, table_of};
use crate::types::{is_numdelta, is_same_type};
use sv_app::{Code, Column, Ident, Table, is_key};

/// Whether it is a NUMDELTA column.
fn is_counter(table: &Table, name: &Ident) -> bool
    ensures { result ≡ holds_of (column_meant (declaration_of table.now) name.now) (λ c. is_numdelta c.merge) }
{
    let found = column_of(table, name);
    match found {
        Some(column) => is_numdelta(column.merge),
        None => false,
    }
}

/// Whether the two columns are of different types.
fn differs(table: &Table, name: &Ident, other: &Table, target: &Ident) -> bool
    ensures { result ≡ differs (declaration_of table.now) name.now (declaration_of other.now) target.now }
{
    let own = column_of(table, name);
    let meant = column_of(other, target);
    match (own, meant) {
        (Some(column), Some(other)) => !is_same_type(column.ty, other.ty),
        _ => false,
    }
}

/// Whether the columns on both sides of a reference are of different types.
fn differs_from(
    tables: &[Table],
    table: &Table,
    name: &Ident,
    parent: &Ident,
    target: &Ident,
) -> bool
    ensures { result ≡ holds_of (table_meant (schema_of tables.now) parent.now) (λ other. differs (declaration_of table.now) name.now other target.now) }
{
    match table_of(tables, parent) {
        Some(other) => differs(table, name, other, target),
        None => false,
    }
}

/// Notes what is wrong with the column that refers.
#[tactic(auto, using(crate::proofs::NotedLaws::noting))]
fn note_referring(
    first: &mut First,
    tables: &[Table],
    table: &Table,
    name: &Ident,
    parent: &Ident,
    target: &Ident,
)
    ensures { first.new.held ≡ noted first.old.held (referring_faults (schema_of tables.now) (declaration_of table.now) name.now parent.now target.now) }
{
    note_no_column(first, table, name);
    first.note_if(is_counter(table, name), name.spot, Code::Typing);
    first.note_if(
        differs_from(tables, table, name, parent, target),
        name.spot,
        Code::Typing,
    );
}

/// Whether there is no table of that name.
pub fn is_no_table(tables: &[Table], parent: &Ident) -> bool
    ensures { result ≡ is_none (table_meant (schema_of tables.now) parent.now) }
{
    match table_of(tables, parent) {
        Some(_) => false,
        None => true,
    }
}

/// Whether it is a table with a key of more than one column.
fn has_long_key(tables: &[Table], parent: &Ident) -> bool
    ensures { result ≡ holds_of (table_meant (schema_of tables.now) parent.now) (λ other. nat_lt 1 (length other.key)) }
{
    match table_of(tables, parent) {
        Some(other) => 1 < other.key.len(),
        None => false,
    }
}

/// Notes what is wrong with the table that a reference names.
#[tactic(auto, using(crate::proofs::NotedLaws::noting))]
fn note_referred(first: &mut First, tables: &[Table], parent: &Ident)
    ensures { first.new.held ≡ noted first.old.held (referred_faults (schema_of tables.now) parent.now) }
{
    first.note_if(is_no_table(tables, parent), parent.spot, Code::Unknown);
    first.note_if(has_long_key(tables, parent), parent.spot, Code::Typing);
}

/// Whether it is a table without that column.
pub fn has_no_column(tables: &[Table], parent: &Ident, target: &Ident) -> bool
    ensures { result ≡ holds_of (table_meant (schema_of tables.now) parent.now) (λ other. is_none (column_meant other target.now)) }
{
    match table_of(tables, parent) {
        Some(other) => column_of(other, target).is_none(),
        None => false,
    }
}

/// Whether it is a column of the table and not in its key.
fn is_beside_key(table: &Table, target: &Ident) -> bool
    ensures { result ≡ holds_of (column_meant (declaration_of table.now) target.now) (λ _. not (is_key (declaration_of table.now) target.now)) }
{
    column_of(table, target).is_some() && !is_key(table, target)
}

/// Whether it is a column of the table that a reference names, and not in that table's key.
fn is_no_key(tables: &[Table], parent: &Ident, target: &Ident) -> bool
    ensures { result ≡ holds_of (table_meant (schema_of tables.now) parent.now) (λ other. holds_of (column_meant other target.now) (λ _. not (is_key other target.now))) }
{
    match table_of(tables, parent) {
        Some(other) => is_beside_key(other, target),
        None => false,
    }
}

/// Notes what is wrong with the column that a reference names in the other table.
#[tactic(auto, using(crate::proofs::NotedLaws::noting))]
fn note_target(first: &mut First, tables: &[Table], parent: &Ident, target: &Ident)
    ensures { first.new.held ≡ noted first.old.held (target_faults (schema_of tables.now) parent.now target.now) }
{
    first.note_if(
        has_no_column(tables, parent, target),
        target.spot,
        Code::Unknown,
    );
    first.note_if(is_no_key(tables, parent, target), target.spot, Code::Typing);
}

/// Notes what is wrong with a reference.
#[tactic(auto, using(crate::proofs::NotedLaws::noting))]
pub fn note_reference(
    first: &mut First,
    tables: &[Table],
    table: &Table,
    name: &Ident,
    parent: &Ident,
    target: &Ident,
)
    ensures { first.new.held ≡ noted first.old.held (rule_faults (schema_of tables.now) (declaration_of table.now) (Refers name.now parent.now target.now)) }
{
    note_referring(first, tables, table, name, parent, target);
    note_referred(first, tables, parent);
    note_target(first, tables, parent, target);
}
