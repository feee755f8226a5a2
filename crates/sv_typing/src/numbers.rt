ghost use Rattle.std.specs.Prelude.{◌≡◌, ◌≤◌, map, length, IfOk};
ghost use Rattle.std.specs.Option.{option_map};
ghost use Rattle.sv_app.specs.Conditions.{KeepsLimits};
ghost use Rattle.sv_app.specs.Lookups.{column_names, table_names, table_of as table_meant};
ghost use Rattle.sv_app.specs.Numbers.{numbered_in, columns_meant, numbered_column, numbered_check, numbered_rule, numbered_invariant, numbered_table, numbered};
ghost use Rattle.sv_app.specs.Schema.{declaration_of, schema_of, rule_of, invariant_of};

use crate::lookups::table_of;
use crate::named::{Named, place_of};
use std::alloc::Global;
use sv_app::{Check, Column, Ident, Inv, InvBody, Table};
use sv_value::NoMemory;

/// The name with its number among these.
pub fn number_in<T: Named>(name: &Ident, items: &[T]) -> Ident
    requires { length items.now ≤ 144 }
    ensures { result ≡ numbered_in (map T.ident items.now) name.now }
{
    let num = match place_of(name, items) {
        Some(place) => place as u16,
        None => 0,
    };
    Ident {
        name: name.name,
        spot: name.spot,
        num,
    }
}

/// The name with its number among the columns of the table.
fn number_column(table: &Table, name: &Ident) -> Ident
    requires { length table.now.columns.items ≤ 16 }
    ensures { result ≡ numbered_in (column_names (declaration_of table.now)) name.now }
{
    number_in(name, &table.columns)
}

/// The name with its number among the tables.
#[tactic(auto, using(crate::proofs::LookupLaws::names_declared))]
pub fn number_table(tables: &[Table], name: &Ident) -> Ident
    requires { length tables.now ≤ 16 }
    ensures { result ≡ numbered_in (table_names (schema_of tables.now)) name.now }
{
    number_in(name, tables)
}

/// The name with its number among the columns of the table that is meant.
pub fn number_target(tables: &[Table], parent: &Ident, target: &Ident) -> Ident
    requires { KeepsLimits (schema_of tables.now) }
    ensures { result ≡ numbered_in (columns_meant (table_meant (schema_of tables.now) parent.now)) target.now }
{
    match table_of(tables, parent) {
        Some(other) => number_column(other, target),
        None => Ident {
            name: target.name,
            spot: target.spot,
            num: 0,
        },
    }
}

fn number_side(table: &Table, side: &Option<Ident>) -> Option<Ident>
    requires { length table.now.columns.items ≤ 16 }
    ensures { result ≡ option_map (numbered_in (column_names (declaration_of table.now))) side.now }
{
    match side {
        Some(name) => Some(number_column(table, name)),
        None => None,
    }
}

fn number_check(table: &Table, check: &Check) -> Check
    requires { length table.now.columns.items ≤ 16 }
    ensures { result ≡ numbered_check (declaration_of table.now) check.now }
{
    Check {
        hi: number_side(table, &check.hi),
        lo: number_side(table, &check.lo),
        most: check.most,
        spot: check.spot,
    }
}

fn number_body(
    alloc: Global,
    tables: &[Table],
    table: &Table,
    body: &InvBody,
) -> Result<InvBody, NoMemory>
    requires limits { KeepsLimits (schema_of tables.now) }
    requires few { length table.now.columns.items ≤ 16 }
    ensures { IfOk result (λ copy. rule_of copy ≡ numbered_rule (schema_of tables.now) (declaration_of table.now) (rule_of body.now)) }
{
    match body {
        InvBody::Check(check) => Ok(InvBody::Check(number_check(table, check))),
        InvBody::List { col, texts } => Ok(InvBody::List {
            col: number_column(table, col),
            texts: Vec::from_slice(alloc, texts)?,
        }),
        InvBody::Unique { col } => Ok(InvBody::Unique {
            col: number_column(table, col),
        }),
        InvBody::Refers {
            col,
            table: parent,
            target,
        } => Ok(InvBody::Refers {
            col: number_column(table, col),
            table: number_table(tables, parent),
            target: number_target(tables, parent, target),
        }),
    }
}

fn number_inv(alloc: Global, tables: &[Table], table: &Table, inv: &Inv) -> Result<Inv, NoMemory>
    requires limits { KeepsLimits (schema_of tables.now) }
    requires few { length table.now.columns.items ≤ 16 }
    ensures { IfOk result (λ copy. invariant_of copy ≡ numbered_invariant (schema_of tables.now) (declaration_of table.now) (invariant_of inv.now)) }
{
    let body = number_body(alloc, tables, table, &inv.body)?;
    Ok(Inv {
        number: inv.number,
        body,
        spot: inv.spot,
    })
}

fn number_invs(alloc: Global, tables: &[Table], table: &Table) -> Result<Vec<Inv>, NoMemory>
    requires limits { KeepsLimits (schema_of tables.now) }
    requires few { length table.now.columns.items ≤ 16 }
    ensures { IfOk result (λ invs. map invariant_of invs.items ≡ map (numbered_invariant (schema_of tables.now) (declaration_of table.now)) (declaration_of table.now).invs) }
{
    let mut invs = Vec::new(alloc);
    for inv in &table.invs {
        invs.push(number_inv(alloc, tables, table, inv)?)?;
    }
    Ok(invs)
}

fn number_columns(alloc: Global, table: &Table) -> Result<Vec<Column>, NoMemory>
    requires { length table.now.columns.items ≤ 16 }
    ensures { IfOk result (λ columns. columns.items ≡ map (numbered_column (declaration_of table.now)) table.now.columns.items) }
{
    let mut columns = Vec::new(alloc);
    for column in &table.columns {
        columns.push(Column {
            name: number_column(table, &column.name),
            ty: column.ty,
            merge: column.merge,
        })?;
    }
    Ok(columns)
}

fn number_key(alloc: Global, table: &Table) -> Result<Vec<Ident>, NoMemory>
    requires { length table.now.columns.items ≤ 16 }
    ensures { IfOk result (λ key. key.items ≡ map (numbered_in (column_names (declaration_of table.now))) table.now.key.items) }
{
    let mut key = Vec::new(alloc);
    for name in &table.key {
        key.push(number_column(table, name))?;
    }
    Ok(key)
}

fn number_whole(alloc: Global, tables: &[Table], table: &Table) -> Result<Table, NoMemory>
    requires limits { KeepsLimits (schema_of tables.now) }
    requires few { length table.now.columns.items ≤ 16 }
    ensures { IfOk result (λ copy. declaration_of copy ≡ numbered_table (schema_of tables.now) (declaration_of table.now)) }
{
    let columns = number_columns(alloc, table)?;
    let key = number_key(alloc, table)?;
    let invs = number_invs(alloc, tables, table)?;
    Ok(Table {
        name: number_table(tables, &table.name),
        kind: table.kind,
        columns,
        key,
        second_key: number_side(table, &table.second_key),
        invs,
    })
}

/// The tables with the numbers of their names.
pub fn number_all(alloc: Global, tables: &[Table]) -> Result<Vec<Table>, NoMemory>
    requires { KeepsLimits (schema_of tables.now) }
    ensures { IfOk result (λ copies. schema_of copies.items ≡ numbered (schema_of tables.now)) }
{
    let mut copies = Vec::new(alloc);
    for table in tables {
        copies.push(number_whole(alloc, tables, table)?)?;
    }
    Ok(copies)
}
