ghost use Rattle.std.specs.Prelude.{◌≡◌, ◌≤◌, length, map, IfOk};
ghost use Rattle.std.specs.Prelude.{Some as some};
ghost use Rattle.sv_app.specs.declared.schemas.Column.{Column as ColumnValue};
ghost use Rattle.sv_app.specs.Conditions.{KeepsLimits};
ghost use Rattle.sv_app.specs.Schema.{schema_of};
ghost use Rattle.sv_app.specs.Trees.{command_of, block_of, term_of, terms_of, sets_of, Declare, Assign, Fetch, Insert, Fresh, Update, Remove, Reply};
ghost use Rattle.sv_app.specs.TxnNumbers.{columns_of, numbered_command, numbered_block};
ghost use Rattle.sv_typing.specs.Standing.{naming_of, IsSmall};

use crate::fills::{
    Naming, fill_cond, fill_condition, fill_expr, fill_exprs, fill_sets, number_name,
};
use crate::lookups::table_of;
use crate::numbers::number_table;
use std::alloc::Global;
use sv_app::{Column, Expr, Ident, Parts, Stmt, Table, each, if_else, parts_of, rows};
use sv_value::NoMemory;

fn fill_let(alloc: Global, by: &Naming, var: &Ident, value: &Expr) -> Result<Stmt, NoMemory>
    requires { IsSmall (naming_of by.now) }
    ensures { IfOk result (λ copy. command_of copy ≡ numbered_command (naming_of by.now) (Declare var.now (term_of value.now))) }
{
    let value = fill_expr(alloc, by, value)?;
    Ok(Stmt::Let {
        var: number_name(by, var),
        value,
    })
}

fn fill_assign(alloc: Global, by: &Naming, var: &Ident, value: &Expr) -> Result<Stmt, NoMemory>
    requires { IsSmall (naming_of by.now) }
    ensures { IfOk result (λ copy. command_of copy ≡ numbered_command (naming_of by.now) (Assign var.now (term_of value.now))) }
{
    let value = fill_expr(alloc, by, value)?;
    Ok(Stmt::Assign {
        var: number_name(by, var),
        value,
    })
}

fn fill_get(
    alloc: Global,
    by: &Naming,
    row: &Ident,
    table: &Ident,
    key: &[Expr],
) -> Result<Stmt, NoMemory>
    requires { IsSmall (naming_of by.now) }
    ensures { IfOk result (λ copy. command_of copy ≡ numbered_command (naming_of by.now) (Fetch row.now table.now (terms_of key.now))) }
{
    let key = fill_exprs(alloc, by, key)?;
    Ok(Stmt::Get {
        row: number_name(by, row),
        table: number_table(by.tables, table),
        key,
    })
}

fn fill_insert(alloc: Global, by: &Naming, table: &Ident, values: &[Expr]) -> Result<Stmt, NoMemory>
    requires { IsSmall (naming_of by.now) }
    ensures { IfOk result (λ copy. command_of copy ≡ numbered_command (naming_of by.now) (Insert table.now (terms_of values.now))) }
{
    let values = fill_exprs(alloc, by, values)?;
    Ok(Stmt::Insert {
        table: number_table(by.tables, table),
        values,
    })
}

fn fill_fresh(
    alloc: Global,
    by: &Naming,
    var: &Ident,
    table: &Ident,
    values: &[Expr],
) -> Result<Stmt, NoMemory>
    requires { IsSmall (naming_of by.now) }
    ensures { IfOk result (λ copy. command_of copy ≡ numbered_command (naming_of by.now) (Fresh var.now table.now (terms_of values.now))) }
{
    let values = fill_exprs(alloc, by, values)?;
    Ok(Stmt::Fresh {
        var: number_name(by, var),
        table: number_table(by.tables, table),
        values,
    })
}

/// The columns of the table of that name, none where there is no such table.
fn columns_of<'a>(tables: &'a [Table], name: &Ident) -> &'a [Column]
    requires { KeepsLimits (schema_of tables.now) }
    ensures names { map (λ (c : ColumnValue). c.name) result.now ≡ columns_of (schema_of tables.now) (some name.now) }
    ensures few { length result.now ≤ 16 }
{
    match table_of(tables, name) {
        Some(table) => &table.columns,
        None => &[],
    }
}

fn fill_update(
    alloc: Global,
    by: &Naming,
    table: &Ident,
    key: &[Expr],
    sets: &[(Ident, Expr)],
) -> Result<Stmt, NoMemory>
    requires { IsSmall (naming_of by.now) }
    ensures { IfOk result (λ copy. command_of copy ≡ numbered_command (naming_of by.now) (Update table.now (terms_of key.now) (sets_of sets.now))) }
{
    let key = fill_exprs(alloc, by, key)?;
    let behind = Naming {
        tables: by.tables,
        names: by.names,
        updated: columns_of(by.tables, table),
    };
    let sets = fill_sets(alloc, &behind, sets)?;
    Ok(Stmt::Update {
        table: number_table(by.tables, table),
        key,
        sets,
    })
}

fn fill_remove(alloc: Global, by: &Naming, table: &Ident, key: &[Expr]) -> Result<Stmt, NoMemory>
    requires { IsSmall (naming_of by.now) }
    ensures { IfOk result (λ copy. command_of copy ≡ numbered_command (naming_of by.now) (Remove table.now (terms_of key.now))) }
{
    let key = fill_exprs(alloc, by, key)?;
    Ok(Stmt::Remove {
        table: number_table(by.tables, table),
        key,
    })
}

fn fill_reply(alloc: Global, by: &Naming, value: &Expr) -> Result<Stmt, NoMemory>
    requires { IsSmall (naming_of by.now) }
    ensures { IfOk result (λ copy. command_of copy ≡ numbered_command (naming_of by.now) (Reply (term_of value.now))) }
{
    Ok(Stmt::Reply(fill_expr(alloc, by, value)?))
}

/// Statements with the numbers of their names.
#[cycle(fill)]
#[tactic(auto, using(sv_app::proofs::Trees::weight_at, crate::proofs::FillLaws::filled_map))]
pub fn fill_block(alloc: Global, by: &Naming, stmts: &[Stmt]) -> Result<Vec<Stmt>, NoMemory>
    requires { IsSmall (naming_of by.now) }
    ensures { IfOk result (λ copies. block_of copies.items ≡ numbered_block (naming_of by.now) (block_of stmts.now)) }
{
    let mut copies = Vec::new(alloc);
    for stmt in stmts {
        copies.push(fill_stmt(alloc, by, stmt)?)?;
    }
    Ok(copies)
}

/// A statement with the numbers of its names.
#[cycle(fill)]
fn fill_stmt(alloc: Global, by: &Naming, stmt: &Stmt) -> Result<Stmt, NoMemory>
    requires { IsSmall (naming_of by.now) }
    ensures { IfOk result (λ copy. command_of copy ≡ numbered_command (naming_of by.now) (command_of stmt.now)) }
{
    match parts_of(stmt) {
        Parts::Let { var, value } => fill_let(alloc, by, &var, value),
        Parts::Assign { var, value } => fill_assign(alloc, by, &var, value),
        Parts::Get { row, table, key } => fill_get(alloc, by, &row, &table, key),
        Parts::If { cond, yes, no } => {
            let cond = fill_cond(alloc, by, cond)?;
            let yes = fill_block(alloc, by, yes)?;
            let no = fill_block(alloc, by, no)?;
            Ok(if_else(cond, yes, no))
        }
        Parts::Rows {
            row,
            table,
            cond,
            body,
        } => {
            let cond = fill_condition(alloc, by, cond)?;
            let body = fill_block(alloc, by, body)?;
            let table = number_table(by.tables, &table);
            Ok(rows(number_name(by, &row), table, cond, body))
        }
        Parts::Each { var, list, body } => {
            let body = fill_block(alloc, by, body)?;
            Ok(each(number_name(by, &var), number_name(by, &list), body))
        }
        Parts::Insert { table, values } => fill_insert(alloc, by, &table, values),
        Parts::Fresh { var, table, values } => fill_fresh(alloc, by, &var, &table, values),
        Parts::Update { table, key, sets } => fill_update(alloc, by, &table, key, sets),
        Parts::Remove { table, key } => fill_remove(alloc, by, &table, key),
        Parts::Abort { code } => Ok(Stmt::Abort { code }),
        Parts::Reply(value) => fill_reply(alloc, by, value),
    }
}
