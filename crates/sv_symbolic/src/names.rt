ghost use Rattle.std.specs.Prelude.{◌≡◌, OnOk, IfOk, slice_get};
ghost use Rattle.sv_app.specs.declared.schemas.Ty.TheVariants as tys;
ghost use Rattle.sv_app.specs.Paths.{
  type_of,
  column_type,
  columns_at,
  with_type,
  with_table,
  command_names,
  block_names,
  parameter_types,
  names_of,
  type_in,
};
ghost use Rattle.sv_app.specs.Schema.{schema_of};
ghost use Rattle.sv_app.specs.Slots.{item, with_item};
ghost use Rattle.sv_app.specs.Trees.{term_of, command_of, block_of, transaction_of};
ghost use Rattle.sv_symbolic.specs.States.{names_in};

use std::alloc::Global;
use sv_app::{Column, Expr, Ident, Parts, Stmt, Table, Txn, Ty, parts_of};
use sv_paths::split;
use sv_value::NoMemory;

/// The types of variables, and the tables of row variables, by the numbers of names.
#[derive(Debug, Drop)]
pub struct Names {
    pub types: Vec<Ty>,
    pub tables: Vec<u16>,
}

/// The type of a variable.
pub fn type_at(types: &[Ty], number: u16) -> Ty
    ensures { result ≡ item tys.Int types.now number }
{
    match types.get(number as usize) {
        Some(ty) => *ty,
        None => Ty::Int,
    }
}

/// The table of a row variable.
pub fn row_table(tables: &[u16], number: u16) -> u16
    ensures { result ≡ item 0 tables.now number }
{
    match tables.get(number as usize) {
        Some(table) => *table,
        None => 0,
    }
}

/// The columns of the table of that number.
pub fn columns_at(tables: &[Table], number: u16) -> &[Column]
    ensures { result.now ≡ columns_at (slice_get (schema_of tables.now) number) }
{
    match tables.get(number as usize) {
        Some(table) => &table.columns,
        None => &[],
    }
}

fn type_in(columns: &[Column], col: u16) -> Ty
    ensures { result ≡ type_in (slice_get columns.now col) }
{
    match columns.get(col as usize) {
        Some(column) => column.ty,
        None => Ty::Int,
    }
}

/// The type of a column of the table of that number.
pub fn column_type(tables: &[Table], table: u16, col: u16) -> Ty
    ensures { result ≡ column_type (schema_of tables.now) table col }
{
    type_in(columns_at(tables, table), col)
}

/// The type of an expression that stands outside updates.
fn type_of(tables: &[Table], names: &Names, expr: &Expr) -> Ty
    ensures { result ≡ type_of (schema_of tables.now) (names_in names.now) 0 (term_of expr.now) }
{
    match expr {
        Expr::Text(..) => Ty::Text,
        Expr::Var(var, _) => type_at(&names.types, var.num),
        Expr::Field { row, col, .. } => {
            column_type(tables, row_table(&names.tables, row.num), col.num)
        }
        Expr::Old(col, _) => column_type(tables, 0, col.num),
        Expr::Int(..) | Expr::Neg(..) | Expr::Add(..) | Expr::Sub(..) | Expr::Mul(..) => Ty::Int,
    }
}

/// Puts a type at its number, with the type of integers where nothing was put before it.
#[tactic(auto, using(sv_effect::proofs::SlotLaws::slots))]
fn put_type(types: &mut Vec<Ty>, number: u16, ty: Ty) -> Result<(), NoMemory>
    ensures { OnOk result (types.new.items ≡ with_item tys.Int number ty types.old.items) }
{
    let at = number as usize;
    while types.len() < at {
        types.push(Ty::Int)?;
    }
    if at < types.len() {
        types[at] = ty;
    } else {
        types.push(ty)?;
    }
    Ok(())
}

/// The same of tables, with the first one before it.
#[tactic(auto, using(sv_effect::proofs::SlotLaws::slots))]
fn put_table(tables: &mut Vec<u16>, number: u16, table: u16) -> Result<(), NoMemory>
    ensures { OnOk result (tables.new.items ≡ with_item 0 number table tables.old.items) }
{
    let at = number as usize;
    while tables.len() < at {
        tables.push(0)?;
    }
    if at < tables.len() {
        tables[at] = table;
    } else {
        tables.push(table)?;
    }
    Ok(())
}

/// Puts the names that statements declare, in the order of the text.
#[cycle(naming)]
fn name_block(tables: &[Table], stmts: &[Stmt], names: &mut Names) -> Result<(), NoMemory>
    ensures { OnOk result (names_in names.new ≡ block_names (schema_of tables.now) (block_of stmts.now) (names_in names.old)) }
{
    match split(stmts) {
        None => Ok(()),
        Some((first, rest)) => {
            name_command(tables, first, names)?;
            name_block(tables, rest, names)?;
            Ok(())
        }
    }
}

#[cycle(naming)]
fn name_command(tables: &[Table], stmt: &Stmt, names: &mut Names) -> Result<(), NoMemory>
    ensures { OnOk result (names_in names.new ≡ command_names (schema_of tables.now) (command_of stmt.now) (names_in names.old)) }
{
    match parts_of(stmt) {
        Parts::Let { var, value } => {
            let ty = type_of(tables, names, value);
            put_type(&mut names.types, var.num, ty)?;
            Ok(())
        }
        Parts::Get { row, table, .. } => {
            put_table(&mut names.tables, row.num, table.num)?;
            Ok(())
        }
        Parts::If { yes, no, .. } => {
            name_block(tables, yes, names)?;
            name_block(tables, no, names)?;
            Ok(())
        }
        Parts::Rows {
            row,
            table,
            body,
            ..
        } => {
            put_table(&mut names.tables, row.num, table.num)?;
            name_block(tables, body, names)?;
            Ok(())
        }
        Parts::Each { var, body, .. } => {
            put_type(&mut names.types, var.num, Ty::Int)?;
            name_block(tables, body, names)?;
            Ok(())
        }
        Parts::Fresh { var, .. } => {
            put_type(&mut names.types, var.num, Ty::Int)?;
            Ok(())
        }
        Parts::Assign { .. } | Parts::Insert { .. } => Ok(()),
        Parts::Update { .. } | Parts::Remove { .. } => Ok(()),
        Parts::Abort { .. } | Parts::Reply(_) => Ok(()),
    }
}

fn parameter_types(alloc: Global, params: &[(Ident, Ty)]) -> Result<Vec<Ty>, NoMemory>
    ensures { IfOk result (λ types. types.items ≡ parameter_types params.now) }
{
    let mut types = Vec::new(alloc);
    for (_, ty) in params {
        types.push(*ty)?;
    }
    Ok(types)
}

/// The names of a transaction.
pub fn names_of(alloc: Global, tables: &[Table], txn: &Txn) -> Result<Names, NoMemory>
    ensures { IfOk result (λ names. names_in names ≡ names_of (schema_of tables.now) (transaction_of txn.now)) }
{
    let mut names = Names {
        types: parameter_types(alloc, &txn.params)?,
        tables: Vec::new(alloc),
    };
    name_block(tables, &txn.body, &mut names)?;
    Ok(names)
}
