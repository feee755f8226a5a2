ghost use Rattle.std.specs.Prelude.{◌≡◌, ◌≤◌, length, map, IfOk};
ghost use Rattle.std.specs.List.{find};
ghost use Rattle.std.specs.Option.{option_and_then, option_map};
ghost use Rattle.sv_app.specs.Conditions.{KeepsLimits};
ghost use Rattle.sv_app.specs.Lookups.{is_named};
ghost use Rattle.sv_app.specs.Numbers.{numbered_in};
ghost use Rattle.sv_app.specs.Schema.{schema_of};
ghost use Rattle.sv_app.specs.Trees.{Field, term_of, terms_of, sets_of, test_of};
ghost use Rattle.sv_app.specs.TxnNumbers.{columns_of, numbered_name, numbered_table_name, numbered_term, numbered_terms, numbered_test, numbered_set};
ghost use Rattle.sv_typing.specs.Standing.{naming_of, IsSmall};

use crate::numbers::{number_in, number_table, number_target};
use std::alloc::Global;
use sv_app::{Column, Cond, Declared, Expr, Ident, Table, is_named};
use sv_value::{NoMemory, Spot};

/// The names that have numbers: the tables, those that the transaction declares, and, behind `set`, the columns of the
/// table that is updated.
#[derive(Clone, Copy, Debug)]
pub struct Naming<'a> {
    pub tables: &'a [Table],
    pub names: &'a [Declared],
    pub updated: &'a [Column],
}

/// The name with its number among those that the transaction declares.
pub fn number_name(by: &Naming, name: &Ident) -> Ident
    requires { IsSmall (naming_of by.now) }
    ensures { result ≡ numbered_name (naming_of by.now) name.now }
{
    number_in(name, by.names)
}

/// The name of the table of that row.
#[tactic(auto, using(crate::proofs::LookupLaws::finds))]
fn table_of_row(names: &[Declared], row: &Ident) -> Option<Ident>
    ensures { result ≡ option_and_then (λ d. d.table) (find (λ d. is_named d.name row.now) names.now) }
{
    for declared in names {
        if is_named(&declared.name, row) {
            return declared.table;
        }
    }
    None
}

/// The name with its number among the columns of the table of that name.
fn number_column_of(tables: &[Table], table: &Option<Ident>, column: &Ident) -> Ident
    requires { KeepsLimits (schema_of tables.now) }
    ensures { result ≡ numbered_in (columns_of (schema_of tables.now) table.now) column.now }
{
    match table {
        Some(name) => number_target(tables, name, column),
        None => Ident {
            name: column.name,
            spot: column.spot,
            num: 0,
        },
    }
}

/// A field of a row, with numbers.
fn fill_field(by: &Naming, row: &Ident, column: &Ident, spot: Spot) -> Expr
    requires { IsSmall (naming_of by.now) }
    ensures { term_of result ≡ numbered_term (naming_of by.now) (Field row.now column.now spot) }
{
    let table = table_of_row(by.names, row);
    Expr::Field {
        row: number_name(by, row),
        col: number_column_of(by.tables, &table, column),
        spot,
    }
}

/// An expression with the numbers of its names.
pub fn fill_expr(alloc: Global, by: &Naming, expr: &Expr) -> Result<Expr, NoMemory>
    requires { IsSmall (naming_of by.now) }
    ensures { IfOk result (λ copy. term_of copy ≡ numbered_term (naming_of by.now) (term_of expr.now)) }
{
    match expr {
        Expr::Int(n, spot) => Ok(Expr::Int(*n, *spot)),
        Expr::Text(text, spot) => Ok(Expr::Text(*text, *spot)),
        Expr::Var(name, spot) => Ok(Expr::Var(number_name(by, name), *spot)),
        Expr::Field { row, col, spot } => Ok(fill_field(by, row, col, *spot)),
        Expr::Old(col, spot) => Ok(Expr::Old(number_in(col, by.updated), *spot)),
        Expr::Neg(a, spot) => {
            let a = Box::new(alloc, fill_expr(alloc, by, a)?)?;
            Ok(Expr::Neg(a, *spot))
        }
        Expr::Add(a, b, spot) => {
            let a = Box::new(alloc, fill_expr(alloc, by, a)?)?;
            let b = Box::new(alloc, fill_expr(alloc, by, b)?)?;
            Ok(Expr::Add(a, b, *spot))
        }
        Expr::Sub(a, b, spot) => {
            let a = Box::new(alloc, fill_expr(alloc, by, a)?)?;
            let b = Box::new(alloc, fill_expr(alloc, by, b)?)?;
            Ok(Expr::Sub(a, b, *spot))
        }
        Expr::Mul(a, b, spot) => {
            let a = Box::new(alloc, fill_expr(alloc, by, a)?)?;
            let b = Box::new(alloc, fill_expr(alloc, by, b)?)?;
            Ok(Expr::Mul(a, b, *spot))
        }
    }
}

/// A condition with the numbers of its names.
pub fn fill_cond(alloc: Global, by: &Naming, cond: &Cond) -> Result<Cond, NoMemory>
    requires { IsSmall (naming_of by.now) }
    ensures { IfOk result (λ copy. test_of copy ≡ numbered_test (naming_of by.now) (test_of cond.now)) }
{
    match cond {
        Cond::Cmp { left, rel, right } => {
            let left = fill_expr(alloc, by, left)?;
            let right = fill_expr(alloc, by, right)?;
            Ok(Cond::Cmp {
                left,
                rel: *rel,
                right,
            })
        }
        Cond::Not(inner) => {
            let inner = Box::new(alloc, fill_cond(alloc, by, inner)?)?;
            Ok(Cond::Not(inner))
        }
        Cond::And(a, b) => {
            let a = Box::new(alloc, fill_cond(alloc, by, a)?)?;
            let b = Box::new(alloc, fill_cond(alloc, by, b)?)?;
            Ok(Cond::And(a, b))
        }
        Cond::Or(a, b) => {
            let a = Box::new(alloc, fill_cond(alloc, by, a)?)?;
            let b = Box::new(alloc, fill_cond(alloc, by, b)?)?;
            Ok(Cond::Or(a, b))
        }
    }
}

/// The condition of a loop with the numbers of its names.
pub fn fill_condition(
    alloc: Global,
    by: &Naming,
    cond: &Option<Cond>,
) -> Result<Option<Cond>, NoMemory>
    requires { IsSmall (naming_of by.now) }
    ensures { IfOk result (λ copy. option_map test_of copy ≡ option_map (numbered_test (naming_of by.now)) (option_map test_of cond.now)) }
{
    match cond {
        Some(test) => Ok(Some(fill_cond(alloc, by, test)?)),
        None => Ok(None),
    }
}

/// Expressions with the numbers of their names.
pub fn fill_exprs(alloc: Global, by: &Naming, exprs: &[Expr]) -> Result<Vec<Expr>, NoMemory>
    requires { IsSmall (naming_of by.now) }
    ensures { IfOk result (λ copies. terms_of copies.items ≡ numbered_terms (naming_of by.now) (terms_of exprs.now)) }
{
    let mut copies = Vec::new(alloc);
    for expr in exprs {
        copies.push(fill_expr(alloc, by, expr)?)?;
    }
    Ok(copies)
}

/// The columns that an update sets and their values, with the numbers of their names.
pub fn fill_sets(
    alloc: Global,
    by: &Naming,
    sets: &[(Ident, Expr)],
) -> Result<Vec<(Ident, Expr)>, NoMemory>
    requires { IsSmall (naming_of by.now) }
    ensures { IfOk result (λ copies. sets_of copies.items ≡ map (numbered_set (naming_of by.now)) (sets_of sets.now)) }
{
    let mut copies = Vec::new(alloc);
    for (column, expr) in sets {
        let value = fill_expr(alloc, by, expr)?;
        copies.push((number_in(column, by.updated), value))?;
    }
    Ok(copies)
}
