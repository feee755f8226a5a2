ghost use Rattle.std.specs.Prelude.{◌≡◌};
ghost use Rattle.sv_app.specs.Trees.{term_of};
ghost use Rattle.sv_app.specs.TermTypes.{value_type, type_meant, column_type, field_type, old_type, type_of, are_apart};
ghost use Rattle.std.specs.Option.{option_map};
ghost use Rattle.sv_app.specs.Lookups.{column_of as column_meant};
ghost use Rattle.sv_app.specs.Schema.{declaration_of, schema_of};
ghost use Rattle.sv_typing.specs.Standing.{scope_of};

use crate::lookups::{column_of, table_of};
use crate::scopes::{Scope, meaning_of};
use crate::types::is_same_type;
use sv_app::{Expr, Ident, Meaning, Table, Ty};
use sv_value::Spot;

fn value_type(ty: Ty) -> Option<Ty>
    ensures { result ≡ value_type ty }
{
    match ty {
        Ty::Int => Some(Ty::Int),
        Ty::Text => Some(Ty::Text),
        Ty::Ints => None,
    }
}

fn type_meant(meaning: Option<Meaning>) -> Option<Ty>
    ensures { result ≡ type_meant meaning }
{
    match meaning {
        Some(Meaning::Parameter(ty)) => value_type(ty),
        Some(Meaning::Variable(ty)) => ty,
        Some(Meaning::Constant) => Some(Ty::Int),
        Some(Meaning::Row(_)) | None => None,
    }
}

/// The type of the column of that name.
pub fn type_in_table(table: &Table, column: &Ident) -> Option<Ty>
    ensures { result ≡ option_map (λ c. c.ty) (column_meant (declaration_of table.now) column.now) }
{
    column_of(table, column).map(|found| found.ty)
}

/// The type of a column of the table of that name.
fn column_type(tables: &[Table], table: &Ident, column: &Ident) -> Option<Ty>
    ensures { result ≡ column_type (schema_of tables.now) table.now column.now }
{
    match table_of(tables, table) {
        Some(found) => type_in_table(found, column),
        None => None,
    }
}

fn field_type(tables: &[Table], meaning: Option<Meaning>, column: &Ident) -> Option<Ty>
    ensures { result ≡ field_type (schema_of tables.now) meaning column.now }
{
    match meaning {
        Some(Meaning::Row(table)) => column_type(tables, &table, column),
        _ => None,
    }
}

fn old_type(tables: &[Table], updated: Option<Ident>, column: &Ident) -> Option<Ty>
    ensures { result ≡ old_type (schema_of tables.now) updated column.now }
{
    match updated {
        Some(table) => column_type(tables, &table, column),
        None => None,
    }
}

/// The type of an expression.
pub fn type_of(at: &Scope, expr: &Expr) -> Option<Ty>
    ensures { result ≡ type_of (scope_of at.now) (term_of expr.now) }
{
    match expr {
        Expr::Text(..) => Some(Ty::Text),
        Expr::Var(name, _) => type_meant(meaning_of(at, name)),
        Expr::Field { row, col, .. } => field_type(at.tables, meaning_of(at, row), col),
        Expr::Old(col, _) => old_type(at.tables, at.updated, col),
        Expr::Int(..) | Expr::Neg(..) | Expr::Add(..) | Expr::Sub(..) | Expr::Mul(..) => {
            Some(Ty::Int)
        }
    }
}

/// Whether both have a type, and it isn't the same.
pub fn are_apart(a: Option<Ty>, b: Option<Ty>) -> bool
    ensures { result ≡ are_apart a b }
{
    match (a, b) {
        (Some(ty), Some(other)) => !is_same_type(ty, other),
        _ => false,
    }
}
