ghost use Rattle.std.specs.Prelude.{◌≡◌, ◌||◌, ◌&&◌};
ghost use Rattle.std.specs.Option.{is_none, option_map};
ghost use Rattle.sv_app.specs.Lookups.{holds_of};
ghost use Rattle.sv_app.specs.Schema.{schema_of};
ghost use Rattle.sv_app.specs.TermTypes.{type_of as type_meant};
ghost use Rattle.sv_app.specs.Trees.{term_of, test_of};
ghost use Rattle.sv_app.specs.Typing.{is_text as text_is};
ghost use Rattle.sv_app.specs.TxnTyping.{is_no_value, value_faults, no_column_of, field_faults, old_faults, operand_faults, term_faults, is_order, comparison_faults, test_faults, condition_faults};
ghost use Rattle.sv_typing.specs.Noted.{noted};
ghost use Rattle.sv_typing.specs.Standing.{scope_of};

use crate::firsts::First;
use crate::references::has_no_column;
use crate::scopes::{Scope, meaning_of};
use crate::terms::{are_apart, type_of};
use crate::types::is_text;
use sv_app::{Code, Cond, Expr, Ident, Meaning, Rel, Table, Ty, spot_of};
use sv_value::Spot;

/// Whether it is a list parameter or a row.
fn is_no_value(meaning: Option<Meaning>) -> bool
    ensures { result ≡ holds_of meaning is_no_value }
{
    matches!(
        meaning,
        Some(Meaning::Parameter(Ty::Ints)) | Some(Meaning::Row(_))
    )
}

/// Notes a name that stands for nothing, or for no value.
#[tactic(auto, using(crate::proofs::NotedLaws::noting))]
fn note_value(first: &mut First, meaning: Option<Meaning>, name: &Ident)
    ensures { first.new.held ≡ noted first.old.held (value_faults meaning name.now) }
{
    first.note_if(meaning.is_none(), name.spot, Code::Unknown);
    first.note_if(is_no_value(meaning), name.spot, Code::Typing);
}

/// Notes a name that is no column of the table of that name.
fn note_no_column_of(first: &mut First, tables: &[Table], table: &Ident, name: &Ident)
    ensures { first.new.held ≡ noted first.old.held (no_column_of (schema_of tables.now) table.now name.now) }
{
    first.note_if(has_no_column(tables, table, name), name.spot, Code::Unknown);
}

fn note_field(first: &mut First, at: &Scope, meaning: Option<Meaning>, row: &Ident, column: &Ident)
    ensures { first.new.held ≡ noted first.old.held (field_faults (scope_of at.now) meaning row.now column.now) }
{
    match meaning {
        None => first.note_if(true, row.spot, Code::Unknown),
        Some(Meaning::Row(table)) => note_no_column_of(first, at.tables, &table, column),
        Some(_) => first.note_if(true, row.spot, Code::Typing),
    }
}

fn note_old(first: &mut First, at: &Scope, updated: Option<Ident>, column: &Ident, spot: Spot)
    ensures { first.new.held ≡ noted first.old.held (old_faults (scope_of at.now) updated column.now spot) }
{
    match updated {
        None => first.note_if(true, spot, Code::Typing),
        Some(table) => note_no_column_of(first, at.tables, &table, column),
    }
}

/// Whether the expression is a text.
fn is_a_text(at: &Scope, expr: &Expr) -> bool
    ensures { result ≡ holds_of (type_meant (scope_of at.now) (term_of expr.now)) text_is }
{
    match type_of(at, expr) {
        Some(ty) => is_text(ty),
        None => false,
    }
}

fn note_operand(first: &mut First, at: &Scope, expr: &Expr)
    ensures { first.new.held ≡ noted first.old.held (operand_faults (scope_of at.now) (term_of expr.now)) }
{
    first.note_if(is_a_text(at, expr), spot_of(expr), Code::Typing);
}

/// Notes what is wrong with an expression.
#[tactic(auto, using(crate::proofs::NotedLaws::noting))]
pub fn note_term(first: &mut First, at: &Scope, expr: &Expr)
    ensures { first.new.held ≡ noted first.old.held (term_faults (scope_of at.now) (term_of expr.now)) }
{
    match expr {
        Expr::Int(..) | Expr::Text(..) => {}
        Expr::Var(name, _) => note_value(first, meaning_of(at, name), name),
        Expr::Field { row, col, .. } => note_field(first, at, meaning_of(at, row), row, col),
        Expr::Old(col, spot) => note_old(first, at, at.updated, col, *spot),
        Expr::Neg(inner, _) => {
            note_operand(first, at, inner);
            note_term(first, at, inner);
        }
        Expr::Add(left, right, _) | Expr::Sub(left, right, _) | Expr::Mul(left, right, _) => {
            note_operand(first, at, left);
            note_operand(first, at, right);
            note_term(first, at, left);
            note_term(first, at, right);
        }
    }
}

fn is_order(rel: Rel) -> bool
    ensures { result ≡ is_order rel }
{
    matches!(rel, Rel::Lt | Rel::Le | Rel::Gt | Rel::Ge)
}

#[tactic(auto, using(crate::proofs::NotedLaws::noting))]
fn note_comparison(first: &mut First, at: &Scope, left: &Expr, rel: Rel, right: &Expr)
    ensures { first.new.held ≡ noted first.old.held (comparison_faults (scope_of at.now) (term_of left.now) rel (term_of right.now)) }
{
    let on_text = is_a_text(at, left) || is_a_text(at, right);
    first.note_if(is_order(rel) && on_text, spot_of(left), Code::Typing);
    first.note_if(
        are_apart(type_of(at, left), type_of(at, right)),
        spot_of(left),
        Code::Typing,
    );
}

/// Notes what is wrong with a condition.
#[tactic(auto, using(crate::proofs::NotedLaws::noting))]
pub fn note_test(first: &mut First, at: &Scope, cond: &Cond)
    ensures { first.new.held ≡ noted first.old.held (test_faults (scope_of at.now) (test_of cond.now)) }
{
    match cond {
        Cond::Cmp { left, rel, right } => {
            note_comparison(first, at, left, *rel, right);
            note_term(first, at, left);
            note_term(first, at, right);
        }
        Cond::Not(inner) => note_test(first, at, inner),
        Cond::And(left, right) | Cond::Or(left, right) => {
            note_test(first, at, left);
            note_test(first, at, right);
        }
    }
}

/// Notes what is wrong with the condition of a loop.
pub fn note_condition(first: &mut First, at: &Scope, cond: &Option<Cond>)
    ensures { first.new.held ≡ noted first.old.held (condition_faults (scope_of at.now) (option_map test_of cond.now)) }
{
    if let Some(test) = cond {
        note_test(first, at, test);
    }
}
