ghost use Rattle.std.specs.Prelude.{◌≡◌, ◌&&◌, ◌||◌, not, IfOk, OnOk};
ghost use Rattle.std.specs.Option.{option_map};
ghost use Rattle.sv_app.specs.Paths.{term_way, terms_way, test_way};
ghost use Rattle.sv_app.specs.Symbols.{is_factor};
ghost use Rattle.sv_app.specs.Trees.{term_of, terms_of, test_of};
ghost use Rattle.sv_linear.specs.Codes.{sym_of};
ghost use Rattle.sv_symbolic.specs.Sketches.{draw_term, draw_terms, draw_test};
ghost use Rattle.sv_symbolic.specs.States.{names_for, schema_for, way_of, sketch_of, syms_of, tested_as, joined, DrawsFrom, TriesFrom};

use crate::names::{column_type, row_table, type_at};
use crate::settings::Setting;
use crate::states::State;
use std::alloc::Global;
use sv_app::{Cond, Expr, Source};
use sv_effect::prepend;
use sv_linear::{SymVal, number};
use sv_value::{List, NoMemory};

/// Whether it is a number or a negated number: a product with it brings in no symbol.
fn is_factor(expr: &Expr) -> bool
    ensures { result ≡ is_factor (term_of expr.now) }
{
    match expr {
        Expr::Int(..) => true,
        Expr::Neg(inner, _) => matches!(&**inner, Expr::Int(..)),
        _ => false,
    }
}

/// What an expression is, in forms; `table` is that of the row which `old` is of.
#[tactic(auto, using(crate::proofs::ToldLaws::terms))]
pub fn value(
    setting: &Setting<'_>,
    table: u16,
    expr: &Expr,
    state: &mut State<'_>,
) -> Result<SymVal, NoMemory>
    ensures way { OnOk result (way_of state.new ≡ term_way (schema_for setting.now) (names_for setting.now) table (term_of expr.now) (way_of state.old)) }
    ensures told { IfOk result (λ v. DrawsFrom state.old state.new
        (draw_term (schema_for setting.now) (names_for setting.now) table (term_of expr.now) (sketch_of state.old)) (sym_of v)) }
{
    match expr {
        Expr::Int(n, _) => Ok(SymVal::Num(number(setting.alloc, *n))),
        Expr::Text(text, _) => Ok(SymVal::TextIs(*text)),
        Expr::Var(var, _) => {
            let ty = type_at(setting.types, var.num);
            state.draw_source(setting.alloc, Source::Variable(var.num), ty)
        }
        Expr::Field { row, col, .. } => {
            let ty = column_type(setting.tables, row_table(setting.rows, row.num), col.num);
            let source = Source::Column {
                row: row.num,
                col: col.num,
            };
            state.draw_source(setting.alloc, source, ty)
        }
        Expr::Old(col, _) => {
            let ty = column_type(setting.tables, table, col.num);
            state.draw_old(setting.alloc, col.num, ty)
        }
        Expr::Neg(inner, _) => {
            let val = value(setting, table, inner, state)?;
            state.negated(setting.alloc, val)
        }
        Expr::Add(left, right, _) => {
            let first = value(setting, table, left, state)?;
            let second = value(setting, table, right, state)?;
            let sum = state.sum(setting.alloc, first, second)?;
            Ok(sum)
        }
        Expr::Sub(left, right, _) => {
            let first = value(setting, table, left, state)?;
            let second = value(setting, table, right, state)?;
            let form = state.difference(setting.alloc, first, second)?;
            Ok(SymVal::Num(form))
        }
        Expr::Mul(left, right, _) => {
            let first = value(setting, table, left, state)?;
            let second = value(setting, table, right, state)?;
            let factors = (is_factor(left), is_factor(right));
            let product = state.product(setting.alloc, factors, first, second)?;
            Ok(product)
        }
    }
}

/// What expressions are, from left to right.
pub fn values(
    setting: &Setting<'_>,
    exprs: &[Expr],
    state: &mut State<'_>,
) -> Result<List<SymVal>, NoMemory>
    ensures way { OnOk result (way_of state.new ≡ terms_way (schema_for setting.now) (names_for setting.now) (terms_of exprs.now) (way_of state.old)) }
    ensures told { IfOk result (λ vs. DrawsFrom state.old state.new
        (draw_terms (schema_for setting.now) (names_for setting.now) (terms_of exprs.now) (sketch_of state.old)) (syms_of vs)) }
{
    match exprs {
        [] => Ok(List::new(setting.alloc)),
        [expr, rest @ ..] => {
            let val = value(setting, 0, expr, state)?;
            let vals = values(setting, rest, state)?;
            let all = prepend(val, vals)?;
            Ok(all)
        }
    }
}

fn not(holds: Option<bool>) -> Option<bool>
    ensures { result ≡ option_map not holds }
{
    Some(!holds?)
}

fn and(first: Option<bool>, second: Option<bool>) -> Option<bool>
    ensures { result ≡ joined (λ h g. h && g) first second }
{
    let first = first?;
    let second = second?;
    Some(first && second)
}

fn or(first: Option<bool>, second: Option<bool>) -> Option<bool>
    ensures { result ≡ joined (λ h g. h || g) first second }
{
    let first = first?;
    let second = second?;
    Some(first || second)
}

/// Whether a condition holds along the choices; `None` if there are too few. All its parts are evaluated.
pub fn truth(
    setting: &Setting<'_>,
    cond: &Cond,
    state: &mut State<'_>,
) -> Result<Option<bool>, NoMemory>
    ensures way { IfOk result (λ holds. tested_as holds (way_of state.new) ≡ test_way (schema_for setting.now) (names_for setting.now) (test_of cond.now) (way_of state.old)) }
    ensures told { IfOk result (λ holds. TriesFrom state.old state.new
        (draw_test (schema_for setting.now) (names_for setting.now) (test_of cond.now) (sketch_of state.old)) holds) }
{
    match cond {
        Cond::Cmp { left, rel, right } => {
            let first = value(setting, 0, left, state)?;
            let second = value(setting, 0, right, state)?;
            let holds = state.choose(setting.alloc, *rel, &first, &second)?;
            Ok(holds)
        }
        Cond::Not(part) => {
            let holds = truth(setting, part, state)?;
            Ok(not(holds))
        }
        Cond::And(left, right) => {
            let first = truth(setting, left, state)?;
            let second = truth(setting, right, state)?;
            Ok(and(first, second))
        }
        Cond::Or(left, right) => {
            let first = truth(setting, left, state)?;
            let second = truth(setting, right, state)?;
            Ok(or(first, second))
        }
    }
}
