ghost use Rattle.std.specs.Prelude.{◌≡◌, ◌+ℤ◌, ◌-ℤ◌, ◌*ℤ◌, neg_ℤ, IfOk, not, ◌||◌};
ghost use Rattle.std.specs.Option.{option_map};
ghost use Rattle.sv_value.specs.declared.values.Val.TheVariants.{Int};
ghost use Rattle.sv_value.specs.Orders.{val_cmp};
ghost use Rattle.sv_app.specs.Symbols.{is_number, is_factor};
ghost use Rattle.sv_app.specs.Trees.{term_of, terms_of, test_of};
ghost use Rattle.sv_effect.specs.RunValues.{narrow, val_of, integer, read_variable, read_column, read_old, negated, added, subtracted, multiplied, value_of, values_of, relates, compared, truth_of};
ghost use Rattle.sv_effect.specs.TablesOfCut.{number_in};
ghost use Rattle.sv_interp.specs.Machine.{scope_of, evaluated};

use crate::scopes::Scope;
use std::cmp::Ordering;
use sv_app::{Cond, Expr, Got, Rel, Source};
use sv_effect::column;
use sv_value::{NoMemory, Val};

/// The number, if it is one of 64 bits.
pub fn narrow(number: i128) -> Option<i64>
    ensures { result ≡ narrow number }
{
    if number >= -9_223_372_036_854_775_808 && number <= 9_223_372_036_854_775_807 {
        Some(number as i64)
    } else {
        None
    }
}

/// The value in a row, unless it is a number that left 64 bits.
pub fn val_of(got: Got) -> Option<Val>
    ensures { result ≡ val_of got }
{
    match got {
        Got::Num(number) => Some(Val::Int(narrow(number)?)),
        Got::Text(text) => Some(Val::Text(text)),
    }
}

/// The number that a value is; a text counts as zero.
pub fn number_in(val: &Val) -> i64
    ensures { result ≡ number_in val.now }
{
    match val {
        Val::Int(number) => *number,
        Val::Text(_) => 0,
    }
}

fn negated(val: &Val) -> Option<i64>
    ensures { result ≡ narrow (neg_ℤ (number_in val.now)) }
{
    number_in(val).checked_neg()
}

fn added(left: &Val, right: &Val) -> Option<i64>
    ensures { result ≡ narrow (number_in left.now +ℤ number_in right.now) }
{
    number_in(left).checked_add(number_in(right))
}

/// The difference of two values as numbers, if it is one of 64 bits.
pub fn subtracted(left: &Val, right: &Val) -> Option<i64>
    ensures { result ≡ narrow (number_in left.now -ℤ number_in right.now) }
{
    number_in(left).checked_sub(number_in(right))
}

fn multiplied(left: &Val, right: &Val) -> Option<i64>
    ensures { result ≡ narrow (number_in left.now *ℤ number_in right.now) }
{
    number_in(left).checked_mul(number_in(right))
}

/// Whether it is a number or a negated number: a product with it brings in no symbol.
fn is_factor(expr: &Expr) -> bool
    ensures { result ≡ is_factor (term_of expr.now) }
{
    match expr {
        Expr::Int(..) => true,
        Expr::Neg(inner, _) => matches!(&**inner, Expr::Int(..)),
        _ => false,
    }
}

fn read_variable(var: u16, scope: &mut Scope) -> Result<Option<Val>, NoMemory>
    ensures { IfOk result (λ v. read_variable var (scope_of scope.old) ≡ evaluated v scope.new) }
{
    let val = scope.variable(var);
    scope.progress.bring(Source::Variable(var), &val)?;
    Ok(Some(val))
}

fn read_column(row: u16, col: u16, scope: &mut Scope) -> Result<Option<Val>, NoMemory>
    ensures { IfOk result (λ v. read_column row col (scope_of scope.old) ≡ evaluated v scope.new) }
{
    let Some(val) = val_of(scope.field(row, col)) else {
        return Ok(None);
    };
    scope.progress.bring(Source::Column { row, col }, &val)?;
    Ok(Some(val))
}

/// A column of the row before the update.
pub fn read_old(col: u16, scope: &mut Scope) -> Result<Option<Val>, NoMemory>
    ensures { IfOk result (λ v. read_old col (scope_of scope.old) ≡ evaluated v scope.new) }
{
    let Some(val) = val_of(column(scope.before.items(), col)) else {
        return Ok(None);
    };
    scope.progress.bring_old(col, &val)?;
    Ok(Some(val))
}

fn integer(number: Option<i64>) -> Option<Val>
    ensures { result ≡ option_map (λ n. Int n) number }
{
    Some(Val::Int(number?))
}

fn read_product(
    is_symbol: bool,
    left: &Val,
    right: &Val,
    scope: &mut Scope,
) -> Result<Option<Val>, NoMemory>
    ensures { IfOk result (λ v. multiplied is_symbol left.now right.now (scope_of scope.old) ≡ evaluated v scope.new) }
{
    let Some(val) = integer(multiplied(left, right)) else {
        return Ok(None);
    };
    if is_symbol {
        scope.progress.put(&val)?;
    }
    Ok(Some(val))
}

/// The value of an expression; none where an integer leaves 64 bits.
pub fn value(expr: &Expr, scope: &mut Scope) -> Result<Option<Val>, NoMemory>
    ensures { IfOk result (λ v. value_of (term_of expr.now) (scope_of scope.old) ≡ evaluated v scope.new) }
{
    match expr {
        Expr::Int(number, _) => Ok(Some(Val::Int(*number))),
        Expr::Text(text, _) => Ok(Some(Val::Text(*text))),
        Expr::Var(var, _) => read_variable(var.num, scope),
        Expr::Field { row, col, .. } => read_column(row.num, col.num, scope),
        Expr::Old(col, _) => read_old(col.num, scope),
        Expr::Neg(inner, _) => {
            let Some(val) = value(inner, scope)? else {
                return Ok(None);
            };
            Ok(integer(negated(&val)))
        }
        Expr::Add(left, right, _) => {
            let Some(first) = value(left, scope)? else {
                return Ok(None);
            };
            let Some(second) = value(right, scope)? else {
                return Ok(None);
            };
            Ok(integer(added(&first, &second)))
        }
        Expr::Sub(left, right, _) => {
            let Some(first) = value(left, scope)? else {
                return Ok(None);
            };
            let Some(second) = value(right, scope)? else {
                return Ok(None);
            };
            Ok(integer(subtracted(&first, &second)))
        }
        Expr::Mul(left, right, _) => {
            let Some(first) = value(left, scope)? else {
                return Ok(None);
            };
            let Some(second) = value(right, scope)? else {
                return Ok(None);
            };
            let is_symbol = !(is_factor(left) || is_factor(right));
            read_product(is_symbol, &first, &second, scope)
        }
    }
}

fn relates(rel: Rel, ordering: Ordering) -> bool
    ensures { result ≡ relates rel ordering }
{
    match rel {
        Rel::Eq => ordering.is_eq(),
        Rel::Ne => !ordering.is_eq(),
        Rel::Lt => ordering.is_lt(),
        Rel::Le => !ordering.is_gt(),
        Rel::Gt => ordering.is_gt(),
        Rel::Ge => !ordering.is_lt(),
    }
}

fn compare(rel: Rel, left: &Val, right: &Val, scope: &mut Scope) -> Result<Option<bool>, NoMemory>
    ensures { IfOk result (λ h. compared rel left.now right.now (scope_of scope.old) ≡ evaluated h scope.new) }
{
    let holds = relates(rel, left.cmp(right));
    scope.progress.choose(holds)?;
    Ok(Some(holds))
}

/// Whether a condition holds; none where an integer leaves 64 bits. All its parts are evaluated.
pub fn truth(cond: &Cond, scope: &mut Scope) -> Result<Option<bool>, NoMemory>
    ensures { IfOk result (λ h. truth_of (test_of cond.now) (scope_of scope.old) ≡ evaluated h scope.new) }
{
    match cond {
        Cond::Cmp { left, rel, right } => {
            let Some(first) = value(left, scope)? else {
                return Ok(None);
            };
            let Some(second) = value(right, scope)? else {
                return Ok(None);
            };
            compare(*rel, &first, &second, scope)
        }
        Cond::Not(inner) => {
            let Some(holds) = truth(inner, scope)? else {
                return Ok(None);
            };
            Ok(Some(!holds))
        }
        Cond::And(left, right) => {
            let Some(first) = truth(left, scope)? else {
                return Ok(None);
            };
            let Some(second) = truth(right, scope)? else {
                return Ok(None);
            };
            Ok(Some(first && second))
        }
        Cond::Or(left, right) => {
            let Some(first) = truth(left, scope)? else {
                return Ok(None);
            };
            let Some(second) = truth(right, scope)? else {
                return Ok(None);
            };
            Ok(Some(first || second))
        }
    }
}
