use crate::halts::{End, Halted};
use crate::plain_states::Machine;
use std::alloc::Global;
use std::cmp::Ordering;
use sv_app::{Cond, Expr, Rel};
use sv_value::{Key, Val};

/// An integer, where it has 64 bits.
fn integer(number: Option<i64>) -> Result<Val, Halted> {
    match number {
        Some(number) => Ok(Val::Int(number)),
        None => Err(Halted::Ended(End::Range)),
    }
}

/// The number in a value.
fn number_in(val: &Val) -> i64 {
    match val {
        Val::Int(number) => *number,
        Val::Text(_) => 0,
    }
}

/// The difference of two values.
pub fn difference(left: &Val, right: &Val) -> Result<i64, Halted> {
    match number_in(left).checked_sub(number_in(right)) {
        Some(number) => Ok(number),
        None => Err(Halted::Ended(End::Range)),
    }
}

/// Whether the expression is a number or a negated number.
fn is_number(expr: &Expr) -> bool {
    match expr {
        Expr::Int(..) => true,
        Expr::Neg(inner, _) => matches!(&**inner, Expr::Int(..)),
        _ => false,
    }
}

/// The value of an expression.
pub fn value(machine: &mut Machine, expr: &Expr) -> Result<Val, Halted> {
    match expr {
        Expr::Int(number, _) => Ok(Val::Int(*number)),
        Expr::Text(text, _) => Ok(Val::Text(*text)),
        Expr::Var(name, _) => machine.variable(name.num),
        Expr::Field { row, col, .. } => machine.field(row.num, col.num),
        Expr::Old(col, _) => machine.old_field(col.num),
        Expr::Neg(inner, _) => {
            let number = number_in(&value(machine, inner)?);
            integer(number.checked_neg())
        }
        Expr::Add(left, right, _) => {
            let first = number_in(&value(machine, left)?);
            let second = number_in(&value(machine, right)?);
            integer(first.checked_add(second))
        }
        Expr::Sub(left, right, _) => {
            let first = number_in(&value(machine, left)?);
            let second = number_in(&value(machine, right)?);
            integer(first.checked_sub(second))
        }
        Expr::Mul(left, right, _) => {
            let first = number_in(&value(machine, left)?);
            let second = number_in(&value(machine, right)?);
            let product = integer(first.checked_mul(second))?;
            if !is_number(left) && !is_number(right) {
                machine.bring_new(&product)?;
            }
            Ok(product)
        }
    }
}

/// The values of expressions, from left to right.
pub fn values(alloc: Global, machine: &mut Machine, exprs: &[Expr]) -> Result<Vec<Val>, Halted> {
    let mut vals = Vec::new(alloc);
    for expr in exprs {
        vals.push(value(machine, expr)?)?;
    }
    Ok(vals)
}

fn relates(rel: Rel, ordering: Ordering) -> bool {
    match rel {
        Rel::Eq => ordering.is_eq(),
        Rel::Ne => ordering.is_ne(),
        Rel::Lt => ordering.is_lt(),
        Rel::Le => ordering.is_le(),
        Rel::Gt => ordering.is_gt(),
        Rel::Ge => ordering.is_ge(),
    }
}

/// Whether a condition holds. All its parts are evaluated.
pub fn holds(machine: &mut Machine, cond: &Cond) -> Result<bool, Halted> {
    match cond {
        Cond::Cmp { left, rel, right } => {
            let first = value(machine, left)?;
            let second = value(machine, right)?;
            let truth = relates(*rel, first.cmp(&second));
            machine.choose(truth)?;
            Ok(truth)
        }
        Cond::Not(inner) => {
            let truth = holds(machine, inner)?;
            Ok(!truth)
        }
        Cond::And(left, right) => {
            let first = holds(machine, left)?;
            let second = holds(machine, right)?;
            Ok(first && second)
        }
        Cond::Or(left, right) => {
            let first = holds(machine, left)?;
            let second = holds(machine, right)?;
            Ok(first || second)
        }
    }
}

/// The key of these values.
pub fn key_of(vals: &[Val]) -> Key {
    match vals {
        [first, second, ..] => Key {
            first: *first,
            second: Some(*second),
        },
        [first] => Key {
            first: *first,
            second: None,
        },
        [] => Key {
            first: Val::Int(0),
            second: None,
        },
    }
}
