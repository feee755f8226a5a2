ghost use Rattle.std.specs.Prelude.{◌≡◌};
ghost use Rattle.sv_app.specs.TermTypes.{spot_of};
ghost use Rattle.sv_app.specs.Trees.{term_of};

use crate::apps::Ident;
use crate::schemas::Ty;
use sv_value::{Spot, Text};

/// An expression. Each carries the place of its first token, which is an opening parenthesis where it begins with one.
#[derive(Debug, Drop)]
pub enum Expr {
    Int(i64, Spot),
    Text(Text, Spot),
    /// A parameter, a variable, or an element of a list.
    Var(Ident, Spot),
    /// A column of a row that was read.
    Field { row: Ident, col: Ident, spot: Spot },
    /// A column of the row before the update.
    Old(Ident, Spot),
    Neg(Box<Expr>, Spot),
    Add(Box<Expr>, Box<Expr>, Spot),
    Sub(Box<Expr>, Box<Expr>, Spot),
    Mul(Box<Expr>, Box<Expr>, Spot),
}

/// How two values compare.
#[derive(Clone, Copy, Debug, PartialEq, Eq)]
pub enum Rel {
    Eq,
    Ne,
    Lt,
    Le,
    Gt,
    Ge,
}

/// A condition.
#[derive(Debug, Drop)]
pub enum Cond {
    Cmp { left: Expr, rel: Rel, right: Expr },
    Not(Box<Cond>),
    And(Box<Cond>, Box<Cond>),
    Or(Box<Cond>, Box<Cond>),
}

/// A statement.
#[derive(Debug, Drop)]
pub enum Stmt {
    Let {
        var: Ident,
        value: Expr,
    },
    Assign {
        var: Ident,
        value: Expr,
    },
    Get {
        row: Ident,
        table: Ident,
        key: Vec<Expr>,
    },
    If {
        cond: Cond,
        yes: Vec<Stmt>,
        no: Vec<Stmt>,
    },
    /// A loop over the rows of a table that meet the condition.
    Rows {
        row: Ident,
        table: Ident,
        cond: Option<Cond>,
        body: Vec<Stmt>,
    },
    /// A loop over the elements of a list.
    Each {
        var: Ident,
        list: Ident,
        body: Vec<Stmt>,
    },
    Insert {
        table: Ident,
        values: Vec<Expr>,
    },
    /// An insert under a key that is drawn, which the variable gets; the values are those of the other columns.
    Fresh {
        var: Ident,
        table: Ident,
        values: Vec<Expr>,
    },
    Update {
        table: Ident,
        key: Vec<Expr>,
        sets: Vec<(Ident, Expr)>,
    },
    Remove {
        table: Ident,
        key: Vec<Expr>,
    },
    Abort {
        code: u16,
    },
    Reply(Expr),
}

/// A transaction: its parameters with their types, and its statements.
#[derive(Debug, Drop)]
pub struct Txn {
    pub name: Ident,
    pub params: Vec<(Ident, Ty)>,
    pub body: Vec<Stmt>,
}

/// The place of an expression's first token.
pub fn spot_of(expr: &Expr) -> Spot
    ensures { result ≡ spot_of (term_of expr.now) }
{
    match expr {
        Expr::Int(_, spot)
        | Expr::Text(_, spot)
        | Expr::Var(_, spot)
        | Expr::Field { spot, .. }
        | Expr::Old(_, spot)
        | Expr::Neg(_, spot)
        | Expr::Add(_, _, spot)
        | Expr::Sub(_, _, spot)
        | Expr::Mul(_, _, spot) => *spot,
    }
}
