use sv_app::{Cond, Expr};

/// An expression, and how much deeper it is than a name.
#[derive(Debug, Drop)]
pub struct Graded {
    pub expr: Expr,
    pub extra: usize,
}

/// A condition, and how much deeper it is than a comparison of names.
#[derive(Debug, Drop)]
pub struct Judged {
    pub cond: Cond,
    pub extra: usize,
}
