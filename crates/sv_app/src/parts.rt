ghost use Rattle.std.specs.Prelude.{◌≡◌};
ghost use Rattle.std.specs.Option.{option_map};
ghost use Rattle.sv_app.specs.Parts.{command_of_parts};
ghost use Rattle.sv_app.specs.Trees.{command_of, test_of, block_of, Choose, ForRows, ForEach};

use crate::apps::Ident;
use crate::txns::{Cond, Expr, Stmt};

/// A statement by its parts, with the lists inside as slices.
#[derive(Clone, Copy, Debug)]
pub enum Parts<'a> {
    Let {
        var: Ident,
        value: &'a Expr,
    },
    Assign {
        var: Ident,
        value: &'a Expr,
    },
    Get {
        row: Ident,
        table: Ident,
        key: &'a [Expr],
    },
    If {
        cond: &'a Cond,
        yes: &'a [Stmt],
        no: &'a [Stmt],
    },
    Rows {
        row: Ident,
        table: Ident,
        cond: &'a Option<Cond>,
        body: &'a [Stmt],
    },
    Each {
        var: Ident,
        list: Ident,
        body: &'a [Stmt],
    },
    Insert {
        table: Ident,
        values: &'a [Expr],
    },
    Fresh {
        var: Ident,
        table: Ident,
        values: &'a [Expr],
    },
    Update {
        table: Ident,
        key: &'a [Expr],
        sets: &'a [(Ident, Expr)],
    },
    Remove {
        table: Ident,
        key: &'a [Expr],
    },
    Abort {
        code: u16,
    },
    Reply(&'a Expr),
}

/// The parts of a statement.
#[tactic(auto, using(crate::proofs::Trees::hidden_is))]
pub fn parts_of(stmt: &Stmt) -> Parts<'_>
    ensures { command_of stmt.now ≡ command_of_parts result }
{
    match stmt {
        Stmt::Let { var, value } => Parts::Let { var: *var, value },
        Stmt::Assign { var, value } => Parts::Assign { var: *var, value },
        Stmt::Get { row, table, key } => Parts::Get {
            row: *row,
            table: *table,
            key,
        },
        Stmt::If { cond, yes, no } => Parts::If { cond, yes, no },
        Stmt::Rows {
            row,
            table,
            cond,
            body,
        } => Parts::Rows {
            row: *row,
            table: *table,
            cond,
            body,
        },
        Stmt::Each { var, list, body } => Parts::Each {
            var: *var,
            list: *list,
            body,
        },
        Stmt::Insert { table, values } => Parts::Insert {
            table: *table,
            values,
        },
        Stmt::Fresh { var, table, values } => Parts::Fresh {
            var: *var,
            table: *table,
            values,
        },
        Stmt::Update { table, key, sets } => Parts::Update {
            table: *table,
            key,
            sets,
        },
        Stmt::Remove { table, key } => Parts::Remove { table: *table, key },
        Stmt::Abort { code } => Parts::Abort { code: *code },
        Stmt::Reply(value) => Parts::Reply(value),
    }
}

/// A choice between two blocks.
pub fn if_else(cond: Cond, yes: Vec<Stmt>, no: Vec<Stmt>) -> Stmt
    ensures { command_of result ≡ Choose (test_of cond) (block_of yes.items) (block_of no.items) }
{
    Stmt::If { cond, yes, no }
}

/// A loop over rows.
pub fn rows(row: Ident, table: Ident, cond: Option<Cond>, body: Vec<Stmt>) -> Stmt
    ensures { command_of result ≡ ForRows row table (option_map test_of cond) (block_of body.items) }
{
    Stmt::Rows {
        row,
        table,
        cond,
        body,
    }
}

/// A loop over a list.
pub fn each(var: Ident, list: Ident, body: Vec<Stmt>) -> Stmt
    ensures { command_of result ≡ ForEach var list (block_of body.items) }
{
    Stmt::Each { var, list, body }
}
