ghost use Rattle.std.specs.Prelude.{◌≡◌, ◌++◌, List, OnOk, not};
ghost use Rattle.std.specs.Prelude.{None as none};
ghost use Rattle.sv_app.specs.declared.refusals.Refusal.{Refusal as RefusalValue};
ghost use Rattle.std.specs.Option.{option_map};
ghost use Rattle.sv_app.specs.Trees.{command_of, block_of, term_of, test_of, Assign};
ghost use Rattle.sv_app.specs.TxnTyping.{assignment_faults, no_table, condition_faults, inner_faults, walk_faults, is_list as list_is, type_if_right, declared_type, behind, command_faults, block_faults};
ghost use Rattle.sv_app.specs.Lookups.{holds_of};
ghost use Rattle.sv_typing.specs.Noted.{noted};
ghost use Rattle.sv_typing.specs.Standing.{scope_of, in_block, knowing as knowing_if};
ghost use Rattle.sv_app.specs.Scopes.{knowing};
ghost use Rattle.sv_app.specs.declared.names.Meaning.TheVariants.{Row};

use crate::changes::{note_fetch, note_fresh, note_insert, note_remove, note_update};
use crate::expressions::{note_condition, note_term, note_test};
use crate::firsts::First;
use crate::scopes::{Scope, meaning_of, with_name};
use crate::terms::{are_apart, type_of};
use crate::values::note_no_table;
use std::alloc::Global;
use sv_app::{Code, Cond, Expr, Ident, Known, Meaning, Parts, Stmt, Table, Ty, parts_of, spot_of};
use sv_value::NoMemory;

/// Notes what is wrong with the variable that is assigned to, and with the type of its value.
fn note_assignment(
    first: &mut First,
    at: &Scope,
    meaning: Option<Meaning>,
    name: &Ident,
    value: &Expr,
)
    ensures { first.new.held ≡ noted first.old.held (assignment_faults (scope_of at.now) meaning name.now (term_of value.now)) }
{
    match meaning {
        None => first.note_if(true, name.spot, Code::Unknown),
        Some(Meaning::Variable(ty)) => first.note_if(
            are_apart(ty, type_of(at, value)),
            spot_of(value),
            Code::Typing,
        ),
        Some(_) => first.note_if(true, name.spot, Code::Typing),
    }
}

/// Notes what is wrong with an assignment.
#[tactic(auto, using(crate::proofs::NotedLaws::noting))]
fn note_assign(first: &mut First, at: &Scope, name: &Ident, value: &Expr)
    ensures { first.new.held ≡ noted first.old.held (command_faults (scope_of at.now) (Assign name.now (term_of value.now))) }
{
    note_assignment(first, at, meaning_of(at, name), name, value);
    note_term(first, at, value);
}

/// Whether it isn't a list parameter.
fn is_no_list(meaning: Option<Meaning>) -> bool
    ensures { result ≡ holds_of meaning (λ m. not (list_is m)) }
{
    !matches!(meaning, None | Some(Meaning::Parameter(Ty::Ints)))
}

/// Notes a name that stands for nothing, or for no list.
#[tactic(auto, using(crate::proofs::NotedLaws::noting))]
fn note_walk(first: &mut First, meaning: Option<Meaning>, name: &Ident)
    ensures { first.new.held ≡ noted first.old.held (walk_faults meaning name.now) }
{
    first.note_if(meaning.is_none(), name.spot, Code::Unknown);
    first.note_if(is_no_list(meaning), name.spot, Code::Typing);
}

/// Notes what is wrong with the table of a loop over rows, and with its condition.
#[tactic(auto, using(crate::proofs::NotedLaws::noting))]
fn note_rows(
    alloc: Global,
    first: &mut First,
    at: &Scope,
    row: &Ident,
    table: &Ident,
    cond: &Option<Cond>,
) -> Result<(), NoMemory>
    ensures { OnOk result (first.new.held ≡ noted first.old.held (no_table (scope_of at.now).schema table.now ++ condition_faults (knowing (scope_of at.now) row.now (Row table.now)) (option_map test_of cond.now))) }
{
    note_no_table(first, at.tables, table);
    let inside = with_name(alloc, at.known, *row, Meaning::Row(*table))?;
    let there = Scope {
        tables: at.tables,
        known: &inside,
        updated: at.updated,
    };
    note_condition(first, &there, cond);
    Ok(())
}

/// Notes what is wrong with a statement, the blocks in it left out.
fn note_stmt(alloc: Global, first: &mut First, at: &Scope, stmt: &Stmt) -> Result<(), NoMemory>
    ensures { OnOk result (first.new.held ≡ noted first.old.held (command_faults (scope_of at.now) (command_of stmt.now))) }
{
    match parts_of(stmt) {
        Parts::Let { value, .. } => note_term(first, at, value),
        Parts::Reply(value) => note_term(first, at, value),
        Parts::Assign { var, value } => note_assign(first, at, &var, value),
        Parts::Get { row, table, key } => note_fetch(first, at, &row, &table, key),
        Parts::If { cond, .. } => note_test(first, at, cond),
        Parts::Rows {
            row,
            table,
            cond,
            ..
        } => return note_rows(alloc, first, at, &row, &table, cond),
        Parts::Each { list, .. } => note_walk(first, meaning_of(at, &list), &list),
        Parts::Insert { table, values } => note_insert(first, at, &table, values),
        Parts::Fresh { var, table, values } => {
            return note_fresh(alloc, first, at, &var, &table, values);
        }
        Parts::Update { table, key, sets } => {
            return note_update(alloc, first, at, &table, key, sets);
        }
        Parts::Remove { table, key } => note_remove(first, at, &table, key),
        Parts::Abort { .. } => {}
    }
    Ok(())
}

/// The type, where nothing was found to be wrong.
#[tactic(auto, using(crate::proofs::StatementLaws::rights))]
fn type_if_right(first: &First, ty: Option<Ty>) -> Option<Ty>
    ensures { (faults : List RefusalValue) → first.now.held ≡ noted none faults → result ≡ type_if_right faults ty }
{
    match &first.held {
        Some(_) => None,
        None => ty,
    }
}

/// The type of a variable that is declared with the expression.
fn declared_type(at: &Scope, value: &Expr) -> Option<Ty>
    ensures { result ≡ declared_type (scope_of at.now) (term_of value.now) }
{
    let mut first = First::none();
    note_term(&mut first, at, value);
    let ty = type_of(at, value);
    type_if_right(&first, ty)
}

/// What is declared by a statement, for the statements behind it.
fn declared_by(at: &Scope, stmt: &Stmt) -> Option<Known>
    ensures { behind (scope_of at.now) (command_of stmt.now) ≡ knowing_if (scope_of at.now) result }
{
    match parts_of(stmt) {
        Parts::Let { var, value } => Some(Known {
            name: var,
            meaning: Meaning::Variable(declared_type(at, value)),
        }),
        Parts::Get { row, table, .. } => Some(Known {
            name: row,
            meaning: Meaning::Row(table),
        }),
        Parts::Fresh { var, .. } => Some(Known {
            name: var,
            meaning: Meaning::Constant,
        }),
        Parts::Assign { .. }
        | Parts::If { .. }
        | Parts::Rows { .. }
        | Parts::Each { .. }
        | Parts::Insert { .. }
        | Parts::Update { .. }
        | Parts::Remove { .. }
        | Parts::Abort { .. }
        | Parts::Reply(_) => None,
    }
}

/// Adds what the statement declares to what may be used.
fn know(known: &mut Vec<Known>, tables: &[Table], stmt: &Stmt) -> Result<(), NoMemory>
    ensures { OnOk result (behind (in_block tables.now known.old.items) (command_of stmt.now) ≡ in_block tables.now known.new.items) }
{
    let declared = declared_by(&Scope::in_block(tables, known), stmt);
    match declared {
        Some(name) => {
            known.insert(0, name)?;
            Ok(())
        }
        None => Ok(()),
    }
}

/// Notes what is wrong with the statements of a block.
#[cycle(walk)]
#[tactic(auto, using(sv_app::proofs::Trees::weight_at, crate::proofs::StatementLaws::walking))]
pub fn note_block(
    alloc: Global,
    first: &mut First,
    tables: &[Table],
    outside: &[Known],
    stmts: &[Stmt],
) -> Result<(), NoMemory>
    ensures { OnOk result (first.new.held ≡ noted first.old.held (block_faults (in_block tables.now outside.now) (block_of stmts.now))) }
{
    let mut known = Vec::from_slice(alloc, outside)?;
    for stmt in stmts {
        note_stmt(alloc, first, &Scope::in_block(tables, &known), stmt)?;
        note_inner(alloc, first, tables, &known, stmt)?;
        know(&mut known, tables, stmt)?;
    }
    Ok(())
}

/// Notes what is wrong in the blocks of a statement.
#[cycle(walk)]
#[tactic(auto, using(sv_app::proofs::Trees::weight_at, crate::proofs::NotedLaws::noting))]
fn note_inner(
    alloc: Global,
    first: &mut First,
    tables: &[Table],
    known: &[Known],
    stmt: &Stmt,
) -> Result<(), NoMemory>
    ensures { OnOk result (first.new.held ≡ noted first.old.held (inner_faults (in_block tables.now known.now) (command_of stmt.now))) }
{
    match parts_of(stmt) {
        Parts::If { yes, no, .. } => {
            note_block(alloc, first, tables, known, yes)?;
            note_block(alloc, first, tables, known, no)
        }
        Parts::Rows {
            row,
            table,
            body,
            ..
        } => {
            let inside = with_name(alloc, known, row, Meaning::Row(table))?;
            note_block(alloc, first, tables, &inside, body)
        }
        Parts::Each { var, body, .. } => {
            let inside = with_name(alloc, known, var, Meaning::Constant)?;
            note_block(alloc, first, tables, &inside, body)
        }
        _ => Ok(()),
    }
}
