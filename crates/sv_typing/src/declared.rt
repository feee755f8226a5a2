ghost use Rattle.std.specs.Prelude.{◌≡◌, ◌++◌, [], ◌∷◌, map, IfOk, OnOk};
ghost use Rattle.std.specs.List.{flat_map};
ghost use Rattle.sv_app.specs.declared.apps.Ident.{Ident as IdentValue};
ghost use Rattle.sv_app.specs.declared.schemas.Ty.{Ty as TyValue};
ghost use Rattle.sv_app.specs.Statements.{inner_statements, block_statements};
ghost use Rattle.sv_app.specs.Trees.{command_of, block_of, transaction_of};
ghost use Rattle.sv_app.specs.TxnNames.{plain_name, declared_by, declares};

use std::alloc::Global;
use sv_app::{Declared, Ident, Parts, Stmt, Txn, Ty, parts_of};
use sv_value::NoMemory;

fn put_name(names: &mut Vec<Declared>, name: Ident, table: Option<Ident>) -> Result<(), NoMemory>
    ensures { OnOk result (names.new.items ≡ names.old.items ++ record { name = name; table = table } ∷ []) }
{
    names.push(Declared { name, table })?;
    Ok(())
}

/// Appends the name that a statement declares, if it does.
fn put_own(names: &mut Vec<Declared>, stmt: &Stmt) -> Result<(), NoMemory>
    ensures { OnOk result (names.new.items ≡ names.old.items ++ declared_by (command_of stmt.now)) }
{
    match parts_of(stmt) {
        Parts::Let { var, .. } => put_name(names, var, None),
        Parts::Get { row, table, .. } => put_name(names, row, Some(table)),
        Parts::Rows { row, table, .. } => put_name(names, row, Some(table)),
        Parts::Each { var, .. } | Parts::Fresh { var, .. } => put_name(names, var, None),
        Parts::Assign { .. }
        | Parts::If { .. }
        | Parts::Insert { .. }
        | Parts::Update { .. }
        | Parts::Remove { .. }
        | Parts::Abort { .. }
        | Parts::Reply(_) => Ok(()),
    }
}

/// Appends the names that a block declares, in the order of the text.
#[cycle(declare)]
#[tactic(auto, using(sv_app::proofs::Trees::weight_at, crate::proofs::DeclaredLaws::declaring))]
fn put_all(names: &mut Vec<Declared>, stmts: &[Stmt]) -> Result<(), NoMemory>
    ensures { OnOk result (names.new.items ≡ names.old.items ++ flat_map declared_by (block_statements (block_of stmts.now))) }
{
    for stmt in stmts {
        put_own(names, stmt)?;
        put_inner(names, stmt)?;
    }
    Ok(())
}

/// Appends the names that the blocks of a statement declare.
#[cycle(declare)]
#[tactic(auto, using(sv_app::proofs::Trees::weight_at, crate::proofs::DeclaredLaws::declaring))]
fn put_inner(names: &mut Vec<Declared>, stmt: &Stmt) -> Result<(), NoMemory>
    ensures { OnOk result (names.new.items ≡ names.old.items ++ flat_map declared_by (inner_statements (command_of stmt.now))) }
{
    match parts_of(stmt) {
        Parts::If { yes, no, .. } => {
            put_all(names, yes)?;
            put_all(names, no)
        }
        Parts::Rows { body, .. } => put_all(names, body),
        Parts::Each { body, .. } => put_all(names, body),
        _ => Ok(()),
    }
}

fn put_params(names: &mut Vec<Declared>, params: &[(Ident, Ty)]) -> Result<(), NoMemory>
    ensures { OnOk result (names.new.items ≡ names.old.items ++ map (λ (p : IdentValue × TyValue). plain_name p.0) params.now) }
{
    for (name, _) in params {
        put_name(names, *name, None)?;
    }
    Ok(())
}

/// The names that the transaction declares, its parameters first.
pub fn declares(alloc: Global, txn: &Txn) -> Result<Vec<Declared>, NoMemory>
    ensures { IfOk result (λ names. names.items ≡ declares (transaction_of txn.now)) }
{
    let mut names = Vec::new(alloc);
    put_params(&mut names, &txn.params)?;
    put_all(&mut names, &txn.body)?;
    Ok(names)
}
