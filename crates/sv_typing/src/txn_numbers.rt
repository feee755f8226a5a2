ghost use Rattle.std.specs.Prelude.{◌≡◌, ◌≤◌, length, map, IfOk};
ghost use Rattle.sv_app.specs.Conditions.{KeepsLimits};
ghost use Rattle.sv_app.specs.Schema.{schema_of};
ghost use Rattle.sv_app.specs.Trees.{transaction_of, transactions_of};
ghost use Rattle.sv_app.specs.TxnConditions.{IsSmallTxn, KeepsTxnLimits};
ghost use Rattle.sv_app.specs.TxnNames.{declares as names_declared};
ghost use Rattle.sv_app.specs.TxnNumbers.{naming, txn_names, numbered_parameter, numbered_txn, numbered_txns};
ghost use Rattle.sv_app.specs.Numbers.{numbered_in};
ghost use Rattle.sv_typing.specs.Standing.{naming_of, IsSmall};

use crate::copies::fill_block;
use crate::declared::declares;
use crate::fills::{Naming, number_name};
use crate::numbers::number_in;
use std::alloc::Global;
use sv_app::{Declared, Ident, Table, Txn, Ty};
use sv_value::NoMemory;

/// The names that the transaction declares, which are few.
fn few_names(alloc: Global, txn: &Txn) -> Result<Vec<Declared>, NoMemory>
    requires { IsSmallTxn (transaction_of txn.now) }
    ensures names { IfOk result (λ names. names.items ≡ names_declared (transaction_of txn.now)) }
    ensures few { IfOk result (λ names. length names.items ≤ 144) }
{
    let names = declares(alloc, txn)?;
    Ok(names)
}

fn fill_params(
    alloc: Global,
    by: &Naming,
    params: &[(Ident, Ty)],
) -> Result<Vec<(Ident, Ty)>, NoMemory>
    requires { IsSmall (naming_of by.now) }
    ensures { IfOk result (λ copies. copies.items ≡ map (numbered_parameter (naming_of by.now)) params.now) }
{
    let mut copies = Vec::new(alloc);
    for (name, ty) in params {
        copies.push((number_name(by, name), *ty))?;
    }
    Ok(copies)
}

#[tactic(auto, using(crate::proofs::DeclaredLaws::txn_names_are))]
fn number_txn_name(txns: &[Txn], name: &Ident) -> Ident
    requires { length txns.now ≤ 32 }
    ensures { result ≡ numbered_in (txn_names (transactions_of txns.now)) name.now }
{
    number_in(name, txns)
}

fn fill_txn(alloc: Global, tables: &[Table], txns: &[Txn], txn: &Txn) -> Result<Txn, NoMemory>
    requires limits { KeepsLimits (schema_of tables.now) }
    requires few { length txns.now ≤ 32 }
    requires small { IsSmallTxn (transaction_of txn.now) }
    ensures { IfOk result (λ copy. transaction_of copy ≡ numbered_txn (schema_of tables.now) (transactions_of txns.now) (transaction_of txn.now)) }
{
    let names = few_names(alloc, txn)?;
    let by = Naming {
        tables,
        names: &names,
        updated: &[],
    };
    let params = fill_params(alloc, &by, &txn.params)?;
    let body = fill_block(alloc, &by, &txn.body)?;
    Ok(Txn {
        name: number_txn_name(txns, &txn.name),
        params,
        body,
    })
}

/// The transactions with the numbers of their names.
#[tactic(auto, using(crate::proofs::FillLaws::small_at))]
pub fn number_txns(alloc: Global, tables: &[Table], txns: &[Txn]) -> Result<Vec<Txn>, NoMemory>
    requires limits { KeepsLimits (schema_of tables.now) }
    requires small { KeepsTxnLimits (transactions_of txns.now) }
    ensures { IfOk result (λ copies. transactions_of copies.items ≡ numbered_txns (schema_of tables.now) (transactions_of txns.now)) }
{
    let mut copies = Vec::new(alloc);
    for txn in txns {
        copies.push(fill_txn(alloc, tables, txns, txn)?)?;
    }
    Ok(copies)
}
