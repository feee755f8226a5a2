ghost use Rattle.std.specs.Prelude.{◌≡◌, OnOk};
ghost use Rattle.std.specs.List.{flat_map};
ghost use Rattle.sv_app.specs.Schema.{schema_of};
ghost use Rattle.sv_app.specs.Trees.{block_of, transaction_of, transactions_of};
ghost use Rattle.sv_app.specs.Scopes.{opening};
ghost use Rattle.sv_app.specs.TxnNames.{names_of};
ghost use Rattle.sv_app.specs.TxnTyping.{block_faults, txn_faults, txns_faults};
ghost use Rattle.sv_app.specs.Typing.{repeats};
ghost use Rattle.sv_typing.specs.Noted.{noted};

use crate::declared::declares;
use crate::firsts::First;
use crate::named::note_repeats;
use crate::scopes::known_parameters;
use crate::statements::note_block;
use std::alloc::Global;
use sv_app::{Table, Txn};
use sv_value::NoMemory;

/// Notes each name that the transaction declares a second time.
fn note_names(alloc: Global, first: &mut First, txn: &Txn) -> Result<(), NoMemory>
    ensures { OnOk result (first.new.held ≡ noted first.old.held (repeats (names_of (transaction_of txn.now)))) }
{
    let names = declares(alloc, txn)?;
    note_repeats(first, &names);
    Ok(())
}

/// Notes what is wrong with the statements of the transaction.
fn note_body(alloc: Global, first: &mut First, tables: &[Table], txn: &Txn) -> Result<(), NoMemory>
    ensures { OnOk result (first.new.held ≡ noted first.old.held (block_faults (opening (schema_of tables.now) txn.now.params.items) (block_of txn.now.body.items))) }
{
    let known = known_parameters(alloc, &txn.params)?;
    note_block(alloc, first, tables, &known, &txn.body)?;
    Ok(())
}

/// Notes what is wrong in a transaction.
#[tactic(auto, using(crate::proofs::NotedLaws::noting))]
fn note_txn(alloc: Global, first: &mut First, tables: &[Table], txn: &Txn) -> Result<(), NoMemory>
    ensures { OnOk result (first.new.held ≡ noted first.old.held (txn_faults (schema_of tables.now) (transaction_of txn.now))) }
{
    note_names(alloc, first, txn)?;
    note_body(alloc, first, tables, txn)?;
    Ok(())
}

fn note_each(
    alloc: Global,
    first: &mut First,
    tables: &[Table],
    txns: &[Txn],
) -> Result<(), NoMemory>
    ensures { OnOk result (first.new.held ≡ noted first.old.held (flat_map (λ txn. txn_faults (schema_of tables.now) txn) (transactions_of txns.now))) }
{
    for txn in txns {
        note_txn(alloc, first, tables, txn)?;
    }
    Ok(())
}

/// Notes what is wrong with the names and types of the transactions.
#[tactic(auto, using(crate::proofs::NotedLaws::noting, crate::proofs::DeclaredLaws::txn_names_are))]
pub fn note_txns(
    alloc: Global,
    first: &mut First,
    tables: &[Table],
    txns: &[Txn],
) -> Result<(), NoMemory>
    ensures { OnOk result (first.new.held ≡ noted first.old.held (txns_faults (schema_of tables.now) (transactions_of txns.now))) }
{
    note_repeats(first, txns);
    note_each(alloc, first, tables, txns)?;
    Ok(())
}
