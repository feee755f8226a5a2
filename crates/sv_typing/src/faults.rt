ghost use Rattle.std.specs.Prelude.{◌≡◌, IfOk};
ghost use Rattle.std.specs.List.{flat_map};
ghost use Rattle.sv_app.specs.Schema.{declaration_of, schema_of, rule_of, invariant_of};
ghost use Rattle.sv_app.specs.Typing.{rule_faults, table_faults};
ghost use Rattle.sv_app.specs.Trees.{transactions_of};
ghost use Rattle.sv_app.specs.TxnTyping.{all_faults};
ghost use Rattle.sv_typing.specs.Noted.{noted};
ghost use Rattle.std.specs.Prelude.{None as none};

use crate::columns::{note_columns, note_keys};
use crate::firsts::First;
use crate::invariants::{note_check, note_list, note_unique};
use crate::named::note_repeats;
use crate::references::note_reference;
use crate::txns::note_txns;
use std::alloc::Global;
use sv_app::{InvBody, Refusal, Table, Txn};
use sv_value::NoMemory;

fn note_rule(first: &mut First, tables: &[Table], table: &Table, body: &InvBody)
    ensures { first.new.held ≡ noted first.old.held (rule_faults (schema_of tables.now) (declaration_of table.now) (rule_of body.now)) }
{
    match body {
        InvBody::Check(check) => note_check(first, table, check),
        InvBody::List { col, .. } => note_list(first, table, col),
        InvBody::Unique { col } => note_unique(first, table, col),
        InvBody::Refers {
            col,
            table: parent,
            target,
        } => note_reference(first, tables, table, col, parent, target),
    }
}

fn note_rules(first: &mut First, tables: &[Table], table: &Table)
    ensures { first.new.held ≡ noted first.old.held (flat_map (λ inv. rule_faults (schema_of tables.now) (declaration_of table.now) inv.rule) (declaration_of table.now).invs) }
{
    for inv in &table.invs {
        note_rule(first, tables, table, &inv.body);
    }
}

#[tactic(auto, using(crate::proofs::NotedLaws::noting))]
fn note_table(first: &mut First, tables: &[Table], table: &Table)
    ensures { first.new.held ≡ noted first.old.held (table_faults (schema_of tables.now) (declaration_of table.now)) }
{
    note_keys(first, table);
    note_columns(first, table);
    note_rules(first, tables, table);
}

fn note_tables(first: &mut First, tables: &[Table])
    ensures { first.new.held ≡ noted first.old.held (flat_map (λ t. table_faults (schema_of tables.now) t) (schema_of tables.now)) }
{
    for table in tables {
        note_table(first, tables, table);
    }
}

/// What is wrong first with the names and types of the tables and transactions.
pub fn first_fault(
    alloc: Global,
    tables: &[Table],
    txns: &[Txn],
) -> Result<Option<Refusal>, NoMemory>
    ensures { IfOk result (λ found. found ≡ noted none (all_faults (schema_of tables.now) (transactions_of txns.now))) }
{
    let mut first = First::none();
    note_repeats(&mut first, tables);
    note_tables(&mut first, tables);
    note_txns(alloc, &mut first, tables, txns)?;
    Ok(first.held)
}
