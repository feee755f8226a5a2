ghost use Rattle.std.specs.Prelude.{◌≡◌};
ghost use Rattle.std.specs.List.{flat_map, list_all};
ghost use Rattle.sv_app.specs.declared.refusals.Code.TheVariants.{Typing};
ghost use Rattle.sv_app.specs.Lookups.{is_named};
ghost use Rattle.sv_app.specs.Schema.{declaration_of};
ghost use Rattle.sv_app.specs.Typing.{fault_if, no_column, another_key, key_faults, column_faults, is_only_key, is_misplaced, is_merged_wrong};
ghost use Rattle.sv_app.specs.Kinds.{is_annotated};
ghost use Rattle.sv_typing.specs.Noted.{noted};

use crate::firsts::First;
use crate::lookups::column_of;
use crate::named::note_repeats;
use crate::types::{is_int, is_text};
use sv_app::{Code, Column, Ident, Kind, Merge, Table, is_key, is_named};

/// Notes a name that is no column of the table.
pub fn note_no_column(first: &mut First, table: &Table, name: &Ident)
    ensures { first.new.held ≡ noted first.old.held (no_column (declaration_of table.now) name.now) }
{
    first.note_if(column_of(table, name).is_none(), name.spot, Code::Unknown);
}

fn note_another_key(first: &mut First, table: &Table, second: &Option<Ident>)
    ensures { first.new.held ≡ noted first.old.held (another_key (declaration_of table.now) second.now) }
{
    if let Some(name) = second {
        first.note_if(true, name.spot, Code::Twice);
        note_no_column(first, table, name);
    }
}

fn note_unknown_keys(first: &mut First, table: &Table)
    ensures { first.new.held ≡ noted first.old.held (flat_map (λ name. no_column (declaration_of table.now) name) table.now.key.items) }
{
    for name in &table.key {
        note_no_column(first, table, name);
    }
}

/// Notes what is wrong with the table's key.
#[tactic(auto, using(crate::proofs::NotedLaws::noting))]
pub fn note_keys(first: &mut First, table: &Table)
    ensures { first.new.held ≡ noted first.old.held (key_faults (declaration_of table.now)) }
{
    first.note_if(table.key.is_empty(), table.name.spot, Code::Typing);
    note_another_key(first, table, &table.second_key);
    note_repeats(first, &table.key);
    note_unknown_keys(first, table);
}

/// Whether all of the names are this one.
fn are_all(names: &[Ident], column: &Ident) -> bool
    ensures { result ≡ list_all (λ name. is_named name column.now) names.now }
{
    names.iter().all(|name| is_named(name, column))
}

/// Whether the key names this column and no other.
fn is_only_key(table: &Table, column: &Ident) -> bool
    ensures { result ≡ is_only_key (declaration_of table.now) column.now }
{
    is_key(table, column) && are_all(&table.key, column)
}

fn is_annotated(kind: Kind) -> bool
    ensures { result ≡ is_annotated kind }
{
    match kind {
        Kind::Plain => false,
        Kind::Aoset | Kind::Uoset | Kind::Auset | Kind::Arset => true,
    }
}

/// Whether the merge kind of the column isn't allowed.
fn is_merged_wrong(table: &Table, column: &Column) -> bool
    ensures { result ≡ is_merged_wrong (declaration_of table.now) column.now }
{
    match column.merge {
        Merge::Plain => false,
        Merge::Lww => is_key(table, &column.name),
        Merge::NumDelta => is_key(table, &column.name) || is_text(column.ty),
        Merge::Fresh => {
            !(is_int(column.ty) && is_only_key(table, &column.name) && is_annotated(table.kind))
        }
    }
}

fn note_merges(first: &mut First, table: &Table)
    ensures { first.new.held ≡ noted first.old.held (flat_map (λ c. fault_if (is_merged_wrong (declaration_of table.now) c) c.name.spot Typing) table.now.columns.items) }
{
    for column in &table.columns {
        first.note_if(
            is_merged_wrong(table, column),
            column.name.spot,
            Code::Typing,
        );
    }
}

/// Notes what is wrong with the table's columns.
#[tactic(auto, using(crate::proofs::NotedLaws::noting))]
pub fn note_columns(first: &mut First, table: &Table)
    ensures { first.new.held ≡ noted first.old.held (column_faults (declaration_of table.now)) }
{
    note_repeats(first, &table.columns);
    note_merges(first, table);
}
