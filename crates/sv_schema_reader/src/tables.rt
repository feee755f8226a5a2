ghost use Rattle.std.specs.Prelude.{◌≡◌, ◌≤◌, ◌+◌, ◌*◌, length, ◌<◌, OnOk, IfOk, [], map, true};
ghost use Rattle.sv_app.specs.Schema.{declaration_of, schema_of, rule_of};
ghost use Rattle.sv_schema_reader.specs.Reading.{with_key, with_rule, undeclared, item_step, table_at, begins_table, table_step, tables_at, schema_at, invs_in};
ghost use Rattle.sv_reader.specs.Reading.{Reads, list_at};

use crate::columns::{KeyNames, column, key, table_kind};
use crate::invariants::{Demanded, demands, invariant};
use std::alloc::Global;
use sv_app::limits::{MOST_COLUMNS, MOST_INVARIANTS, MOST_TABLES};
use sv_app::{Code, Ident, Inv, Kind, Refusal, Stop, Table};
use sv_lex::{Mark, Token};
use sv_reader::{ReadStop, Reader};
use sv_value::{NoMemory, Spot};

/// Adds a primary key: the first one is the table's, of the second its first name is kept.
fn add_key(table: &mut Table, names: &KeyNames) -> Result<(), NoMemory>
    ensures key { OnOk result (declaration_of table.new ≡ with_key (declaration_of table.old) names.now.first names.now.second) }
    ensures same { OnOk result (table.new.invs ≡ table.old.invs) }
{
    if table.key.is_empty() {
        table.key.push(names.first)?;
        if let Some(second) = names.second {
            table.key.push(second)?;
        }
        return Ok(());
    }
    if table.second_key.is_none() {
        table.second_key = Some(names.first);
    }
    Ok(())
}

/// Adds an invariant, if `count` invariants stand in the tables before.
fn add_invariant(table: &mut Table, count: u16, demanded: Demanded) -> Result<(), NoMemory>
    requires counted { count ≤ 240 }
    requires room { length table.old.invs.items < 16 }
    ensures added { OnOk result (declaration_of table.new ≡ with_rule count (declaration_of table.old) (demanded.spot, rule_of demanded.body)) }
    ensures few { OnOk result (length table.new.invs.items ≤ 16) }
{
    let number = count + table.invs.len() as u16 + 1;
    table.invs.push(Inv {
        number,
        body: demanded.body,
        spot: demanded.spot,
    })?;
    Ok(())
}

/// A table without columns, keys and invariants.
fn undeclared(alloc: Global, kind: Kind, name: Ident) -> Table
    ensures declared { declaration_of result ≡ undeclared kind name }
    ensures none { result.invs.items ≡ [] }
{
    Table {
        name,
        kind,
        columns: Vec::new(alloc),
        key: Vec::new(alloc),
        second_key: None,
        invs: Vec::new(alloc),
    }
}

#[tactic(auto, unfolding(crate::specs::Reading::item_step))]
fn add_item(
    alloc: Global,
    reader: &mut Reader<'_>,
    table: &mut Table,
    count: u16,
) -> Result<(), ReadStop>
    requires counted { count ≤ 240 }
    requires room { length table.old.invs.items ≤ 16 }
    ensures read { Reads (λ _. declaration_of table.new) result reader.new.rest.now (item_step count (declaration_of table.old) reader.old.rest.now) }
    ensures few { OnOk result (length table.new.invs.items ≤ 16) }
{
    if reader.is_name() {
        if table.columns.len() >= MOST_COLUMNS {
            return Err(ReadStop::Faulty(reader.too_many()));
        }
        let column = column(reader)?;
        table.columns.push(column)?;
        return Ok(());
    }
    if reader.is_word(b"primary") {
        let key = key(reader)?;
        add_key(table, &key)?;
        return Ok(());
    }
    if demands(reader) {
        if table.invs.len() >= MOST_INVARIANTS {
            return Err(ReadStop::Faulty(reader.too_many()));
        }
        let demanded = invariant(alloc, reader)?;
        add_invariant(table, count, demanded)?;
        return Ok(());
    }
    Err(ReadStop::Faulty(reader.misplaced()))
}

/// Reads the items of a table, up to its parenthesis.
#[tactic(auto, unfolding(sv_reader::specs::Reading::list_at), using(crate::proofs::LoopLaws::items))]
fn add_items(
    alloc: Global,
    reader: &mut Reader<'_>,
    table: &mut Table,
    count: u16,
) -> Result<(), ReadStop>
    requires counted { count ≤ 240 }
    requires room { length table.old.invs.items ≤ 16 }
    ensures read { Reads (λ _. declaration_of table.new) result reader.new.rest.now (list_at (item_step count) (declaration_of table.old) reader.old.rest.now) }
    ensures few { OnOk result (length table.new.invs.items ≤ 16) }
{
    add_item(alloc, reader, table, count)?;
    while reader.is_mark(Mark::Comma) {
        reader.mark(Mark::Comma)?;
        add_item(alloc, reader, table, count)?;
    }
    reader.mark(Mark::RightParen)?;
    Ok(())
}

/// Reads a table, if `count` invariants stand in the tables before.
#[tactic(auto, unfolding(crate::specs::Reading::table_at))]
fn table(alloc: Global, reader: &mut Reader<'_>, count: u16) -> Result<Table, ReadStop>
    requires counted { count ≤ 240 }
    ensures read { Reads declaration_of result reader.new.rest.now (table_at count reader.old.rest.now) }
    ensures few { IfOk result (λ table. length table.invs.items ≤ 16) }
{
    let kind = table_kind(reader)?;
    reader.word(b"create")?;
    reader.word(b"table")?;
    let name = reader.name()?;
    reader.mark(Mark::LeftParen)?;
    let mut table = undeclared(alloc, kind, name);
    add_items(alloc, reader, &mut table, count)?;
    reader.mark(Mark::Semi)?;
    Ok(table)
}

/// Whether a table begins here.
fn begins_table(reader: &Reader<'_>) -> bool
    ensures { result ≡ begins_table reader.now.rest.now }
{
    reader.is_mark(Mark::At) || reader.is_word(b"create")
}

/// Reads a table that begins here; `count` invariants stand in the tables before, and the answer is the number of
/// them with those of this one.
#[tactic(auto, unfolding(crate::specs::Reading::table_step), using(crate::proofs::CountLaws::counts))]
fn add_table(
    alloc: Global,
    reader: &mut Reader<'_>,
    tables: &mut Vec<Table>,
    count: u16,
) -> Result<u16, ReadStop>
    requires counted { count ≡ invs_in (schema_of tables.old.items) }
    requires small { count ≤ 16 * length tables.old.items }
    requires begun { begins_table reader.old.rest.now ≡ true }
    ensures read { Reads (λ _. schema_of tables.new.items) result reader.new.rest.now (table_step (schema_of tables.old.items) reader.old.rest.now) }
    ensures count { IfOk result (λ count. count ≡ invs_in (schema_of tables.new.items)) }
    ensures small { IfOk result (λ count. count ≤ 16 * length tables.new.items) }
    ensures room { OnOk result (length tables.new.items ≤ 16) }
{
    if tables.len() >= MOST_TABLES {
        return Err(ReadStop::Faulty(reader.too_many()));
    }
    let table = table(alloc, reader, count)?;
    let count = count + table.invs.len() as u16;
    tables.push(table)?;
    Ok(count)
}

/// Reads the tables of a document, at least one.
#[tactic(auto, unfolding(crate::specs::Reading::schema_at), using(crate::proofs::LoopLaws::all_tables, crate::proofs::CountLaws::counts))]
pub fn schema(alloc: Global, reader: &mut Reader<'_>) -> Result<Vec<Table>, ReadStop>
    ensures { Reads (λ tables. schema_of tables.items) result reader.new.rest.now (schema_at reader.old.rest.now) }
{
    if !begins_table(reader) {
        return Err(ReadStop::Faulty(reader.misplaced()));
    }
    let mut tables = Vec::new(alloc);
    let mut count = add_table(alloc, reader, &mut tables, 0)?;
    while begins_table(reader) {
        count = add_table(alloc, reader, &mut tables, count)?;
    }
    Ok(tables)
}
