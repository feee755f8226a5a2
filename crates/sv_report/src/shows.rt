//! The rows of a table, as they print.

ghost use Rattle.std.specs.Prelude.{◌≡◌, ◌++◌, ◌<◌, OnOk, IfOk, length, slice_get};
ghost use Rattle.std.specs.List.{flat_map};
ghost use Rattle.sv_effect.specs.Agrees.{place_at, seen_at};
ghost use Rattle.sv_effect.specs.BareTables.{bare};
ghost use Rattle.sv_effect.specs.Reads.{seen_of};
ghost use Rattle.sv_effect.specs.Run.{present_keys};
ghost use Rattle.sv_core.specs.Document.{document_of};
ghost use Rattle.sv_core.specs.History.{tables_at};
ghost use Rattle.sv_core.specs.Mediums.{doc_of};
ghost use Rattle.sv_core.specs.Sound.{IsSite};
ghost use Rattle.sv_report.specs.Lines.{show_head, show_lines};
ghost use Rattle.sv_report.specs.ReplayText.{name_of, rows_of};
ghost use Rattle.sv_report.specs.Shows.{line_at};

use crate::texts::{put_bytes, put_numbered};
use crate::values::put_row;
use std::alloc::Global;
use sv_core::{Doc, SiteRows, World};
use sv_effect::{Halt, Rows, Seen, present_keys};
use sv_value::{Key, List, Name, NoMemory, Site};

/// The keys of the present rows of a table, in order.
fn keys_of(alloc: Global, rows: &mut SiteRows<'_>, table: u16) -> Result<List<Key>, NoMemory>
    ensures keys { IfOk result (λ keys. keys ≡ present_keys (bare rows.old.store.now.tables) table) }
    ensures same { rows.new.store.now ≡ rows.old.store.now }
{
    match present_keys(alloc, table, rows) {
        Ok(keys) => Ok(keys),
        Err(Halt::NoMemory) => Err(NoMemory),
        Err(Halt::Missing(_)) => unreachable!(),
    }
}

/// What a site has under a key of a table.
fn seen_at(rows: &mut SiteRows<'_>, table: u16, key: &Key) -> Seen
    ensures seen { seen_of result ≡ seen_at (bare rows.old.store.now.tables) (place_at table key.now) }
    ensures same { rows.new.store.now ≡ rows.old.store.now }
{
    match rows.row(table, key) {
        Ok(seen) => seen,
        Err(Halt::NoMemory) => unreachable!(),
        Err(Halt::Missing(_)) => unreachable!(),
    }
}

/// Appends the line of the row under a key of a table.
fn put_row_at(
    out: &mut Vec<u8>,
    rows: &mut SiteRows<'_>,
    table: u16,
    key: &Key,
) -> Result<(), NoMemory>
    ensures line { OnOk result (out.new.items ≡ out.old.items ++ line_at (bare rows.old.store.now.tables) table key.now) }
    ensures same { rows.new.store.now ≡ rows.old.store.now }
{
    let seen = seen_at(rows, table, key);
    put_row(out, seen.values.as_slice())
}

/// Appends the lines of the rows under these keys of a table.
#[tactic(auto, using(crate::proofs::ShowLaws::shows))]
fn put_rows_at(
    out: &mut Vec<u8>,
    rows: &mut SiteRows<'_>,
    table: u16,
    keys: &[Key],
) -> Result<(), NoMemory>
    ensures { OnOk result (out.new.items ≡ out.old.items ++ flat_map (line_at (bare rows.old.store.now.tables) table) keys.now) }
{
    for key in keys {
        put_row_at(out, rows, table, key)?;
    }
    Ok(())
}

/// Appends the line of how many rows a site has of the table with this name.
#[tactic(auto, using(crate::proofs::AppendLaws::appends))]
fn put_head(out: &mut Vec<u8>, site: Site, name: &Name, count: usize) -> Result<(), NoMemory>
    ensures { OnOk result (out.new.items ≡ out.old.items ++ show_head site name.now count) }
{
    put_numbered(out, b"show ", site.number() as u64)?;
    put_bytes(out, b" ")?;
    put_bytes(out, name.bytes())?;
    put_numbered(out, b" ", count as u64)?;
    put_bytes(out, b"\n")
}

/// The name of the table of this number.
#[tactic(auto, using(crate::proofs::ShowLaws::naming))]
fn name_at(doc: &Doc, table: u16) -> &Name
    requires { table < length (document_of doc.now).schema }
    ensures { result.now ≡ name_of (slice_get (document_of doc.now).schema table) }
{
    &doc.app.tables[table as usize].name.name
}

/// Appends how many present rows of the table a site has, and the line of each of them, in the order of their keys.
#[tactic(auto, using(crate::proofs::AppendLaws::appends, crate::proofs::ShowLaws::listed))]
pub fn put_rows(
    alloc: Global,
    out: &mut Vec<u8>,
    w: &World,
    site: Site,
    table: u16,
) -> Result<(), NoMemory>
    requires site { IsSite (doc_of w.now.medium) site }
    requires table { table < length (doc_of w.now.medium).schema }
    ensures { OnOk result (out.new.items ≡ out.old.items ++ show_lines site (name_of (slice_get (doc_of w.now.medium).schema table)) (rows_of table (tables_at (doc_of w.now.medium) w.now.medium.history site))) }
{
    let mut rows = w.site_rows(site);
    let keys = keys_of(alloc, &mut rows, table)?;
    put_head(out, site, name_at(w.doc(), table), keys.len())?;
    put_rows_at(out, &mut rows, table, keys.items())
}
