ghost use Rattle.std.specs.Prelude.{◌≡◌, ◌≤◌, ◌<◌, ◌==◌, length, true, false, IfSome, IfNone, MatchOption, ℕ};
ghost use Rattle.std.specs.List.{list_any, slice_get};
ghost use Rattle.sv_app.specs.Schema.{declaration_of, schema_of, rule_of};
ghost use Rattle.sv_app.specs.Lookups.{holds_of};
ghost use Rattle.sv_app.specs.References.{referred, refers, Leads, IsOnCycle, IsCyclic};
ghost use Rattle.sv_typing.specs.Reached.{is_in, AreLedTo, IsApart, IsClosed};

use crate::named::place_of;
use sv_app::limits::MOST_TABLES;
use sv_app::{Code, InvBody, Refusal, Table};

/// The number of the table that an invariant refers to.
#[tactic(auto, using(crate::proofs::LookupLaws::names_declared))]
fn referred(tables: &[Table], body: &InvBody) -> Option<usize>
    ensures { result ≡ referred (schema_of tables.now) (rule_of body.now) }
{
    match body {
        InvBody::Refers { table, .. } => place_of(table, tables),
        _ => None,
    }
}

/// Whether an invariant refers to that table.
fn is_referred(tables: &[Table], body: &InvBody, other: usize) -> bool
    ensures { result ≡ holds_of (referred (schema_of tables.now) (rule_of body.now)) (λ place. place == other) }
{
    match referred(tables, body) {
        Some(place) => place == other,
        None => false,
    }
}

/// Whether the table has a reference to the other.
#[tactic(auto, using(crate::proofs::LookupLaws::anys))]
fn has_reference(tables: &[Table], table: &Table, other: usize) -> bool
    ensures { result ≡ list_any (λ inv. holds_of (referred (schema_of tables.now) inv.rule) (λ place. place == other)) (declaration_of table.now).invs }
{
    for inv in &table.invs {
        if is_referred(tables, &inv.body, other) {
            return true;
        }
    }
    false
}

/// Whether the table of that number has a reference to the other.
fn refers(tables: &[Table], table: usize, other: usize) -> bool
    requires { table < length tables.now }
    ensures { result ≡ refers (schema_of tables.now) table other }
{
    has_reference(tables, &tables[table], other)
}

/// Whether the first table or one of the set refers to the table.
fn is_next(tables: &[Table], start: usize, reached: &[bool], table: usize) -> bool
    requires start { start < length tables.now }
    requires room { length tables.now ≤ length reached.now }
    requires led { AreLedTo (schema_of tables.now) start reached.now }
    ensures found { result ≡ true → Leads (schema_of tables.now) start table }
    ensures apart { result ≡ false → IsApart (schema_of tables.now) start reached.now table }
{
    if refers(tables, start, table) {
        return true;
    }
    for from in 0..tables.len() {
        if reached[from] && refers(tables, from, table) {
            return true;
        }
    }
    false
}

/// A table outside the set to which references lead.
fn missing(tables: &[Table], start: usize, reached: &[bool]) -> Option<usize>
    requires start { start < length tables.now }
    requires room { length tables.now ≤ length reached.now }
    requires led { AreLedTo (schema_of tables.now) start reached.now }
    ensures outside { IfSome result (λ table. is_in reached.now table ≡ false) }
    ensures within { IfSome result (λ table. table < length tables.now) }
    ensures led { IfSome result (λ table. Leads (schema_of tables.now) start table) }
    ensures closed { IfNone result (IsClosed (schema_of tables.now) start reached.now) }
{
    for table in 0..tables.len() {
        if !reached[table] && is_next(tables, start, reached, table) {
            return Some(table);
        }
    }
    None
}

/// The tables to which references lead from the table.
fn reach(tables: &[Table], start: usize) -> [bool; MOST_TABLES]
    requires few { length tables.now ≤ 16 }
    requires start { start < length tables.now }
    ensures led { AreLedTo (schema_of tables.now) start result }
    ensures closed { IsClosed (schema_of tables.now) start result }
{
    let mut reached = [false; MOST_TABLES];
    loop {
        match missing(tables, start, &reached) {
            Some(table) => reached[table] = true,
            None => return reached,
        }
    }
}

/// Whether references lead from the table back to it.
fn is_on_cycle(tables: &[Table], table: usize) -> bool
    requires few { length tables.now ≤ 16 }
    requires within { table < length tables.now }
    ensures cyclic { result ≡ true → IsOnCycle (schema_of tables.now) table }
    ensures free { result ≡ false → IsOnCycle (schema_of tables.now) table → ⊥ }
{
    let reached = reach(tables, table);
    reached[table]
}

/// The refusal of the first table that is on a cycle.
pub fn first_cycle(tables: &[Table]) -> Option<Refusal>
    requires { length tables.now ≤ 16 }
    ensures { MatchOption result ((table : ℕ) → IsOnCycle (schema_of tables.now) table → ⊥) (λ refusal. IsCyclic (schema_of tables.now) refusal) }
{
    for table in 0..tables.len() {
        if is_on_cycle(tables, table) {
            return Some(Refusal {
                spot: tables[table].name.spot,
                code: Code::Cyclic,
            });
        }
    }
    None
}
