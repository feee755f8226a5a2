ghost use Rattle.std.specs.Prelude.{◌≡◌, ◌==◌, ◌&&◌, not, ◌++◌, ◌∷◌, [], OnOk, IfOk, map, slice_get, if◌then◌else◌};
ghost use Rattle.std.specs.List.{list_any, flat_map};
ghost use Rattle.sv_app.specs.Schema.{declaration_of, schema_of, rule_of, invariant_of};
ghost use Rattle.sv_effect.specs.declared.ops.Need.TheVariants as needs;
ghost use Rattle.sv_effect.specs.Applied.{place_of};
ghost use Rattle.sv_effect.specs.Acts.{is_insert};
ghost use Rattle.sv_effect.specs.Needs.{is_inserted, need_of, kept_need, key_value, set_value, given, grows, present_need, rule_needs, present_needs, needs_from, is_same_need, once, needs_of};
ghost use Rattle.sv_effect.specs.RowChange.{key_values};
ghost use Rattle.sv_effect.specs.RunChanges.{effect_of};
ghost use Rattle.sv_effect.specs.TablesOfCut.{is_place};
ghost use Rattle.sv_interp.specs.Machine.{listed};

use crate::inserts::is_grow_only;
use std::alloc::Global;
use sv_app::{Act, Ident, Inv, InvBody, Place, Table};
use sv_effect::{Need, RowEffect, Write, is_place, key_values};
use sv_value::{Key, List, NoMemory, Val};

/// The place of the row that a change changes.
fn place_of(effect: &RowEffect) -> Place
    ensures { result ≡ place_of effect.now }
{
    Place {
        table: effect.table,
        key: effect.key,
    }
}

fn is_insert(act: Act) -> bool
    ensures { result ≡ is_insert act }
{
    match act {
        Act::Insert | Act::Fresh => true,
        Act::Update | Act::Remove => false,
    }
}

fn inserts_at(place: &Place, effect: &RowEffect) -> bool
    ensures { result ≡ (is_insert (effect_of effect.now).act && is_place place.now (effect_of effect.now).place) }
{
    is_insert(effect.act) && is_place(place, &place_of(effect))
}

/// Whether one of the changes inserts the row.
fn is_inserted(place: &Place, effects: &[RowEffect]) -> bool
    ensures { result ≡ is_inserted place.now (map effect_of effects.now) }
{
    match effects {
        [] => false,
        [first, rest @ ..] => inserts_at(place, first) || is_inserted(place, rest),
    }
}

fn is_same_need(left: &Need, right: &Need) -> bool
    ensures { result ≡ is_same_need left.now right.now }
{
    match (left, right) {
        (Need::Kept { table: t, key: k }, Need::Kept { table: u, key: l }) => {
            is_place(&Place { table: *t, key: *k }, &Place { table: *u, key: *l })
        }
        (Need::Present { table: t, key: k }, Need::Present { table: u, key: l }) => {
            is_place(&Place { table: *t, key: *k }, &Place { table: *u, key: *l })
        }
        _ => false,
    }
}

fn is_held(need: &Need, held: &[Need]) -> bool
    ensures { result ≡ list_any (is_same_need need.now) held.now }
{
    held.iter().any(|other| is_same_need(need, other))
}

/// Adds a need, unless it is held.
fn add(held: &mut List<Need>, need: &Need) -> Result<(), NoMemory>
    ensures { OnOk result (held.new ≡ once held.old (need.now ∷ [])) }
{
    if !is_held(need, held.items()) {
        held.push(*need)?;
    }
    Ok(())
}

fn add_kept(
    held: &mut List<Need>,
    earlier: &[RowEffect],
    effect: &RowEffect,
) -> Result<(), NoMemory>
    ensures { OnOk result (held.new ≡ once held.old (kept_need (map effect_of earlier.now) (effect_of effect.now))) }
{
    if !is_insert(effect.act) && !is_inserted(&place_of(effect), earlier) {
        let need = Need::Kept {
            table: effect.table,
            key: effect.key,
        };
        add(held, &need)?;
    }
    Ok(())
}

fn add_present(
    held: &mut List<Need>,
    all: &[RowEffect],
    table: u16,
    val: &Val,
) -> Result<(), NoMemory>
    ensures { OnOk result (held.new ≡ once held.old (present_need (map effect_of all.now) table val.now)) }
{
    let place = Place {
        table,
        key: Key {
            first: *val,
            second: None,
        },
    };
    if !is_inserted(&place, all) {
        let key = place.key;
        add(held, &Need::Present { table, key })?;
    }
    Ok(())
}

#[tactic(auto, using(crate::proofs::NeedLaws::adding))]
fn add_all_present(
    held: &mut List<Need>,
    all: &[RowEffect],
    table: u16,
    vals: &[Val],
) -> Result<(), NoMemory>
    ensures { OnOk result (held.new ≡ once held.old (flat_map (present_need (map effect_of all.now) table) vals.now)) }
{
    match vals {
        [] => Ok(()),
        [first, rest @ ..] => {
            add_present(held, all, table, first)?;
            add_all_present(held, all, table, rest)
        }
    }
}

fn key_value(names: &[Ident], parts: &[Val], number: u16) -> Option<Val>
    ensures { listed result ≡ key_value names.now parts.now number }
{
    match names {
        [] => None,
        [name, names @ ..] => match parts {
            [] => None,
            [part, parts @ ..] => {
                if name.num == number {
                    Some(*part)
                } else {
                    key_value(names, parts, number)
                }
            }
        },
    }
}

fn put_set(vals: &mut List<Val>, number: u16, write: &(u16, Write)) -> Result<(), NoMemory>
    ensures { OnOk result (vals.new ≡ vals.old ++ (if write.now.0 == number then set_value write.now.1 else [])) }
{
    if write.0 == number {
        if let Write::Set(val) = write.1 {
            vals.push(val)?;
        }
    }
    Ok(())
}

#[tactic(auto, using(crate::proofs::NeedLaws::putting))]
fn put_sets(vals: &mut List<Val>, number: u16, writes: &[(u16, Write)]) -> Result<(), NoMemory>
    ensures { OnOk result (vals.new ≡ vals.old ++ flat_map (λ w. if w.0 == number then set_value w.1 else []) writes.now) }
{
    match writes {
        [] => Ok(()),
        [first, rest @ ..] => {
            put_set(vals, number, first)?;
            put_sets(vals, number, rest)
        }
    }
}

fn key_given(
    alloc: Global,
    table: &Table,
    effect: &RowEffect,
    number: u16,
) -> Result<List<Val>, NoMemory>
    ensures { IfOk result (λ vs. vs ≡ (if is_insert (effect_of effect.now).act then key_value (declaration_of table.now).key (key_values (effect_of effect.now).place.key) number else [])) }
{
    let mut vals = List::new(alloc);
    if is_insert(effect.act) {
        let parts = key_values(alloc, &effect.key)?;
        if let Some(val) = key_value(&table.key, parts.items(), number) {
            vals.push(val)?;
        }
    }
    Ok(vals)
}

/// The values that a change gives a column.
fn given(
    alloc: Global,
    table: &Table,
    effect: &RowEffect,
    number: u16,
) -> Result<List<Val>, NoMemory>
    ensures { IfOk result (λ vs. vs ≡ given (declaration_of table.now) (effect_of effect.now) number) }
{
    let mut vals = key_given(alloc, table, effect, number)?;
    put_sets(&mut vals, number, effect.writes.as_slice())?;
    Ok(vals)
}

fn grows(tables: &[Table], number: u16) -> bool
    ensures { result ≡ grows (slice_get (schema_of tables.now) number) }
{
    match tables.get(number as usize) {
        Some(table) => is_grow_only(table.kind),
        None => false,
    }
}

fn add_rule(
    alloc: Global,
    held: &mut List<Need>,
    tables: &[Table],
    all: &[RowEffect],
    table: &Table,
    effect: &RowEffect,
    body: &InvBody,
) -> Result<(), NoMemory>
    ensures { OnOk result (held.new ≡ once held.old (rule_needs (schema_of tables.now) (map effect_of all.now) (declaration_of table.now) (effect_of effect.now) (rule_of body.now))) }
{
    match body {
        InvBody::Refers {
            col,
            table: referred,
            ..
        } => {
            if grows(tables, referred.num) {
                let vals = given(alloc, table, effect, col.num)?;
                add_all_present(held, all, referred.num, vals.items())?;
            }
            Ok(())
        }
        InvBody::Check(_) | InvBody::List { .. } | InvBody::Unique { .. } => Ok(()),
    }
}

#[tactic(auto, using(crate::proofs::NeedLaws::adding))]
fn add_rules(
    alloc: Global,
    held: &mut List<Need>,
    tables: &[Table],
    all: &[RowEffect],
    table: &Table,
    effect: &RowEffect,
    invs: &[Inv],
) -> Result<(), NoMemory>
    ensures { OnOk result (held.new ≡ once held.old (flat_map (λ inv. rule_needs (schema_of tables.now) (map effect_of all.now) (declaration_of table.now) (effect_of effect.now) inv.rule) (map invariant_of invs.now))) }
{
    match invs.split_first() {
        None => Ok(()),
        Some((first, rest)) => {
            add_rule(alloc, held, tables, all, table, effect, &first.body)?;
            add_rules(alloc, held, tables, all, table, effect, rest)?;
            Ok(())
        }
    }
}

fn add_presents(
    alloc: Global,
    held: &mut List<Need>,
    tables: &[Table],
    all: &[RowEffect],
    effect: &RowEffect,
) -> Result<(), NoMemory>
    ensures { OnOk result (held.new ≡ once held.old (present_needs (schema_of tables.now) (map effect_of all.now) (slice_get (schema_of tables.now) effect.now.table) (effect_of effect.now))) }
{
    match tables.get(effect.table as usize) {
        None => Ok(()),
        Some(table) => add_rules(alloc, held, tables, all, table, effect, &table.invs),
    }
}

#[tactic(auto, using(crate::proofs::NeedLaws::adding))]
fn add_needs(
    alloc: Global,
    held: &mut List<Need>,
    tables: &[Table],
    all: &[RowEffect],
    earlier: &[RowEffect],
    effect: &RowEffect,
) -> Result<(), NoMemory>
    ensures { OnOk result (held.new ≡ once held.old (kept_need (map effect_of earlier.now) (effect_of effect.now)
        ++ present_needs (schema_of tables.now) (map effect_of all.now) (slice_get (schema_of tables.now) effect.now.table) (effect_of effect.now))) }
{
    add_kept(held, earlier, effect)?;
    add_presents(alloc, held, tables, all, effect)?;
    Ok(())
}

/// The rows that the changes of a run need, each once.
#[tactic(auto, using(crate::proofs::NeedLaws::walking))]
pub fn needs(alloc: Global, tables: &[Table], effects: &[RowEffect]) -> Result<List<Need>, NoMemory>
    ensures { IfOk result (λ needs. needs ≡ needs_of (schema_of tables.now) (map effect_of effects.now)) }
{
    let mut held = List::new(alloc);
    for at in 0..effects.len() {
        add_needs(
            alloc,
            &mut held,
            tables,
            effects,
            &effects[..at],
            &effects[at],
        )?;
    }
    Ok(held)
}
