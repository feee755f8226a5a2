use crate::plain_changes::is_grow_only;
use std::alloc::Global;
use sv_app::{Act, InvBody, Place, Table};
use sv_effect::{Need, RowEffect, Write};
use sv_value::{Key, List, NoMemory, Val};

fn place_of(effect: &RowEffect) -> Place {
    Place {
        table: effect.table,
        key: effect.key,
    }
}

/// Whether a change of that kind makes a row.
fn is_insert(act: Act) -> bool {
    match act {
        Act::Insert => true,
        Act::Fresh => true,
        Act::Update => false,
        Act::Remove => false,
    }
}

fn insert_among(effects: &[RowEffect], place: &Place) -> bool {
    for effect in effects {
        if is_insert(effect.act) && place_of(effect) == *place {
            return true;
        }
    }
    false
}

/// What a change sets the column to, if it does. An insert sets the columns of the key too.
fn set_value(table: &Table, effect: &RowEffect, col: u16) -> Option<Val> {
    for (number, write) in effect.writes.as_slice() {
        if let Write::Set(val) = write {
            if *number == col {
                return Some(*val);
            }
        }
    }
    if !is_insert(effect.act) {
        return None;
    }
    match table.key.as_slice() {
        [first, ..] if first.num == col => Some(effect.key.first),
        [_, second] if second.num == col => effect.key.second,
        _ => None,
    }
}

fn kept(place: &Place) -> Need {
    Need::Kept {
        table: place.table,
        key: place.key,
    }
}

fn present(place: &Place) -> Need {
    Need::Present {
        table: place.table,
        key: place.key,
    }
}

fn add(needs: &mut List<Need>, need: Need) -> Result<(), NoMemory> {
    if needs.items().contains(&need) {
        return Ok(());
    }
    needs.push(need)
}

/// Adds the rows of grow-only tables that the change refers to.
fn add_references(
    needs: &mut List<Need>,
    tables: &[Table],
    effects: &[RowEffect],
    effect: &RowEffect,
) -> Result<(), NoMemory> {
    let Some(table) = tables.get(effect.table as usize) else {
        return Ok(());
    };
    for inv in &table.invs {
        let InvBody::Refers { col, table: to, .. } = &inv.body else {
            continue;
        };
        let grows = match tables.get(to.num as usize) {
            Some(target) => is_grow_only(target.kind),
            None => false,
        };
        let Some(first) = set_value(table, effect, col.num) else {
            continue;
        };
        let place = Place {
            table: to.num,
            key: Key {
                first,
                second: None,
            },
        };
        if grows && !insert_among(effects, &place) {
            add(needs, present(&place))?;
        }
    }
    Ok(())
}

/// The rows that the changes can't do without.
pub fn needs(
    alloc: Global,
    tables: &[Table],
    effects: &[RowEffect],
) -> Result<List<Need>, NoMemory> {
    let mut needs = List::new(alloc);
    for (at, effect) in effects.iter().enumerate() {
        let earlier = &effects[..at];
        let place = place_of(effect);
        if !is_insert(effect.act) && !insert_among(earlier, &place) {
            add(&mut needs, kept(&place))?;
        }
        add_references(&mut needs, tables, effects, effect)?;
    }
    Ok(needs)
}
