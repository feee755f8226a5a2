use std::alloc::Global;
use sv_app::{Got, Place};
use sv_value::{Key, NoMemory};

/// A row that is kept: where it stands, its values in the order of the columns, and whether it is present.
#[derive(Debug, Drop)]
pub struct PlainRow {
    pub place: Place,
    pub values: Vec<Got>,
    pub present: bool,
}

/// Where the row of the place stands among the rows.
fn place_among(rows: &[PlainRow], place: &Place) -> Option<usize> {
    rows.iter().position(|row| row.place == *place)
}

/// The row of the place, if one is kept.
pub fn find<'a>(rows: &'a [PlainRow], place: &Place) -> Option<&'a PlainRow> {
    for row in rows {
        if row.place == *place {
            return Some(row);
        }
    }
    None
}

/// The same, if it is present.
pub fn find_present<'a>(rows: &'a [PlainRow], place: &Place) -> Option<&'a PlainRow> {
    match find(rows, place) {
        Some(row) if row.present => Some(row),
        _ => None,
    }
}

/// Keeps the row, in place of the one that was kept there.
pub fn put(rows: &mut Vec<PlainRow>, row: PlainRow) -> Result<(), NoMemory> {
    match place_among(rows, &row.place) {
        Some(at) if at < rows.len() => rows[at] = row,
        _ => rows.push(row)?,
    }
    Ok(())
}

/// The keys of the present rows of a table, in order.
pub fn present_keys(alloc: Global, rows: &[PlainRow], table: u16) -> Result<Vec<Key>, NoMemory> {
    let mut keys = Vec::new(alloc);
    for row in rows {
        if row.present && row.place.table == table {
            keys.push(row.place.key)?;
        }
    }
    keys.sort_unstable();
    Ok(keys)
}

/// The same rows, in a list of their own.
pub fn copied(alloc: Global, rows: &[PlainRow]) -> Result<Vec<PlainRow>, NoMemory> {
    let mut copies = Vec::new(alloc);
    for row in rows {
        copies.push(PlainRow {
            place: row.place,
            values: Vec::from_slice(alloc, &row.values)?,
            present: row.present,
        })?;
    }
    Ok(copies)
}
