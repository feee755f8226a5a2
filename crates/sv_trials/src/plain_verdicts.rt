//! What a verdict on the rows after changes means, with plain loops: each invariant at each row.
use crate::plain_changes::{got_of, is_grow_only};
use crate::plain_rows::PlainRow;
use sv_app::{App, Check, Got, Ident, Inv, InvBody};
use sv_check::Verdict;
use sv_value::{Key, Text};

fn value_of(row: &PlainRow, column: &Ident) -> Got {
    match row.values.get(column.num as usize) {
        Some(got) => *got,
        None => Got::Num(0),
    }
}

fn side(row: &PlainRow, column: Option<Ident>) -> i128 {
    match column {
        None => 0,
        Some(column) => match value_of(row, &column) {
            Got::Num(number) => number,
            Got::Text(_) => 0,
        },
    }
}

fn is_met(row: &PlainRow, check: &Check) -> bool {
    match side(row, check.hi).checked_sub(side(row, check.lo)) {
        Some(difference) => difference <= check.most as i128,
        None => false,
    }
}

fn is_listed(got: &Got, texts: &[Text]) -> bool {
    match got {
        Got::Num(_) => false,
        Got::Text(text) => texts.contains(text),
    }
}

/// Whether another present row of the table has the row's value.
fn has_twin(rows: &[PlainRow], row: &PlainRow, column: &Ident) -> bool {
    rows.iter().any(|other| {
        other.place.table == row.place.table
            && other.present
            && other.place.key != row.place.key
            && value_of(other, column) == value_of(row, column)
    })
}

/// Whether a present row of the table has the value as its key.
fn has_parent(rows: &[PlainRow], table: u16, got: &Got) -> bool {
    rows.iter().any(|parent| {
        parent.place.table == table && parent.present && got_of(&parent.place.key.first) == *got
    })
}

/// Whether a reference to the table binds absent rows too.
fn binds_absent(app: &App, table: u16) -> bool {
    match app.tables.get(table as usize) {
        Some(table) => is_grow_only(table.kind),
        None => false,
    }
}

fn is_broken(app: &App, inv: &Inv, row: &PlainRow, rows: &[PlainRow]) -> bool {
    match &inv.body {
        InvBody::Check(check) => !is_met(row, check),
        InvBody::List { col, texts } => !is_listed(&value_of(row, col), texts),
        InvBody::Unique { col } => row.present && has_twin(rows, row, col),
        InvBody::Refers { col, table, .. } => {
            (row.present || binds_absent(app, table.num))
                && !has_parent(rows, table.num, &value_of(row, col))
        }
    }
}

/// The least key of the table at which the invariant is broken.
fn least_broken(app: &App, table: usize, inv: &Inv, rows: &[PlainRow]) -> Option<Key> {
    rows.iter()
        .filter(|row| row.place.table as usize == table && is_broken(app, inv, row, rows))
        .map(|row| row.place.key)
        .min()
}

/// The first invariant that is broken among the kept rows, and the least key at which it is.
pub fn judge(app: &App, rows: &[PlainRow]) -> Verdict {
    for (number, table) in app.tables.iter().enumerate() {
        for inv in &table.invs {
            if let Some(key) = least_broken(app, number, inv, rows) {
                return Verdict::Breaks {
                    inv: inv.number,
                    key,
                };
            }
        }
    }
    Verdict::Keeps
}
