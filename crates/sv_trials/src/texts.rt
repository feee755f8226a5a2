//! What a run comes to, as a text: its outcome; its changes, each with the number of its instance; its needs; and its
//! instances, each with its unit, its choices and its tape. So
//! `ok(); update t(1) n+=5 v=3 @0; kept t(1); 0 10 (1, 5)` is a run of one change and two choices.
use std::alloc::Global;
use sv_app::{Act, App, Instance};
use sv_calls::{put, put_choices, put_text};
use sv_check::Verdict;
use sv_effect::{Need, Outcome, Ran, RowEffect, Write};
use sv_value::{Key, NoMemory, Val, put_int};

fn put_val(out: &mut Vec<u8>, val: &Val) -> Result<(), NoMemory> {
    match val {
        Val::Int(number) => put_int(out, *number as i128),
        Val::Text(text) => put_text(out, text),
    }
}

/// The values in parentheses.
fn put_vals(out: &mut Vec<u8>, vals: &[Val]) -> Result<(), NoMemory> {
    put(out, b"(")?;
    for (at, val) in vals.iter().enumerate() {
        if at > 0 {
            put(out, b", ")?;
        }
        put_val(out, val)?;
    }
    put(out, b")")
}

fn put_outcome(out: &mut Vec<u8>, outcome: &Outcome) -> Result<(), NoMemory> {
    match outcome {
        Outcome::Done(replies) => {
            put(out, b"ok")?;
            put_vals(out, replies.items())
        }
        Outcome::Abort(code) => {
            put(out, b"abort ")?;
            put_int(out, *code as i128)
        }
        Outcome::NoRow => put(out, b"norow"),
        Outcome::Exists => put(out, b"exists"),
        Outcome::Range => put(out, b"range"),
        Outcome::TooLarge => put(out, b"toolarge"),
    }
}

fn put_row(out: &mut Vec<u8>, app: &App, table: u16, key: &Key) -> Result<(), NoMemory> {
    if let Some(declared) = app.tables.get(table as usize) {
        put(out, declared.name.name.bytes())?;
    }
    put_key(out, key)
}

fn put_key(out: &mut Vec<u8>, key: &Key) -> Result<(), NoMemory> {
    match &key.second {
        Some(second) => put_vals(out, &[key.first, *second]),
        None => put_vals(out, &[key.first]),
    }
}

fn put_write(
    out: &mut Vec<u8>,
    app: &App,
    table: u16,
    col: u16,
    write: &Write,
) -> Result<(), NoMemory> {
    put(out, b" ")?;
    if let Some(declared) = app.tables.get(table as usize) {
        if let Some(column) = declared.columns.get(col as usize) {
            put(out, column.name.name.bytes())?;
        }
    }
    match write {
        Write::Delta(delta) => {
            put(out, b"+=")?;
            put_int(out, *delta as i128)
        }
        Write::Set(val) => {
            put(out, b"=")?;
            put_val(out, val)
        }
    }
}

fn put_change(out: &mut Vec<u8>, app: &App, change: &RowEffect) -> Result<(), NoMemory> {
    put(
        out,
        match change.act {
            Act::Insert => b"; insert ",
            Act::Fresh => b"; fresh ",
            Act::Update => b"; update ",
            Act::Remove => b"; remove ",
        },
    )?;
    put_row(out, app, change.table, &change.key)?;
    for (col, write) in change.writes.as_slice() {
        put_write(out, app, change.table, *col, write)?;
    }
    put(out, b" @")?;
    put_int(out, change.instance as i128)
}

fn put_need(out: &mut Vec<u8>, app: &App, need: &Need) -> Result<(), NoMemory> {
    match need {
        Need::Kept { table, key } => {
            put(out, b"; kept ")?;
            put_row(out, app, *table, key)
        }
        Need::Present { table, key } => {
            put(out, b"; present ")?;
            put_row(out, app, *table, key)
        }
    }
}

fn put_instance(out: &mut Vec<u8>, instance: &Instance) -> Result<(), NoMemory> {
    put(out, b"; ")?;
    put_int(out, instance.unit as i128)?;
    put(out, b" ")?;
    put_choices(out, instance.choices.items())?;
    put(out, b" ")?;
    put_vals(out, instance.tape.items())
}

/// The text of what a run comes to.
pub fn text_of(alloc: Global, app: &App, ran: &Ran) -> Result<Vec<u8>, NoMemory> {
    let mut out = Vec::new(alloc);
    put_outcome(&mut out, &ran.outcome)?;
    for change in ran.effects.items() {
        put_change(&mut out, app, change)?;
    }
    for need in ran.needs.items() {
        put_need(&mut out, app, need)?;
    }
    for instance in ran.trace.items() {
        put_instance(&mut out, instance)?;
    }
    Ok(out)
}

/// Which invariant is broken first, and at which key.
pub fn put_verdict(out: &mut Vec<u8>, verdict: &Verdict) -> Result<(), NoMemory> {
    match verdict {
        Verdict::Keeps => put(out, b"keeps"),
        Verdict::Breaks { inv, key } => {
            put(out, b"breaks ")?;
            put_int(out, *inv as i128)?;
            put(out, b" at ")?;
            put_key(out, key)
        }
    }
}
