//! What a path does in forms, as a text: its unit, its choices, its facts, its changes, and the number of its
//! symbols. So `0 0: x0 - x1 <= 0; update item stock+=s1; 3` is a path of one choice with one fact and one change.
use sv_app::{Act, App, Instance};
use sv_bounds::Diff;
use sv_calls::{put, put_choices, put_text};
use sv_linear::{Form, Shape, SymEffect, SymVal, SymWrite};
use sv_value::{NoMemory, put_int};

/// A term, behind its sign; a coefficient of 1 isn't written.
fn put_term(out: &mut Vec<u8>, symbol: u8, by: i64) -> Result<(), NoMemory> {
    let size = by.unsigned_abs();
    if size != 1 {
        put_int(out, size as i128)?;
        put(out, b"*")?;
    }
    put(out, b"s")?;
    put_int(out, symbol as i128)
}

/// The sign in front of a part of a form.
fn put_sign(out: &mut Vec<u8>, is_first: bool, is_negative: bool) -> Result<(), NoMemory> {
    put(
        out,
        match (is_first, is_negative) {
            (true, false) => b"".as_slice(),
            (true, true) => b"-",
            (false, false) => b" + ",
            (false, true) => b" - ",
        },
    )
}

fn put_form(out: &mut Vec<u8>, form: &Form) -> Result<(), NoMemory> {
    let mut is_first = true;
    for (symbol, by) in form.terms.items() {
        put_sign(out, is_first, *by < 0)?;
        put_term(out, *symbol, *by)?;
        is_first = false;
    }
    if is_first || form.plus != 0 {
        put_sign(out, is_first, form.plus < 0)?;
        put_int(out, form.plus.unsigned_abs() as i128)?;
    }
    Ok(())
}

fn put_fact(out: &mut Vec<u8>, fact: &Diff) -> Result<(), NoMemory> {
    put(out, b"x")?;
    put_int(out, fact.x as i128)?;
    put(out, b" - x")?;
    put_int(out, fact.y as i128)?;
    put(out, b" <= ")?;
    put_int(out, fact.most)
}

fn put_facts(out: &mut Vec<u8>, facts: &[Diff]) -> Result<(), NoMemory> {
    let mut is_first = true;
    for fact in facts {
        put(out, if is_first { b" ".as_slice() } else { b", " })?;
        put_fact(out, fact)?;
        is_first = false;
    }
    Ok(())
}

fn put_write(out: &mut Vec<u8>, write: &SymWrite) -> Result<(), NoMemory> {
    match write {
        SymWrite::Delta(form) => {
            put(out, b"+=")?;
            put_form(out, form)
        }
        SymWrite::Set(SymVal::Num(form)) => {
            put(out, b"=")?;
            put_form(out, form)
        }
        SymWrite::Set(SymVal::TextIs(text)) => {
            put(out, b"=")?;
            put_text(out, text)
        }
        SymWrite::Set(SymVal::TextSym(symbol)) => {
            put(out, b"=s")?;
            put_int(out, *symbol as i128)
        }
    }
}

fn put_change(out: &mut Vec<u8>, app: &App, change: &SymEffect) -> Result<(), NoMemory> {
    put(
        out,
        match change.act {
            Act::Insert => b" insert ".as_slice(),
            Act::Fresh => b" fresh ",
            Act::Update => b" update ",
            Act::Remove => b" remove ",
        },
    )?;
    let Some(table) = app.tables.get(change.table as usize) else {
        return Ok(());
    };
    put(out, table.name.name.bytes())?;
    for (col, write) in change.writes.items() {
        put(out, b" ")?;
        if let Some(column) = table.columns.get(*col as usize) {
            put(out, column.name.name.bytes())?;
        }
        put_write(out, write)?;
    }
    Ok(())
}

/// The line of what the instance's unit does on the path that it took.
pub fn put_shape(
    out: &mut Vec<u8>,
    app: &App,
    instance: &Instance,
    shape: &Shape,
) -> Result<(), NoMemory> {
    put_int(out, instance.unit as i128)?;
    put(out, b" ")?;
    put_choices(out, instance.choices.items())?;
    put(out, b":")?;
    put_facts(out, shape.facts.items())?;
    put(out, b";")?;
    for change in shape.effects.items() {
        put_change(out, app, change)?;
        put(out, b";")?;
    }
    put(out, b" ")?;
    put_int(out, shape.symbols as i128)?;
    put(out, b"\n")
}
