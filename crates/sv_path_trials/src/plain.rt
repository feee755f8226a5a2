//! Forms, facts, changes and tests on a tape, as they are meant: sums of products, one after the other.
use sv_app::{App, InvBody};
use sv_bounds::Diff;
use sv_calls::Trouble;
use sv_effect::{RowEffect, Write};
use sv_linear::{Form, SymEffect, SymVal, SymWrite, Test};
use sv_value::{Text, Val};

/// What the symbol stands for; they are numbered from 1.
fn value_at(tape: &[Val], symbol: u8) -> Option<&Val> {
    tape.get((symbol as usize).checked_sub(1)?)
}

fn number_at(tape: &[Val], symbol: u8) -> Result<i128, Trouble> {
    match value_at(tape, symbol) {
        Some(Val::Int(number)) => Ok(*number as i128),
        Some(Val::Text(_)) => Err(Trouble::Wrong("a text as a number")),
        None => Err(Trouble::Wrong("a symbol beyond the tape")),
    }
}

/// Whether the symbol stands for one of the texts.
fn is_among(tape: &[Val], symbol: u8, texts: &[Text]) -> Result<bool, Trouble> {
    match value_at(tape, symbol) {
        Some(Val::Text(text)) => Ok(texts.iter().any(|one| one.bytes() == text.bytes())),
        Some(Val::Int(_)) => Err(Trouble::Wrong("a number as a text")),
        None => Err(Trouble::Wrong("a symbol beyond the tape")),
    }
}

/// Whether the symbol stands for the text.
fn is_text(tape: &[Val], symbol: u8, text: &Text) -> Result<bool, Trouble> {
    match value_at(tape, symbol) {
        Some(Val::Text(one)) => Ok(one.bytes() == text.bytes()),
        Some(Val::Int(_)) => Err(Trouble::Wrong("a number as a text")),
        None => Err(Trouble::Wrong("a symbol beyond the tape")),
    }
}

fn added(sum: i128, more: Option<i128>) -> Result<i128, Trouble> {
    more.and_then(|more| sum.checked_add(more))
        .ok_or(Trouble::Wrong("a value beyond 128 bits"))
}

/// The value of a form.
fn value(tape: &[Val], form: &Form) -> Result<i128, Trouble> {
    let mut sum = form.plus as i128;
    for (symbol, by) in form.terms.items() {
        let number = number_at(tape, *symbol)?;
        sum = added(sum, number.checked_mul(*by as i128))?;
    }
    Ok(sum)
}

/// The value of a side of a fact, where 0 stands for zero.
fn side(tape: &[Val], symbol: u8) -> Result<i128, Trouble> {
    if symbol == 0 {
        Ok(0)
    } else {
        number_at(tape, symbol)
    }
}

fn is_met(tape: &[Val], fact: &Diff) -> Result<bool, Trouble> {
    let most = added(side(tape, fact.y)?, Some(fact.most))?;
    Ok(side(tape, fact.x)? <= most)
}

/// Whether the facts hold.
pub fn check_facts(tape: &[Val], facts: &[Diff]) -> Result<(), Trouble> {
    for fact in facts {
        if !is_met(tape, fact)? {
            return Err(Trouble::Wrong("a fact that doesn't hold"));
        }
    }
    Ok(())
}

fn is_set(tape: &[Val], set: &SymVal, val: &Val) -> Result<bool, Trouble> {
    match (set, val) {
        (SymVal::Num(form), Val::Int(number)) => Ok(value(tape, form)? == *number as i128),
        (SymVal::TextIs(text), Val::Text(other)) => Ok(text.bytes() == other.bytes()),
        (SymVal::TextSym(symbol), Val::Text(other)) => is_text(tape, *symbol, other),
        _ => Ok(false),
    }
}

fn is_written(tape: &[Val], sym: &SymWrite, write: &Write) -> Result<bool, Trouble> {
    match (sym, write) {
        (SymWrite::Delta(form), Write::Delta(delta)) => Ok(value(tape, form)? == *delta as i128),
        (SymWrite::Set(set), Write::Set(val)) => is_set(tape, set, val),
        _ => Ok(false),
    }
}

/// Whether the writes come to those of the change, column by column.
fn check_writes(
    tape: &[Val],
    syms: &[(u16, SymWrite)],
    writes: &[(u16, Write)],
) -> Result<(), Trouble> {
    if syms.len() != writes.len() {
        return Err(Trouble::Wrong("more or fewer writes"));
    }
    for (at, (col, sym)) in syms.iter().enumerate() {
        let Some((other, write)) = writes.get(at) else {
            return Err(Trouble::Wrong("a missing write"));
        };
        if col != other {
            return Err(Trouble::Wrong("a write of another column"));
        }
        if !is_written(tape, sym, write)? {
            return Err(Trouble::Wrong("another value that is written"));
        }
    }
    Ok(())
}

/// Whether the change in forms comes to the change.
pub fn check_change(tape: &[Val], sym: &SymEffect, change: &RowEffect) -> Result<(), Trouble> {
    if sym.table != change.table {
        return Err(Trouble::Wrong("a change of another table"));
    }
    if sym.act != change.act {
        return Err(Trouble::Wrong("another kind of change"));
    }
    check_writes(tape, sym.writes.items(), change.writes.as_slice())
}

/// Whether the list of the invariant with this number has the text that the symbol stands for.
fn is_listed(app: &App, tape: &[Val], number: u16, symbol: u8) -> Result<bool, Trouble> {
    for table in &app.tables {
        for inv in &table.invs {
            if inv.number == number {
                return match &inv.body {
                    InvBody::List { texts, .. } => is_among(tape, symbol, texts),
                    _ => Err(Trouble::Wrong("a list that is none")),
                };
            }
        }
    }
    Err(Trouble::Wrong("no such list"))
}

/// Whether the test is met.
pub fn holds(app: &App, tape: &[Val], test: &Test) -> Result<bool, Trouble> {
    match test {
        Test::AtMost { form, most } => Ok(value(tape, form)? <= *most),
        Test::InList { sym, inv } => is_listed(app, tape, *inv, *sym),
        Test::Never => Ok(false),
    }
}
