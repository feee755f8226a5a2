//! Labels and parts of lines as texts.
use std::alloc::Global;
use sv_app::Reason;
use sv_threat::Label;
use sv_value::{NoMemory, Text, put_int};

/// Appends the bytes.
pub fn put(out: &mut Vec<u8>, bytes: &[u8]) -> Result<(), NoMemory> {
    out.extend_from_slice(bytes)?;
    Ok(())
}

/// The text between quotes.
pub fn put_text(out: &mut Vec<u8>, text: &Text) -> Result<(), NoMemory> {
    put(out, b"'")?;
    put(out, text.bytes())?;
    put(out, b"'")
}

/// A digit for each choice, 1 where the condition holds, or a minus where there are none.
pub fn put_choices(out: &mut Vec<u8>, choices: &[bool]) -> Result<(), NoMemory> {
    if choices.is_empty() {
        put(out, b"-")?;
    }
    for choice in choices {
        put(out, if *choice { b"1" } else { b"0" })?;
    }
    Ok(())
}

fn put_numbered(out: &mut Vec<u8>, word: &[u8], number: u16) -> Result<(), NoMemory> {
    put(out, word)?;
    put(out, b" ")?;
    put_int(out, number as i128)
}

fn put_reason(out: &mut Vec<u8>, reason: Reason) -> Result<(), NoMemory> {
    match reason {
        Reason::Plain => put(out, b"plain"),
        Reason::Unique(inv) => put_numbered(out, b"unique", inv),
        Reason::Child(inv) => put_numbered(out, b"child", inv),
        Reason::Parent(inv) => put_numbered(out, b"parent", inv),
        Reason::Check(inv) => put_numbered(out, b"check", inv),
        Reason::List(inv) => put_numbered(out, b"list", inv),
    }
}

/// The text of a label: `none`, `blue`, or `red` with the instance, the place and the reason of the first threat.
pub fn label_text(alloc: Global, label: &Label) -> Result<Vec<u8>, NoMemory> {
    let mut out = Vec::new(alloc);
    match label {
        Label::Nothing => put(&mut out, b"none")?,
        Label::Blue => put(&mut out, b"blue")?,
        Label::Red {
            instance,
            place,
            reason,
        } => {
            put(&mut out, b"red ")?;
            put_int(&mut out, *instance as i128)?;
            put(&mut out, b" ")?;
            put_int(&mut out, *place as i128)?;
            put(&mut out, b" ")?;
            put_reason(&mut out, *reason)?;
        }
    }
    Ok(out)
}
