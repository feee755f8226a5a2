//! Values, as they print.

ghost use Rattle.std.specs.Prelude.{◌≡◌, ◌++◌, OnOk, codes};
ghost use Rattle.std.specs.Fmt.{signed_decimal};
ghost use Rattle.sv_report.specs.Lines.{value_text, values_text, values_behind, got_text, gots_text, values_line};

use crate::texts::put_bytes;
use itoa::Buffer;
use sv_app::Got;
use sv_value::{NoMemory, Val, put_int};

/// Appends the decimal digits of an integer, with `-` before them if it is negative.
fn put_small(out: &mut Vec<u8>, n: i64) -> Result<(), NoMemory>
    ensures { OnOk result (out.new.items ≡ out.old.items ++ signed_decimal n) }
{
    let mut buffer = Buffer::new();
    put_bytes(out, buffer.format(n).as_bytes())
}

/// Appends a text between quotes.
#[tactic(auto, using(crate::proofs::AppendLaws::appends))]
fn put_quoted(out: &mut Vec<u8>, text: &[u8]) -> Result<(), NoMemory>
    ensures { OnOk result (out.new.items ≡ out.old.items ++ codes "'" ++ text.now ++ codes "'") }
{
    put_bytes(out, b"'")?;
    put_bytes(out, text)?;
    put_bytes(out, b"'")
}

/// Appends a value: an integer, or a text between quotes.
fn put_value(out: &mut Vec<u8>, value: &Val) -> Result<(), NoMemory>
    ensures { OnOk result (out.new.items ≡ out.old.items ++ value_text value.now) }
{
    match value {
        Val::Int(n) => put_small(out, *n),
        Val::Text(text) => put_quoted(out, text.bytes()),
    }
}

/// Appends values, each behind a comma and a space.
#[tactic(auto, using(crate::proofs::AppendLaws::appends))]
fn put_behind(out: &mut Vec<u8>, values: &[Val]) -> Result<(), NoMemory>
    ensures { OnOk result (out.new.items ≡ out.old.items ++ values_behind values.now) }
{
    match values {
        [] => Ok(()),
        [value, rest @ ..] => {
            put_bytes(out, b", ")?;
            put_value(out, value)?;
            put_behind(out, rest)
        }
    }
}

/// Appends values, joined by comma and space.
#[tactic(auto, using(crate::proofs::AppendLaws::appends))]
pub(crate) fn put_values(out: &mut Vec<u8>, values: &[Val]) -> Result<(), NoMemory>
    ensures { OnOk result (out.new.items ≡ out.old.items ++ values_text values.now) }
{
    match values {
        [] => Ok(()),
        [value, rest @ ..] => {
            put_value(out, value)?;
            put_behind(out, rest)
        }
    }
}

/// Appends a value of a row: an integer, or a text between quotes.
fn put_got(out: &mut Vec<u8>, got: &Got) -> Result<(), NoMemory>
    ensures { OnOk result (out.new.items ≡ out.old.items ++ got_text got.now) }
{
    match got {
        Got::Num(n) => put_int(out, *n),
        Got::Text(text) => put_quoted(out, text.bytes()),
    }
}

/// Appends the values of a row, each behind a space.
#[tactic(auto, using(crate::proofs::AppendLaws::appends))]
fn put_gots(out: &mut Vec<u8>, values: &[Got]) -> Result<(), NoMemory>
    ensures { OnOk result (out.new.items ≡ out.old.items ++ gots_text values.now) }
{
    match values {
        [] => Ok(()),
        [got, rest @ ..] => {
            put_bytes(out, b" ")?;
            put_got(out, got)?;
            put_gots(out, rest)
        }
    }
}

/// Appends the line of a row with these values.
#[tactic(auto, using(crate::proofs::AppendLaws::appends))]
pub(crate) fn put_row(out: &mut Vec<u8>, values: &[Got]) -> Result<(), NoMemory>
    ensures { OnOk result (out.new.items ≡ out.old.items ++ values_line values.now) }
{
    put_bytes(out, b"row")?;
    put_gots(out, values)?;
    put_bytes(out, b"\n")
}
