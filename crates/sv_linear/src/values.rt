ghost use Rattle.std.specs.Prelude.{◌≡◌, ◌↔◌, ◌+ℤ◌, ◌*ℤ◌, IsTrue, bytes_eq};
ghost use Rattle.std.specs.List.{list_any};
ghost use Rattle.std.specs.Int.{int_wrap, w128};
ghost use Rattle.sv_app.specs.Schema.{schema_of, invariant_of};
ghost use Rattle.sv_linear.specs.Forms.{number_at, symbol_at, terms_value};
ghost use Rattle.sv_linear.specs.Effects.{text_in};
ghost use Rattle.sv_linear.specs.Tests.{read, lists, is_listed, TestHolds};
ghost use Rattle.sv_linear.specs.Codes.{form_of, test_of};

use crate::forms::Form;
use crate::tests::Test;
use sv_app::{App, Inv, InvBody, Table};
use sv_value::{Text, Val};

/// The value of the form on a tape. A symbol that doesn't stand on the tape, or stands there for a text, counts as 0. A
/// value outside 128 bits is the number in range that equals it modulo 2^128.
pub fn value(f: &Form, tape: &[Val]) -> i128
    ensures { result ≡ read (form_of f.now) tape.now }
{
    sum(terms_value(f.terms.items(), tape), f.plus as i128)
}

fn sum(a: i128, b: i128) -> i128
    ensures { result ≡ int_wrap w128 (a +ℤ b) }
{
    a.wrapping_add(b)
}

fn product(a: i64, b: i64) -> i128
    ensures { result ≡ a *ℤ b }
{
    a as i128 * b as i128
}

fn terms_value(terms: &[(u8, i64)], tape: &[Val]) -> i128
    ensures { result ≡ int_wrap w128 (terms_value terms.now tape.now) }
{
    match terms {
        [] => 0,
        [term, later @ ..] => {
            let product = product(term.1, number_at(tape, term.0));
            sum(terms_value(later, tape), product)
        }
    }
}

/// The number that a symbol stands for.
fn number_at(tape: &[Val], symbol: u8) -> i64
    ensures { result ≡ number_at tape.now symbol }
{
    if symbol == 0 || symbol as usize > tape.len() {
        return 0;
    }
    match &tape[symbol as usize - 1] {
        Val::Int(n) => *n,
        Val::Text(_) => 0,
    }
}

/// Whether the test holds on the tape.
pub fn holds(app: &App, t: &Test, tape: &[Val]) -> bool
    ensures { IsTrue result ↔ TestHolds (schema_of app.now.tables.items) tape.now (test_of t.now) }
{
    match t {
        Test::AtMost { form, most } => value(form, tape) <= *most,
        Test::InList { sym, inv } => is_listed(app, *inv, text_at(tape, *sym)),
        Test::Never => false,
    }
}

/// The text that a symbol stands for; the empty text where it stands for none.
fn text_at<'a>(tape: &'a [Val], symbol: u8) -> &'a [u8]
    ensures { result.now ≡ text_in (symbol_at tape.now symbol) }
{
    if symbol == 0 || symbol as usize > tape.len() {
        return &[];
    }
    match &tape[symbol as usize - 1] {
        Val::Int(_) => &[],
        Val::Text(text) => text.bytes(),
    }
}

fn is_listed(app: &App, number: u16, text: &[u8]) -> bool
    ensures { result ≡ is_listed (schema_of app.now.tables.items) number text.now }
{
    is_listed_in(&app.tables, number, text)
}

fn is_listed_in(tables: &[Table], number: u16, text: &[u8]) -> bool
    ensures { result ≡ list_any (λ table. list_any (λ inv. lists number text.now (invariant_of inv)) table.invs.items) tables.now }
{
    tables
        .iter()
        .any(|table| is_listed_by(&table.invs, number, text))
}

fn is_listed_by(invs: &[Inv], number: u16, text: &[u8]) -> bool
    ensures { result ≡ list_any (λ inv. lists number text.now (invariant_of inv)) invs.now }
{
    invs.iter().any(|inv| lists(inv, number, text))
}

/// Whether the invariant has this number and lists the text.
fn lists(inv: &Inv, number: u16, text: &[u8]) -> bool
    ensures { result ≡ lists number text.now (invariant_of inv.now) }
{
    match &inv.body {
        InvBody::List { texts, .. } => inv.number == number && has(texts, text),
        InvBody::Check(_) | InvBody::Unique { .. } | InvBody::Refers { .. } => false,
    }
}

fn has(texts: &[Text], text: &[u8]) -> bool
    ensures { result ≡ list_any (bytes_eq text.now) texts.now }
{
    texts.iter().any(|one| text == one.bytes())
}
