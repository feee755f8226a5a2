ghost use Rattle.std.specs.Prelude.{◌≡◌, ◌++◌, ◌<◌, ◌^◌, ◌≤ℤ◌, ◌*ℤ◌, neg_ℤ, [], ◌∷◌, true, false, pos, IfOk, IfErr};
ghost use Rattle.sv_linear.specs.Forms.{
  with_term,
  put_all,
  scaled_terms,
  number,
  symbol,
  add,
  sub,
  scale,
  is_word,
  is_ordered,
};
ghost use Rattle.sv_linear.specs.Sums.{IsStopOf, IsStopOfTerms, ArePut, signed, turned};
ghost use Rattle.sv_linear.specs.Codes.{form_of};

use crate::forms::Form;
use crate::stops::FormStop;
use std::alloc::Global;
use sv_value::{List, NoMemory};

/// The form of a number.
pub fn number(alloc: Global, n: i64) -> Form
    ensures { form_of result ≡ number n }
{
    Form {
        terms: List::new(alloc),
        plus: n,
    }
}

/// The form of one symbol, counted from 1.
pub fn symbol(alloc: Global, k: u8) -> Result<Form, NoMemory>
    requires { 0 < k }
    ensures { IfOk result (λ f. form_of f ≡ symbol k) }
{
    let mut terms = Vec::new(alloc);
    terms.push((k, 1))?;
    Ok(Form {
        terms: List::from_vec(terms),
        plus: 0,
    })
}

impl Form {
    /// A form of its own with the same terms.
    pub fn copied(&self, alloc: Global) -> Result<Form, NoMemory>
        ensures { IfOk result (λ f. form_of f ≡ form_of self.now) }
    {
        Ok(Form {
            terms: self.terms.copied(alloc)?,
            plus: self.plus,
        })
    }
}

/// The sum of two forms.
pub fn add(alloc: Global, a: &Form, b: &Form) -> Result<Form, FormStop>
    ensures sum { IfOk result (λ f. form_of f ≡ add (form_of a.now) (form_of b.now)) }
    ensures wide { IfErr result (IsStopOf (add (form_of a.now) (form_of b.now))) }
{
    let mut terms = Vec::new(alloc);
    push_sum(&mut terms, a.terms.items(), b.terms.items(), false)?;
    let plus = word(a.plus as i128 + b.plus as i128)?;
    Ok(Form {
        terms: List::from_vec(terms),
        plus,
    })
}

/// The difference of two forms.
pub fn sub(alloc: Global, a: &Form, b: &Form) -> Result<Form, FormStop>
    ensures difference { IfOk result (λ f. form_of f ≡ sub (form_of a.now) (form_of b.now)) }
    ensures wide { IfErr result (IsStopOf (sub (form_of a.now) (form_of b.now))) }
{
    let mut terms = Vec::new(alloc);
    push_sum(&mut terms, a.terms.items(), b.terms.items(), true)?;
    let plus = word(a.plus as i128 - b.plus as i128)?;
    Ok(Form {
        terms: List::from_vec(terms),
        plus,
    })
}

/// A form that has each value so many times.
pub fn scale(alloc: Global, a: &Form, by: i64) -> Result<Form, FormStop>
    ensures multiple { IfOk result (λ f. form_of f ≡ scale by (form_of a.now)) }
    ensures wide { IfErr result (IsStopOf (scale by (form_of a.now))) }
{
    let mut terms = Vec::new(alloc);
    push_scaled(&mut terms, a.terms.items(), by)?;
    let plus = word(by as i128 * a.plus as i128)?;
    Ok(Form {
        terms: List::from_vec(terms),
        plus,
    })
}

/// The number, if it is one of 64 bits.
fn word(n: i128) -> Result<i64, FormStop>
    ensures same { IfOk result (λ w. w ≡ n) }
    ensures fits { IfOk result (λ w. is_word n ≡ true) }
    ensures wide { IfErr result (λ stop. is_word n ≡ false) }
{
    if n >= -9_223_372_036_854_775_808 && n <= 9_223_372_036_854_775_807 {
        Ok(n as i64)
    } else {
        Err(FormStop::Wide)
    }
}

/// One more term, unless its coefficient is 0.
fn push_term(out: &mut Vec<(u8, i64)>, symbol: u8, by: i128) -> Result<(), FormStop>
    ensures put { IfOk result (λ _. ArePut out.old.items (with_term symbol by []) out.new.items) }
    ensures wide { IfErr result (IsStopOfTerms (with_term symbol by [])) }
{
    if by != 0 {
        let by = word(by)?;
        out.push((symbol, by))?;
    }
    Ok(())
}

/// The terms, with their signs turned or not.
fn push_turned(out: &mut Vec<(u8, i64)>, terms: &[(u8, i64)], minus: bool) -> Result<(), FormStop>
    requires { is_ordered 0 terms.now ≡ true }
    ensures put { IfOk result (λ _. ArePut out.old.items (turned minus terms.now) out.new.items) }
    ensures wide { IfErr result (IsStopOfTerms (turned minus terms.now)) }
{
    match terms {
        [] => Ok(()),
        [term, later @ ..] => {
            push_term(out, term.0, signed(term.1, minus))?;
            push_turned(out, later, minus)
        }
    }
}

fn signed(n: i64, minus: bool) -> i128
    ensures is { result ≡ signed minus n }
    ensures least { neg_ℤ (pos (2 ^ 63)) ≤ℤ result }
    ensures most { result ≤ℤ pos (2 ^ 63) }
{
    if minus { -(n as i128) } else { n as i128 }
}

/// The terms of the sum or of the difference of two forms.
fn push_sum(
    out: &mut Vec<(u8, i64)>,
    a: &[(u8, i64)],
    b: &[(u8, i64)],
    minus: bool,
) -> Result<(), FormStop>
    requires a { is_ordered 0 a.now ≡ true }
    requires b { is_ordered 0 b.now ≡ true }
    ensures put { IfOk result (λ _. ArePut out.old.items (put_all a.now (turned minus b.now)) out.new.items) }
    ensures wide { IfErr result (IsStopOfTerms (put_all a.now (turned minus b.now))) }
{
    match a {
        [] => push_turned(out, b, minus),
        [x, xs @ ..] => match b {
            [] => push_turned(out, a, false),
            [y, ys @ ..] => {
                if x.0 < y.0 {
                    push_term(out, x.0, x.1 as i128)?;
                    push_sum(out, xs, b, minus)
                } else if x.0 == y.0 {
                    push_term(out, x.0, x.1 as i128 + signed(y.1, minus))?;
                    push_sum(out, xs, ys, minus)
                } else {
                    push_term(out, y.0, signed(y.1, minus))?;
                    push_sum(out, a, ys, minus)
                }
            }
        },
    }
}

/// The terms so many times.
fn push_scaled(out: &mut Vec<(u8, i64)>, terms: &[(u8, i64)], by: i64) -> Result<(), FormStop>
    ensures put { IfOk result (λ _. ArePut out.old.items (scaled_terms by terms.now) out.new.items) }
    ensures wide { IfErr result (IsStopOfTerms (scaled_terms by terms.now)) }
{
    match terms {
        [] => Ok(()),
        [term, later @ ..] => {
            push_term(out, term.0, by as i128 * term.1 as i128)?;
            push_scaled(out, later, by)
        }
    }
}
