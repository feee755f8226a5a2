ghost use Rattle.std.specs.Prelude.{◌≡◌, [], ◌∷◌, ◌&&◌, IfOk};
ghost use Rattle.sv_app.specs.declared.txns.Rel.TheVariants as rels;
ghost use Rattle.sv_linear.specs.Apart.{apart_of, found_of};
ghost use Rattle.sv_linear.specs.Codes.{form_of, sym_of};
ghost use Rattle.sv_linear.specs.Facts.{
  is_one,
  is_minus_one,
  one_term,
  two_terms,
  difference_in,
  difference_of,
  at_most,
  at_least,
  facts_in,
  facts_by,
  facts_of,
};
ghost use Rattle.sv_linear.specs.Forms.{sub};

use crate::effects::SymVal;
use crate::forms::Form;
use crate::stops::FormStop;
use crate::sums::sub;
use std::alloc::Global;
use sv_app::Rel;
use sv_bounds::Diff;
use sv_value::{List, NoMemory};

/// The difference `x - y + plus` of two symbols, of which 0 stands for zero.
#[derive(Clone, Copy, Debug)]
pub struct Apart {
    pub x: u8,
    pub y: u8,
    pub plus: i64,
}

/// What a comparison says by its truth value: rows over the symbols, where both sides are integers and the difference
/// of their forms is that of two symbols, or of one and zero, and a number.
pub fn facts_of(
    alloc: Global,
    rel: Rel,
    holds: bool,
    left: &SymVal,
    right: &SymVal,
) -> Result<List<Diff>, NoMemory>
    ensures { IfOk result (λ facts. facts ≡ facts_of rel holds (sym_of left.now) (sym_of right.now)) }
{
    match left {
        SymVal::TextIs(_) | SymVal::TextSym(_) => Ok(List::new(alloc)),
        SymVal::Num(f) => match right {
            SymVal::TextIs(_) | SymVal::TextSym(_) => Ok(List::new(alloc)),
            SymVal::Num(g) => facts_between(alloc, rel, holds, f, g),
        },
    }
}

fn facts_between(
    alloc: Global,
    rel: Rel,
    holds: bool,
    f: &Form,
    g: &Form,
) -> Result<List<Diff>, NoMemory>
    ensures { IfOk result (λ facts. facts ≡ facts_by rel holds (difference_of (sub (form_of f.now) (form_of g.now)))) }
{
    match sub(alloc, f, g) {
        Err(FormStop::NoMemory) => Err(NoMemory),
        Err(FormStop::Wide) => Ok(List::new(alloc)),
        Ok(difference) => match difference_of(&difference) {
            None => Ok(List::new(alloc)),
            Some(apart) => facts_in(alloc, rel, holds, &apart),
        },
    }
}

/// The form as a difference, where it is one.
pub fn difference_of(f: &Form) -> Option<Apart>
    ensures { found_of result ≡ difference_in f.now.terms f.now.plus }
{
    match f.terms.items() {
        [] => Some(Apart {
            x: 0,
            y: 0,
            plus: f.plus,
        }),
        [t] => one_term(t.0, t.1, f.plus),
        [t, u] => two_terms(t, u, f.plus),
        [_, _, _, ..] => None,
    }
}

fn one_term(symbol: u8, by: i64, plus: i64) -> Option<Apart>
    ensures { found_of result ≡ one_term symbol (is_one by) (is_minus_one by) plus }
{
    if by == 1 {
        Some(Apart {
            x: symbol,
            y: 0,
            plus,
        })
    } else if by == -1 {
        Some(Apart {
            x: 0,
            y: symbol,
            plus,
        })
    } else {
        None
    }
}

fn two_terms(t: &(u8, i64), u: &(u8, i64), plus: i64) -> Option<Apart>
    ensures { found_of result ≡ two_terms t.now.0 u.now.0 (is_one t.now.1 && is_minus_one u.now.1) (is_minus_one t.now.1 && is_one u.now.1) plus }
{
    if t.1 == 1 && u.1 == -1 {
        Some(Apart {
            x: t.0,
            y: u.0,
            plus,
        })
    } else if t.1 == -1 && u.1 == 1 {
        Some(Apart {
            x: u.0,
            y: t.0,
            plus,
        })
    } else {
        None
    }
}

fn facts_in(alloc: Global, rel: Rel, holds: bool, d: &Apart) -> Result<List<Diff>, NoMemory>
    ensures { IfOk result (λ facts. facts ≡ facts_in rel holds (apart_of d.now)) }
{
    match rel {
        Rel::Eq => level(alloc, holds, d),
        Rel::Ne => level(alloc, !holds, d),
        Rel::Lt => one(alloc, if holds { at_most(d, 1) } else { at_least(d, 0) }),
        Rel::Le => one(alloc, if holds { at_most(d, 0) } else { at_least(d, 1) }),
        Rel::Gt => one(alloc, if holds { at_least(d, 1) } else { at_most(d, 0) }),
        Rel::Ge => one(alloc, if holds { at_least(d, 0) } else { at_most(d, 1) }),
    }
}

/// That the difference is zero, where that is told.
fn level(alloc: Global, told: bool, d: &Apart) -> Result<List<Diff>, NoMemory>
    ensures { IfOk result (λ facts. facts ≡ facts_in rels.Eq told (apart_of d.now)) }
{
    let mut facts = List::new(alloc);
    if told {
        facts.push(at_most(d, 0))?;
        facts.push(at_least(d, 0))?;
    }
    Ok(facts)
}

fn one(alloc: Global, row: Diff) -> Result<List<Diff>, NoMemory>
    ensures { IfOk result (λ facts. facts ≡ row ∷ []) }
{
    let mut facts = List::new(alloc);
    facts.push(row)?;
    Ok(facts)
}

/// The difference is below zero by so much.
fn at_most(d: &Apart, by: i64) -> Diff
    ensures { result ≡ at_most (apart_of d.now) by }
{
    Diff {
        x: d.x,
        y: d.y,
        most: -(d.plus as i128) - by as i128,
    }
}

/// The difference is above zero by so much.
fn at_least(d: &Apart, by: i64) -> Diff
    ensures { result ≡ at_least (apart_of d.now) by }
{
    Diff {
        x: d.y,
        y: d.x,
        most: d.plus as i128 - by as i128,
    }
}
