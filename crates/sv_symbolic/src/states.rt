ghost use Rattle.std.specs.Prelude.{◌≡◌, ◌++◌, ◌==◌, ◌<◌, ◌≤◌, [], length, OnOk, IfOk};
ghost use Rattle.std.specs.List.{list_any};
ghost use Rattle.sv_app.specs.declared.schemas.Ty.TheVariants as types;
ghost use Rattle.sv_app.specs.Paths.{put, brought, brought_old, formed, next_choice};
ghost use Rattle.sv_app.specs.Paths as paths;
ghost use Rattle.sv_app.specs.Symbols.{is_same_source, is_known};
ghost use Rattle.sv_linear.specs.Codes.{form_of, sym_of, effect_of};
ghost use Rattle.sv_linear.specs.Effects.{Number, linear, symbol_of};
ghost use Rattle.sv_linear.specs.Forms.{add, sub, minus, scale};
ghost use Rattle.sv_symbolic.specs.Routes.{Leads, set_form, forgetting, with_effect};
ghost use Rattle.sv_symbolic.specs.Sketches as sketches;
ghost use Rattle.sv_symbolic.specs.Sketches.{zero_form, draw_source, draw_old, draw_symbol, draw_form, draw_product, draw_choice};
ghost use Rattle.sv_symbolic.specs.States.{way_of, sketch_of, sources_of, olds_of, tested_as, product_way, DrawsFrom, TriesFrom, Holds};

use crate::copies::{copied, linear, zero};
use std::alloc::Global;
use sv_app::{Rel, Source, Ty};
use sv_bounds::Diff;
use sv_linear::{Form, FormStop, SymEffect, SymVal, add, facts_of, number, scale, sub, symbol};
use sv_value::{List, NoMemory};

/// How many symbols a path may have.
pub const MOST_SYMBOLS: usize = 64;

/// How statements end along choices: they lead on, or abort, or a choice is missing.
#[derive(Clone, Copy, Debug, PartialEq, Eq)]
pub enum Flow {
    On,
    Aborted,
    Short,
}

/// Where a walk along a path stands: the choices that are left, the sources that are known, the types of the symbols,
/// the forms of sources and of old columns, the latest first, and the facts and the effects so far. It is exact until a
/// 65th symbol is brought in or a form is wide; from then on forms, facts and effects say nothing.
#[derive(Debug, Drop)]
pub struct State<'a> {
    pub left: &'a [bool],
    pub known: List<Source>,
    pub known_old: List<u16>,
    pub symbols: List<Ty>,
    pub sources: Vec<(Source, SymVal)>,
    pub olds: Vec<(u16, SymVal)>,
    pub facts: Vec<Diff>,
    pub effects: List<SymEffect>,
    pub exact: bool,
}

fn is_same_source(left: &Source, right: &Source) -> bool
    ensures { result ≡ is_same_source left.now right.now }
{
    match (left, right) {
        (Source::Variable(x), Source::Variable(y)) => *x == *y,
        (Source::Column { row: r, col: c }, Source::Column { row: q, col: d }) => {
            *r == *q && *c == *d
        }
        _ => false,
    }
}

fn is_known(source: &Source, known: &[Source]) -> bool
    ensures { result ≡ is_known source.now known.now }
{
    known.iter().any(|other| is_same_source(source, other))
}

/// Whether the number is one of these.
pub fn is_among(number: u16, numbers: &[u16]) -> bool
    ensures { result ≡ list_any (λ d. number == d) numbers.now }
{
    numbers.iter().any(|other| number == *other)
}

/// The latest form of a source.
fn form_of(alloc: Global, sources: &[(Source, SymVal)], source: &Source) -> Result<SymVal, NoMemory>
    ensures { IfOk result (λ v. sym_of v ≡ sketches.form_of (sources_of sources.now) source.now) }
{
    match sources {
        [] => Ok(zero(alloc)),
        [first, rest @ ..] => {
            if is_same_source(source, &first.0) {
                copied(alloc, &first.1)
            } else {
                form_of(alloc, rest, source)
            }
        }
    }
}

/// The latest form of an old column.
fn old_of(alloc: Global, olds: &[(u16, SymVal)], col: u16) -> Result<SymVal, NoMemory>
    ensures { IfOk result (λ v. sym_of v ≡ sketches.old_of (olds_of olds.now) col) }
{
    match olds {
        [] => Ok(zero(alloc)),
        [first, rest @ ..] => {
            if col == first.0 {
                copied(alloc, &first.1)
            } else {
                old_of(alloc, rest, col)
            }
        }
    }
}

/// A symbol of a type, counted from 1.
fn symbol_of(alloc: Global, ty: Ty, number: u8) -> Result<SymVal, NoMemory>
    requires { 0 < number }
    ensures { IfOk result (λ v. sym_of v ≡ symbol_of ty number) }
{
    match ty {
        Ty::Text => Ok(SymVal::TextSym(number)),
        Ty::Int | Ty::Ints => Ok(SymVal::Num(symbol(alloc, number)?)),
    }
}

impl State<'_> {
    /// Brings in a symbol that is no source's.
    pub fn draw_symbol(&mut self, alloc: Global, ty: Ty) -> Result<SymVal, NoMemory>
        ensures way { OnOk result (way_of self.new ≡ put ty (way_of self.old)) }
        ensures told { IfOk result (λ v. DrawsFrom self.old self.new (draw_symbol ty (sketch_of self.old)) (sym_of v)) }
    {
        let before = self.symbols.len();
        self.symbols.push(ty)?;
        if before >= MOST_SYMBOLS {
            self.exact = false;
            return Ok(zero(alloc));
        }
        symbol_of(alloc, ty, before as u8 + 1)
    }

    /// The form of a source, which is brought in unless it is known.
    pub fn draw_source(&mut self, alloc: Global, source: Source, ty: Ty) -> Result<SymVal, NoMemory>
        ensures way { OnOk result (way_of self.new ≡ brought source ty (way_of self.old)) }
        ensures told { IfOk result (λ v. DrawsFrom self.old self.new (draw_source source ty (sketch_of self.old)) (sym_of v)) }
    {
        if is_known(&source, self.known.items()) {
            return form_of(alloc, &self.sources, &source);
        }
        let form = self.draw_symbol(alloc, ty)?;
        let same = copied(alloc, &form)?;
        self.known.push(source)?;
        self.sources.insert(0, (source, same))?;
        Ok(form)
    }

    /// The form of a column of the row before the update, which is brought in unless it is known.
    pub fn draw_old(&mut self, alloc: Global, col: u16, ty: Ty) -> Result<SymVal, NoMemory>
        ensures way { OnOk result (way_of self.new ≡ brought_old col ty (way_of self.old)) }
        ensures told { IfOk result (λ v. DrawsFrom self.old self.new (draw_old col ty (sketch_of self.old)) (sym_of v)) }
    {
        if is_among(col, self.known_old.items()) {
            return old_of(alloc, &self.olds, col);
        }
        let form = self.draw_symbol(alloc, ty)?;
        let same = copied(alloc, &form)?;
        self.known_old.push(col)?;
        self.olds.insert(0, (col, same))?;
        Ok(form)
    }

    /// The form that was made; where it is wide, the walk is exact no longer.
    fn hold(&mut self, alloc: Global, made: Result<Form, FormStop>) -> Result<Form, NoMemory>
        ensures way { OnOk result (way_of self.new ≡ way_of self.old) }
        ensures told { IfOk result (λ f. Holds self.old self.new made (form_of f)) }
    {
        match made {
            Ok(form) => Ok(form),
            Err(FormStop::NoMemory) => Err(NoMemory),
            Err(FormStop::Wide) => {
                self.exact = false;
                Ok(number(alloc, 0))
            }
        }
    }

    /// The sum of two values.
    pub fn sum(&mut self, alloc: Global, left: SymVal, right: SymVal) -> Result<SymVal, NoMemory>
        ensures way { OnOk result (way_of self.new ≡ way_of self.old) }
        ensures told { IfOk result (λ v. DrawsFrom self.old self.new
            (draw_form (add (linear (sym_of left)) (linear (sym_of right))) (sketch_of self.old)) (sym_of v)) }
    {
        let made = add(alloc, &linear(alloc, left), &linear(alloc, right));
        let form = self.hold(alloc, made)?;
        Ok(SymVal::Num(form))
    }

    /// The difference of two values, as a form.
    pub fn difference(
        &mut self,
        alloc: Global,
        left: SymVal,
        right: SymVal,
    ) -> Result<Form, NoMemory>
        ensures way { OnOk result (way_of self.new ≡ way_of self.old) }
        ensures told { IfOk result (λ f. DrawsFrom self.old self.new
            (draw_form (sub (linear (sym_of left)) (linear (sym_of right))) (sketch_of self.old)) (Number (form_of f))) }
    {
        let made = sub(alloc, &linear(alloc, left), &linear(alloc, right));
        let form = self.hold(alloc, made)?;
        Ok(form)
    }

    /// The value with its sign turned.
    pub fn negated(&mut self, alloc: Global, val: SymVal) -> Result<SymVal, NoMemory>
        ensures way { OnOk result (way_of self.new ≡ way_of self.old) }
        ensures told { IfOk result (λ v. DrawsFrom self.old self.new
            (draw_form (minus (linear (sym_of val))) (sketch_of self.old)) (sym_of v)) }
    {
        let made = sub(alloc, &number(alloc, 0), &linear(alloc, val));
        let form = self.hold(alloc, made)?;
        Ok(SymVal::Num(form))
    }

    /// The value so many times.
    fn multiple(&mut self, alloc: Global, by: i64, val: SymVal) -> Result<SymVal, NoMemory>
        ensures way { OnOk result (way_of self.new ≡ way_of self.old) }
        ensures told { IfOk result (λ v. DrawsFrom self.old self.new
            (draw_form (scale by (linear (sym_of val))) (sketch_of self.old)) (sym_of v)) }
    {
        let made = scale(alloc, &linear(alloc, val), by);
        let form = self.hold(alloc, made)?;
        Ok(SymVal::Num(form))
    }

    /// The product of two values, of which one may be a factor, which has no symbols; else it is a symbol.
    pub fn product(
        &mut self,
        alloc: Global,
        factors: (bool, bool),
        left: SymVal,
        right: SymVal,
    ) -> Result<SymVal, NoMemory>
        ensures way { OnOk result (way_of self.new ≡ product_way factors.0 factors.1 (way_of self.old)) }
        ensures told { IfOk result (λ v. DrawsFrom self.old self.new
            (draw_product factors.0 factors.1 (sym_of left) (sym_of right) (sketch_of self.old)) (sym_of v)) }
    {
        if factors.0 {
            let by = linear(alloc, left).plus;
            self.multiple(alloc, by, right)
        } else if factors.1 {
            let by = linear(alloc, right).plus;
            self.multiple(alloc, by, left)
        } else {
            self.draw_symbol(alloc, Ty::Int)
        }
    }

    /// Takes the next choice for a comparison, with its facts; `None` if there is none.
    pub fn choose(
        &mut self,
        alloc: Global,
        rel: Rel,
        left: &SymVal,
        right: &SymVal,
    ) -> Result<Option<bool>, NoMemory>
        ensures way { IfOk result (λ holds. tested_as holds (way_of self.new) ≡ next_choice self.old.left.now (way_of self.old)) }
        ensures told { IfOk result (λ holds. TriesFrom self.old self.new
            (draw_choice self.old.left.now rel (sym_of left.now) (sym_of right.now) (sketch_of self.old)) holds) }
    {
        match self.left {
            [] => Ok(None),
            [holds, rest @ ..] => {
                let facts = facts_of(alloc, rel, *holds, left, right)?;
                self.facts.extend_from_slice(facts.items())?;
                self.left = rest;
                Ok(Some(*holds))
            }
        }
    }

    /// Gives a variable the form of what it was given.
    pub fn set_form(&mut self, var: u16, form: SymVal) -> Result<(), NoMemory>
        ensures set { OnOk result (Leads (sketch_of self.new) ≡ set_form var (sym_of form) (sketch_of self.old)) }
        ensures way { OnOk result (way_of self.new ≡ formed var (way_of self.old)) }
        ensures same { OnOk result (self.new.exact ≡ self.old.exact) }
    {
        self.known.push(Source::Variable(var))?;
        self.sources.insert(0, (Source::Variable(var), form))?;
        Ok(())
    }

    /// Forgets the columns of the row that was updated.
    pub fn forget(&mut self, alloc: Global)
        ensures forgotten { sketch_of self.new ≡ forgetting (sketch_of self.old) }
        ensures way { way_of self.new ≡ paths.forgetting (way_of self.old) }
        ensures same { self.new.exact ≡ self.old.exact }
    {
        self.known_old = List::new(alloc);
        self.olds.clear();
    }

    /// One more effect.
    pub fn put_effect(&mut self, effect: SymEffect) -> Result<(), NoMemory>
        ensures put { OnOk result (sketch_of self.new ≡ with_effect (effect_of effect) (sketch_of self.old)) }
        ensures way { OnOk result (way_of self.new ≡ way_of self.old) }
        ensures same { OnOk result (self.new.exact ≡ self.old.exact) }
    {
        self.effects.push(effect)?;
        Ok(())
    }
}
