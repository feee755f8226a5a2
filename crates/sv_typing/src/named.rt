ghost use Rattle.std.specs.Prelude.{◌≡◌, ◌<◌, ◌+◌, map, length, drop, IfSome};
ghost use Rattle.std.specs.List.{flat_map};
ghost use Rattle.sv_app.specs.declared.refusals.Code.TheVariants.{Twice};
ghost use Rattle.sv_app.specs.declared.apps.Ident.{Ident as IdentValue};
ghost use Rattle.sv_app.specs.Lookups.{is_named, place_of};
ghost use Rattle.sv_app.specs.Typing.{repeats, fault_if};
ghost use Rattle.sv_typing.specs.Noted.{noted};

use crate::firsts::First;
use sv_app::{Code, Column, Declared, Expr, Ident, Table, Txn, is_named};

/// What has a name where it stands.
pub trait Named {
    ghost ident: { Self → IdentValue };

    /// The name.
    fn ident(&self) -> Ident
        ensures { result ≡ ident self.now };
}

impl Named for Ident {
    ghost ident = { λ name. name };

    fn ident(&self) -> Ident {
        *self
    }
}

impl Named for Column {
    ghost ident = { λ column. column.name };

    fn ident(&self) -> Ident {
        self.name
    }
}

impl Named for Table {
    ghost ident = { λ table. table.name };

    fn ident(&self) -> Ident {
        self.name
    }
}

impl Named for Declared {
    ghost ident = { λ declared. declared.name };

    fn ident(&self) -> Ident {
        self.name
    }
}

impl Named for Txn {
    ghost ident = { λ txn. txn.name };

    fn ident(&self) -> Ident {
        self.name
    }
}

impl Named for (Ident, Expr) {
    ghost ident = { λ set. set.0 };

    fn ident(&self) -> Ident {
        self.0
    }
}

/// The place of the first item of that name.
#[tactic(auto, using(crate::proofs::LookupLaws::lookups))]
pub fn place_of<T: Named>(name: &Ident, items: &[T]) -> Option<usize>
    ensures place { result ≡ place_of name.now (map T.ident items.now) }
    ensures within { IfSome result (λ place. place < length items.now) }
{
    for place in 0..items.len() {
        let found = items[place].ident();
        if is_named(&found, name) {
            return Some(place);
        }
    }
    None
}

/// Notes each of these that has the name, as a second one.
#[tactic(auto, using(crate::proofs::NotedLaws::looping))]
fn note_second<T: Named>(first: &mut First, name: &Ident, items: &[T])
    ensures { first.new.held ≡ noted first.old.held (flat_map (λ later. fault_if (is_named later name.now) later.spot Twice) (map T.ident items.now)) }
{
    for item in items {
        let later = item.ident();
        first.note_if(is_named(&later, name), later.spot, Code::Twice);
    }
}

/// Notes each later one of these that has the name of an earlier one.
#[tactic(auto, using(crate::proofs::NotedLaws::looping))]
pub fn note_repeats<T: Named>(first: &mut First, items: &[T])
    ensures { first.new.held ≡ noted first.old.held (repeats (map T.ident items.now)) }
{
    for place in 0..items.len() {
        let name = items[place].ident();
        note_second(first, &name, behind(items, place));
    }
}

/// The items behind that place.
fn behind<T>(items: &[T], place: usize) -> &[T]
    requires { place < length items.now }
    ensures { result.now ≡ drop (place + 1) items.now }
{
    &items[place + 1..]
}
