//! Names that stand a second time in a list that no limit holds short.

ghost use Rattle.std.specs.Prelude.{◌≡◌, ◌||◌, IfOk, OnOk, map};
ghost use Rattle.sv_app.specs.declared.apps.Ident.{Ident as IdentValue};
ghost use Rattle.sv_app.specs.Lookups.{is_named};
ghost use Rattle.sv_app.specs.Typing.{repeats};
ghost use Rattle.sv_typing.specs.Noted.{noted};
ghost use Rattle.sv_typing.specs.Seconds.{is_among};

use crate::firsts::First;
use crate::named::Named;
use std::alloc::Global;
use std::cmp::Ordering;
use std::collections::BTreeSet;
use sv_app::{Code, Ident};
use sv_value::{Name, NoMemory};

/// A name in the order of its bytes, as it stands in a set.
#[derive(Clone, Copy, Debug)]
pub struct Spelled {
    pub name: Name,
}

impl PartialEq for Spelled {
    ghost use Rattle.std.specs.Cmp.{partial_equiv_from_equiv};
    ghost use Rattle.std.specs.Cmp.Lexicographic.{on_texts_equal};
    ghost use Rattle.sv_typing.specs.Seconds.{is_spelled};

    ghost eq = { is_spelled };

    ghost laws = { partial_equiv_from_equiv (on_texts_equal (λ s. s.name)) };

    fn eq(&self, other: &Spelled) -> bool {
        self.name.bytes() == other.name.bytes()
    }
}

impl Eq for Spelled {
    ghost use Rattle.std.specs.Cmp.Lexicographic.{on_texts_equal};

    ghost laws = { on_texts_equal (λ s. s.name) };
}

impl PartialOrd for Spelled {
    ghost use Rattle.std.specs.Cmp.{po};
    ghost use Rattle.std.specs.Cmp.Lexicographic.{on_texts, texts_ties};
    ghost use Rattle.std.specs.Ordering.{as_partial_cmp};
    ghost use Rattle.sv_typing.specs.Seconds.{spelled_cmp};

    ghost partial_cmp = { as_partial_cmp spelled_cmp };

    ghost laws = { po (on_texts (λ s. s.name)) (λ a b. texts_ties a.name b.name) };

    fn partial_cmp(&self, other: &Spelled) -> Option<Ordering> {
        Some(self.cmp(other))
    }
}

impl Ord for Spelled {
    ghost use Rattle.std.specs.Prelude.{refl};
    ghost use Rattle.std.specs.Cmp.Lexicographic.{on_texts, texts_ties};
    ghost use Rattle.sv_typing.specs.Seconds.{spelled_cmp};

    ghost cmp = { spelled_cmp };

    ghost total = { on_texts (λ s. s.name) };

    ghost matches_partial_cmp = { λ a b. refl };

    ghost matches_eq = { λ a b. texts_ties a.name b.name };

    fn cmp(&self, other: &Spelled) -> Ordering {
        self.name.bytes().cmp(other.name.bytes())
    }
}

/// Puts the name into the set, and tells whether it was there.
#[tactic(auto, using(crate::proofs::SecondLaws::among))]
fn put(seen: &mut BTreeSet<Spelled>, name: &Ident) -> Result<bool, NoMemory>
    ensures was { IfOk result (λ was. was ≡ is_among seen.old name.now) }
    ensures is { OnOk result ((other : IdentValue) → is_among seen.new other ≡ (is_named other name.now || is_among seen.old other)) }
{
    let was = seen.contains(&Spelled { name: name.name });
    seen.insert(Spelled { name: name.name })?;
    Ok(was)
}

/// Notes each later one of these that has the name of an earlier one. The names so far are kept in a set, so that a
/// long list takes its length times a logarithm.
#[tactic(auto, using(crate::proofs::SecondLaws::seconds))]
pub fn note_all_repeats<T: Named>(
    alloc: Global,
    first: &mut First,
    items: &[T],
) -> Result<(), NoMemory>
    ensures { OnOk result (first.new.held ≡ noted first.old.held (repeats (map T.ident items.now))) }
{
    let mut seen = BTreeSet::new(alloc);
    for item in items {
        let name = item.ident();
        let again = put(&mut seen, &name)?;
        first.note_if(again, name.spot, Code::Twice);
    }
    Ok(())
}
