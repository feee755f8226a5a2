//! The changes that a run made so far.

ghost use Rattle.std.specs.Prelude.{◌≡◌, ◌≤◌, ◌<◌, ◌≤ℤ◌, ◌++◌, ◌∷◌, [], pos, length, map, OnOk};
ghost use Rattle.sv_effect.specs.Acts.{is_draw};
ghost use Rattle.sv_effect.specs.RunChanges.{effect_of, draws, drawn_key};

use std::alloc::Global;
use sv_app::Act;
use sv_effect::RowEffect;
use sv_value::{Key, List, NoMemory, Val};

/// The changes of a run, in order: at most 64.
#[derive(Debug, Drop)]
pub struct Made {
    list: List<RowEffect>,
    ghost few: { length list ≤ 64 },
}

fn is_draw(act: Act) -> bool
    ensures { result ≡ is_draw act }
{
    match act {
        Act::Fresh => true,
        Act::Insert | Act::Update | Act::Remove => false,
    }
}

/// How many keys the changes drew.
fn draws(effects: &[RowEffect]) -> u16
    requires { length effects.now ≤ 64 }
    ensures drawn { result ≡ draws (map effect_of effects.now) }
    ensures few { result ≤ length effects.now }
{
    match effects {
        [] => 0,
        [first, rest @ ..] => {
            let later = draws(rest);
            if is_draw(first.act) { 1 + later } else { later }
        }
    }
}

impl Made {
    /// No changes.
    pub fn none(alloc: Global) -> Made
        ensures { result.list ≡ [] }
    {
        Made {
            list: List::new(alloc),
        }
    }

    /// How many there are.
    pub fn len(&self) -> usize
        ensures { result ≡ length self.now.list }
    {
        self.list.len()
    }

    /// One more change.
    pub fn push(&mut self, effect: RowEffect) -> Result<(), NoMemory>
        requires { length self.old.list < 64 }
        ensures { OnOk result (self.new.list ≡ self.old.list ++ effect ∷ []) }
    {
        self.list.push(effect)?;
        Ok(())
    }

    /// The next key that is drawn: keys are numbered from the first, over the whole run.
    pub fn next_key(&self, first: i64) -> Key
        requires { first ≤ℤ pos 9223372036854775743 }
        ensures { result ≡ drawn_key first (map effect_of self.now.list) }
    {
        let drawn = draws(self.list.items());
        Key {
            first: Val::Int(first + drawn as i64),
            second: None,
        }
    }

    /// The changes by themselves.
    pub fn into_list(self) -> List<RowEffect>
        ensures { result ≡ self.list }
    {
        self.list
    }
}
