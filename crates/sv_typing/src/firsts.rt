ghost use Rattle.std.specs.Prelude.{◌≡◌, [], ◌∷◌, Option};
ghost use Rattle.std.specs.Prelude.{None as none};
ghost use Rattle.sv_app.specs.Firsts.{is_earlier, is_same_place, comes_before};
ghost use Rattle.sv_app.specs.Typing.{fault_if};
ghost use Rattle.sv_typing.specs.Noted.{noted};

use sv_app::{Code, Refusal};
use sv_value::Spot;

fn is_earlier(a: Spot, b: Spot) -> bool
    ensures { result ≡ is_earlier a b }
{
    a.line < b.line || (a.line == b.line && a.col < b.col)
}

/// Whether both are the same place.
pub fn is_same_place(a: Spot, b: Spot) -> bool
    ensures { result ≡ is_same_place a b }
{
    a.line == b.line && a.col == b.col
}

fn comes_before(a: &Refusal, b: &Refusal) -> bool
    ensures { result ≡ comes_before a.now b.now }
{
    is_earlier(a.spot, b.spot)
        || (is_same_place(a.spot, b.spot) && a.code.number() < b.code.number())
}

/// The first refusal of those that were found so far.
#[derive(Debug, Drop)]
pub struct First {
    pub held: Option<Refusal>,
}

impl First {
    /// Nothing is found yet.
    pub fn none() -> First
        ensures { result.held ≡ none }
    {
        First { held: None }
    }

    fn note(&mut self, refusal: Refusal)
        ensures { self.new.held ≡ noted self.old.held (refusal ∷ []) }
    {
        match &self.held {
            None => self.held = Some(refusal),
            Some(held) => {
                if comes_before(&refusal, held) {
                    self.held = Some(refusal);
                }
            }
        }
    }

    /// Notes a refusal where the rule is broken.
    pub fn note_if(&mut self, broken: bool, spot: Spot, code: Code)
        ensures { self.new.held ≡ noted self.old.held (fault_if broken spot code) }
    {
        if broken {
            self.note(Refusal { spot, code });
        }
    }
}
