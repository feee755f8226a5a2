ghost use Rattle.std.specs.Prelude.{◌≡◌, ◌≤◌, ◌↔◌, IsSome, IfSome};

use std::marker::Model;

/// The most sites that one database may have.
pub const MOST_SITES: u8 = 8;

/// A site of the database: 1 to 8. Contracts see it as its number.
#[derive(Clone, Copy, Debug, PartialEq, Eq, PartialOrd, Ord)]
pub struct Site {
    number: u8,
}

impl Model for Site {
    ghost use Rattle.std.specs.Prelude.{ℕ, ◌≤◌};

    ghost Value = { ℕ };

    ghost view = { λ site. site.number };

    ghost invariant = { λ site. (1 ≤ site.number) × (site.number ≤ 8) };

    ghost inverse = { λ number. record { number = number } };
}

impl Site {
    /// The site of this number; `None` where it is 0 or above 8.
    pub fn new(number: u8) -> Option<Site>
        ensures valid { IsSome result ↔ ((1 ≤ number) × (number ≤ 8)) }
        ensures value { IfSome result (λ site. site ≡ number) }
    {
        if number == 0 || number > MOST_SITES {
            return None;
        }
        Some(Site { number })
    }

    /// Its number, 1 to 8.
    pub fn number(self) -> u8
        ensures value { result ≡ self }
        ensures from { 1 ≤ result }
        ensures to { result ≤ 8 }
    {
        self.number
    }
}
