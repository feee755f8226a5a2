//! What is tried for a column.

ghost use Rattle.std.specs.Prelude.{◌≡◌, ◌+◌, ◌++◌, ℕ, suc, IfOk, OnOk};
ghost use Rattle.sv_plain_threats.specs.Tries.{both_ways, guesses_below};

use std::alloc::Global;
use sv_value::NoMemory;

/// What is tried for a column: its number before the change, and whether the change's write wins.
#[derive(Clone, Copy, Debug)]
pub struct Guess {
    pub number: i64,
    pub wins: bool,
}

/// Appends a number and its opposite, each winning and losing.
fn put_both_ways(guesses: &mut Vec<Guess>, number: u16) -> Result<(), NoMemory>
    ensures { OnOk result (guesses.new.items ≡ guesses.old.items ++ both_ways number) }
{
    let above = number as i64;
    let below = -above;
    guesses.push(Guess {
        number: above,
        wins: true,
    })?;
    guesses.push(Guess {
        number: above,
        wins: false,
    })?;
    guesses.push(Guess {
        number: below,
        wins: true,
    })?;
    guesses.push(Guess {
        number: below,
        wins: false,
    })?;
    Ok(())
}

/// The numbers from `-reach` to `reach`, each winning and losing.
pub fn all_guesses(alloc: Global, reach: u8) -> Result<Vec<Guess>, NoMemory>
    ensures { IfOk result (λ guesses. guesses.items ≡ guesses_below (suc reach)) }
{
    let mut guesses = Vec::new(alloc);
    for number in 0..reach as u16 + 1 {
        put_both_ways(&mut guesses, number)?;
    }
    Ok(guesses)
}
