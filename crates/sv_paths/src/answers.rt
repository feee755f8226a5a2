use sv_value::{List, NoMemory};

/// How many paths of a unit are listed at most.
pub const MOST_PATHS: usize = 1024;

/// A path of a unit: a truth value for each comparison in its `if` conditions, in the order of evaluation, up to the
/// unit's end, or to an `abort`, where it aborts.
#[derive(Debug, Drop)]
pub struct Path {
    pub choices: List<bool>,
    pub aborts: bool,
}

/// Why the paths of a unit aren't listed.
#[derive(Clone, Copy, Debug, PartialEq, Eq)]
pub enum PathStop {
    /// There are more than `MOST_PATHS`; `count` is the first number that is too great.
    Many { count: u32 },
    NoMemory,
}

impl From<NoMemory> for PathStop {
    ghost use Rattle.std.specs.Prelude.{◌≡◌};
    ghost use Rattle.sv_paths.specs.declared.answers.PathStop.TheVariants.{NoMemory};

    ghost from_gives = { λ _ stop. stop ≡ NoMemory };

    fn from(_error: NoMemory) -> PathStop {
        PathStop::NoMemory
    }
}
