ghost use Rattle.std.specs.Prelude.{◌↔◌, IsTrue, All};
ghost use Rattle.sv_bounds.specs.Differences.{IsRow};
ghost use Rattle.sv_bounds.specs.Answers.{IsSystem};

use sv_value::List;

/// The most variables of a system, variable 0 included.
pub const MOST_VARS: u8 = 65;

/// The most rows of a system.
pub const MOST_ROWS: usize = 4096;

/// The greatest bound of a row; less this is the least one.
pub const MOST_BOUND: i128 = 1 << 70;

/// A row `x - y <= most` over two variables of a system.
#[derive(Clone, Copy, Debug, PartialEq, Eq)]
pub struct Diff {
    pub x: u8,
    pub y: u8,
    pub most: i128,
}

/// Rows over the variables 0 to `vars - 1`. Variable 0 stands for zero.
#[derive(Debug, Drop)]
pub struct System {
    pub vars: u8,
    pub rows: List<Diff>,
}

impl Diff {
    /// Whether the row is over variables below `vars`, with a bound between -2^70 and 2^70.
    pub fn is_row(&self, vars: u8) -> bool
        ensures { IsTrue result ↔ IsRow vars self.now }
    {
        self.x < vars && self.y < vars && -MOST_BOUND <= self.most && self.most <= MOST_BOUND
    }
}

impl System {
    /// Whether the calls take the system: 1 to 65 variables, and at most 4,096 rows over them, each with its bound in range.
    pub fn is_valid(&self) -> bool
        ensures { IsTrue result ↔ IsSystem self.now }
    {
        1 <= self.vars
            && self.vars <= MOST_VARS
            && self.rows.len() <= MOST_ROWS
            && are_rows(self.rows.items(), self.vars)
    }
}

fn are_rows(rows: &[Diff], vars: u8) -> bool
    ensures { IsTrue result ↔ All (IsRow vars) rows.now }
{
    rows.iter().all(|row| row.is_row(vars))
}

/// Either a value for each variable, which together meet the rows and give 0 to variable 0,
/// or the numbers of rows that no values meet: each row's `y` is the next row's `x`,
/// the last one's the first's, and their bounds add up to less than zero.
#[derive(Debug, Drop)]
pub enum Answer {
    Values(List<i128>),
    Cycle(List<u32>),
}

/// The greatest value of a difference `x - y`, with values that have it and the numbers of rows
/// that lead from `x` to `y` and add up to it, or that there is none.
#[derive(Debug, Drop)]
pub enum Widest {
    Most {
        value: i128,
        at: List<i128>,
        chain: List<u32>,
    },
    Unbounded,
}
