use sv_app::Ident;
use sv_value::Spot;

/// One side of a check: a column, or zero where there is none, and a number that is added to it. `spot` is its place.
#[derive(Clone, Copy, Debug)]
pub struct Side {
    pub spot: Spot,
    pub col: Option<Ident>,
    pub plus: i128,
}

/// How the sides of a check compare: `<=`, `<`, `>=` or `>`.
#[derive(Clone, Copy, Debug, PartialEq, Eq)]
pub enum Order {
    AtMost,
    Below,
    AtLeast,
    Above,
}
