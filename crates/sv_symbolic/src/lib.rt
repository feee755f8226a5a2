//! What the units of a transaction do along their paths, in forms of the values that a path doesn't compute.
#![tactic(auto)]

mod copies;
mod laws;
mod loops;
mod names;
mod routes;
mod settings;
mod shapes;
mod statements;
mod states;
mod tables;
mod values;
mod writes;

pub use laws::{
    effects_suit, forms_hold, routes_are_closed, routes_are_paths, shapes_tell, symbols_are_typed,
};
pub use shapes::{ShapeStop, execute};
