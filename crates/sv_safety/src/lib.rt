//! Which operations keep tables valid wherever they are applied, and what holds where an operation was made.
#![tactic(auto)]

mod laws;

pub use laws::{
    blue_is_safe, blue_runs_are_safe, drawn_stay, fitting_runs_hold, grown_stays, initial_stand,
    initial_undrawn, kept_stays, needs_stay, requests_draw_apart, rows_stay, runs_draw,
    runs_make_ops, stamps_stay_earlier, standing_fits,
};
