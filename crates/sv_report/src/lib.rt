//! The lines of a replay, and its steps: what each step does to a world, and what is printed of it. And what `compile`
//! prints of a dictionary.
#![tactic(auto)]

mod compiles;
mod laws;
mod replays;
mod replies;
mod shows;
mod texts;
mod values;

pub use compiles::put_compile;
pub use laws::{replays_are_legal, replays_are_one, rows_are_listed, same_compiled, texts_are_one};
pub use replays::replay_steps;
pub use replies::{put_commit, put_cut, put_delivered, put_gone, put_order, put_settled};
pub use shows::put_rows;
pub use texts::{put_bytes, put_count, put_packet, put_refusal};
