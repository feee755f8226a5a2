ghost use Rattle.std.specs.Prelude.{◌≡◌, ◌≤◌};
ghost use Rattle.sv_app.specs.Draws.{DrawsDiffer, first_key};
ghost use Rattle.sv_app.specs.Kinds.{is_drawn, is_fresh};
ghost use Rattle.sv_app.specs.Lookups.{is_key};
ghost use Rattle.sv_app.specs.Schema.{declaration_of};

use crate::schemas::{Merge, Table, is_key};

/// The least key that is drawn; smaller ones are left to initial rows.
pub const FIRST_OF_ALL: i64 = 1_000_000_000_000;

/// The first of the 64 keys that a request may draw. Sessions are numbered from 1 to 64, and `index` is how many requests
/// of the session came before it.
pub fn first_key(session: u16, index: u32) -> i64
    requires one { 1 ≤ session }
    requires most { session ≤ 64 }
    ensures { result ≡ first_key session index }
{
    FIRST_OF_ALL + 4096 * index as i64 + 64 * (session as i64 - 1)
}

/// No key is drawn twice, by whatever requests of whatever sessions.
#[tactic(auto, using(crate::proofs::DrawLaws::draws_differ))]
pub fn draws_differ()
    ensures { DrawsDiffer }
{}

fn is_drawn(merge: Merge) -> bool
    ensures { result ≡ is_drawn merge }
{
    match merge {
        Merge::Fresh => true,
        Merge::Plain => false,
        Merge::Lww => false,
        Merge::NumDelta => false,
    }
}

/// Whether the table draws its keys.
pub fn is_fresh(table: &Table) -> bool
    ensures { result ≡ is_fresh (declaration_of table.now) }
{
    table.columns.iter().any(|column| is_drawn(column.merge) && is_key(table, &column.name))
}
