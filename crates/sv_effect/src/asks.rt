//! Asks, and what is learned by them of all tables that may be behind the rows.

ghost use Rattle.std.specs.Prelude.{◌≡◌, ℕ, ◌<◌, Bool, true, false, List, Option, Some, Err, IfOk, IfSome, OnErr};
ghost use Rattle.sv_app.specs.Schema.{Declaration};
ghost use Rattle.sv_effect.specs.declared.reads.Ask.{Ask as AskValue};
ghost use Rattle.sv_effect.specs.declared.reads.Ask.TheVariants as ask;
ghost use Rattle.sv_effect.specs.declared.reads.Halt.TheVariants as halt;
ghost use Rattle.sv_effect.specs.Reads.{seen_of};
ghost use Rattle.sv_effect.specs.Agrees.{key_behind, place_at, seen_at, is_after, IsNextKey};
ghost use Rattle.sv_effect.specs.Asked.{Asked};
ghost use Rattle.sv_effect.specs.Follows.{Follows};
ghost use Rattle.sv_effect.specs.RowsFit.{KeyIsOf, SeenFits};

use crate::reads::{Halt, Seen};
use crate::rows::Rows;
use sv_value::Key;

/// Asks for the row of that key.
#[tactic(auto, using(crate::proofs::FollowLaws::row_told))]
pub fn ask_row<R: Rows>(rows: &mut R, table: u16, key: &Key) -> Result<Seen, Halt>
    ensures followed { IfOk result (λ seen. Follows (R.face rows.old) (R.face rows.new) (R.noted rows.old) (R.noted rows.new) (λ t. seen_at t (place_at table key.now) ≡ seen_of seen)) }
    ensures fits { IfOk result (λ seen. (schema : List Declaration) → R.is_of rows.old schema → SeenFits schema (place_at table key.now) (seen_of seen)) }
    ensures asked { Asked R.stays R.face rows.old rows.new result }
    ensures stands { OnErr result (R.noted rows.new ≡ R.noted rows.old) }
    ensures missing { (a : AskValue) → result ≡ Err (halt.Missing a) → a ≡ ask.Row table key.now }
    ensures memory { result ≡ Err halt.NoMemory → R.takes_memory rows.old ≡ true }
{
    rows.row(table, key)
}

/// Asks for the least key after that one, or of all, whose row is present.
#[tactic(auto, using(crate::proofs::FollowLaws::key_told))]
pub fn ask_next<R: Rows>(rows: &mut R, table: u16, after: Option<&Key>) -> Result<Option<Key>, Halt>
    ensures followed { IfOk result (λ next. Follows (R.face rows.old) (R.face rows.new) (R.noted rows.old) (R.noted rows.new) (λ t. IsNextKey t table (key_behind after.entry) next)) }
    ensures fits { IfOk result (λ next. IfSome next (λ key. (schema : List Declaration) → R.is_of rows.old schema → KeyIsOf schema (place_at table key))) }
    ensures rises { IfOk result (λ next. IfSome next (λ key. is_after (key_behind after.entry) key ≡ true)) }
    ensures falls { IfOk result (λ next. IfSome next (λ key. (R.face rows.old).rest table (Some key) < (R.face rows.old).rest table (key_behind after.entry))) }
    ensures asked { Asked R.stays R.face rows.old rows.new result }
    ensures stands { OnErr result (R.noted rows.new ≡ R.noted rows.old) }
    ensures missing { (a : AskValue) → result ≡ Err (halt.Missing a) → a ≡ ask.Next table (key_behind after.entry) }
    ensures memory { result ≡ Err halt.NoMemory → R.takes_memory rows.old ≡ true }
{
    rows.next(table, after)
}

/// The same with the key that it is asked after held here.
pub fn ask_after<R: Rows>(
    rows: &mut R,
    table: u16,
    after: &Option<Key>,
) -> Result<Option<Key>, Halt>
    ensures followed { IfOk result (λ next. Follows (R.face rows.old) (R.face rows.new) (R.noted rows.old) (R.noted rows.new) (λ t. IsNextKey t table after.now next)) }
    ensures falls { IfOk result (λ next. IfSome next (λ key. (R.face rows.old).rest table (Some key) < (R.face rows.old).rest table after.now)) }
    ensures asked { Asked R.stays R.face rows.old rows.new result }
{
    match after {
        Some(key) => ask_next(rows, table, Some(key)),
        None => ask_next(rows, table, None),
    }
}
