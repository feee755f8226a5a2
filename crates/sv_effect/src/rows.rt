ghost use Rattle.std.specs.Prelude.{◌≡◌, ◌↔◌, ℕ, ◌<◌, ◌≤◌, ◌+◌, Bool, true, false, List, ◌∷◌, [], Option, Some, Err, IfOk, IfSome, OnErr, MatchOption};
ghost use Rattle.sv_app.specs.Schema.{Declaration, schema_of};
ghost use Rattle.sv_effect.specs.declared.reads.Ask.{Ask as AskValue};
ghost use Rattle.sv_effect.specs.declared.reads.Ask.TheVariants as ask;
ghost use Rattle.sv_effect.specs.declared.reads.Halt.TheVariants as halt;
ghost use Rattle.sv_effect.specs.Reads.{ReadValue, IsRow, IsKey, seen_of};
ghost use Rattle.sv_effect.specs.Agrees.{key_behind, place_at, seen_at, is_after, IsNextKey};
ghost use Rattle.sv_effect.specs.Asked.{Asked, StaysLaws};
ghost use Rattle.sv_effect.specs.Faces.{Face};
ghost use Rattle.sv_effect.specs.Follows.{noted_more};
ghost use Rattle.sv_effect.specs.RowsFit.{KeyIsOf, SeenFits, TablesAreOf};
ghost use Rattle.sv_effect.specs.StampedTables.{StampedTables};
ghost use Rattle.sv_effect.specs.BareTables.{bare, how_many};
ghost use Rattle.sv_effect.specs.Applied.{changes_of, applied};
ghost use Rattle.sv_effect.specs.Fits.{OpFits};
ghost use Rattle.sv_effect.specs.Takes.{KeepsBounds, FindsRows, inserts};

use crate::ops::Op;
use crate::reads::{Halt, Seen};
use sv_app::App;
use sv_value::Key;

/// A source of rows.
pub trait Rows {
    /// The rows are of the application with these tables.
    ghost is_of: { Self → List Declaration → Type 0 };

    /// What the rows show of themselves.
    ghost face: { Self → Face };

    /// What a call leaves, whatever came of it: the rows before and after it.
    ghost stays: { Self → Self → Type 0 };

    /// The reads so far, where they are noted.
    ghost noted: { Self → Option (List ReadValue) };

    /// Whether an answer may want memory.
    ghost takes_memory: { Self → Bool };

    /// The row of that key.
    fn row(&mut self, table: u16, key: &Key) -> Result<Seen, Halt>
        ensures asked { Asked stays face self.old self.new result }
        ensures by_tables { IfOk result (λ seen. MatchOption (face self.old).tables (Unit {0}) (λ t. seen_at t (place_at table key.now) ≡ seen_of seen)) }
        ensures fits { IfOk result (λ seen. (schema : List Declaration) → is_of self.old schema → SeenFits schema (place_at table key.now) (seen_of seen)) }
        ensures noted { IfOk result (λ seen. noted self.new ≡ noted_more (record { ask = ask.Row table key.now; answer = IsRow (seen_of seen) } ∷ []) (noted self.old)) }
        ensures stands { OnErr result (noted self.new ≡ noted self.old) }
        ensures missing { (a : AskValue) → result ≡ Err (halt.Missing a) → a ≡ ask.Row table key.now }
        ensures known { IfOk result (λ seen. (face self.old).knows (ask.Row table key.now) ≡ true) }
        ensures memory { result ≡ Err halt.NoMemory → takes_memory self.old ≡ true };

    /// The least key after that one, or of all, whose row is present.
    fn next(&mut self, table: u16, after: Option<&Key>) -> Result<Option<Key>, Halt>
        ensures asked { Asked stays face self.old self.new result }
        ensures by_tables { IfOk result (λ next. MatchOption (face self.old).tables (Unit {0}) (λ t. IsNextKey t table (key_behind after.entry) next)) }
        ensures fits { IfOk result (λ next. IfSome next (λ key. (schema : List Declaration) → is_of self.old schema → KeyIsOf schema (place_at table key))) }
        ensures rises { IfOk result (λ next. IfSome next (λ key. is_after (key_behind after.entry) key ≡ true)) }
        ensures falls { IfOk result (λ next. IfSome next (λ key. (face self.old).rest table (Some key) < (face self.old).rest table (key_behind after.entry))) }
        ensures noted { IfOk result (λ next. noted self.new ≡ noted_more (record { ask = ask.Next table (key_behind after.entry); answer = IsKey next } ∷ []) (noted self.old)) }
        ensures stands { OnErr result (noted self.new ≡ noted self.old) }
        ensures missing { (a : AskValue) → result ≡ Err (halt.Missing a) → a ≡ ask.Next table (key_behind after.entry) }
        ensures known { IfOk result (λ next. (face self.old).knows (ask.Next table (key_behind after.entry)) ≡ true) }
        ensures memory { result ≡ Err halt.NoMemory → takes_memory self.old ≡ true };

    ghost stays_laws: { StaysLaws is_of face stays };
}

/// Rows that can be changed by operations. They tell their tables, with their stamps, and know the answer to every ask.
pub trait RowStore: Rows {
    /// The tables, with their stamps.
    ghost stamped: { Self → StampedTables };

    /// How many further rows fit.
    ghost room: { Self → ℕ };

    /// The row of that key.
    fn see(&self, table: u16, key: &Key) -> Seen
        ensures value { seen_of result ≡ seen_at (bare (stamped self.now)) (place_at table key.now) }
        ensures fits { (schema : List Declaration) → Self.is_of self.now schema → SeenFits schema (place_at table key.now) (seen_of result) };

    /// The least key after that one, or of all, whose row is present.
    fn next_after(&self, table: u16, after: Option<&Key>) -> Option<Key>
        ensures value { IsNextKey (bare (stamped self.now)) table (key_behind after.entry) result }
        ensures fits { IfSome result (λ key. (schema : List Declaration) → Self.is_of self.now schema → KeyIsOf schema (place_at table key)) }
        ensures falls { IfSome result (λ key. (Self.face self.now).rest table (Some key) < (Self.face self.now).rest table (key_behind after.entry)) };

    /// How many further rows fit.
    fn room(&self) -> u32
        ensures { result ≡ room self.now };

    /// Makes the changes of an operation, in order, and takes no memory. The rows and the operation are of the
    /// application, each row that is updated or removed is kept or was inserted by an earlier change of the operation,
    /// each count that a change leaves lies between -2^100 and 2^100, and there is room for the inserts. The room falls
    /// by at most the number of rows that came to be kept, and by at most that of the inserts.
    fn apply(&mut self, app: &App, op: &Op)
        requires rows { Self.is_of self.old (schema_of app.now.tables.items) }
        requires fits { OpFits (schema_of app.now.tables.items) op.now }
        requires found { FindsRows (schema_of app.now.tables.items) (changes_of op.now) (stamped self.old) }
        requires counts { KeepsBounds (schema_of app.now.tables.items) (changes_of op.now) (stamped self.old) }
        requires room { inserts op.now.effects ≤ room self.old }
        ensures tables { stamped self.new ≡ applied (schema_of app.now.tables.items) op.now (stamped self.old) }
        ensures same_app { Self.is_of self.new (schema_of app.now.tables.items) }
        ensures same_noted { Self.noted self.new ≡ Self.noted self.old }
        ensures kept { room self.old + how_many (stamped self.old) ≤ room self.new + how_many (stamped self.new) }
        ensures spent { room self.old ≤ room self.new + inserts op.now.effects };

    ghost of_app: { (s : Self) (schema : List Declaration) → Self.is_of s schema ↔ TablesAreOf schema (stamped s) };

    ghost tells: { (s : Self) → (Self.face s).tables ≡ Some (bare (stamped s)) };

    ghost knows_all: { (s : Self) (a : AskValue) → (Self.face s).knows a ≡ true };

    ghost stays_whole: { (a b : Self) → Self.stays a b → b ≡ a };

    ghost never_short: { (s : Self) → Self.takes_memory s ≡ false };
}
