ghost use Rattle.std.specs.Prelude.{◌≡◌, refl, true, false, None, Some};
ghost use Rattle.std.proofs.Common.{◌∙◌, sym, subst};
ghost use Rattle.sv_effect.specs.BareTables.{bare};
ghost use Rattle.sv_effect.specs.RowsFit.{TablesAreOf};
ghost use Rattle.sv_store.specs.Rest.{rest_of};

use crate::pools::PoolStore;
use sv_app::App;
use sv_effect::{Halt, Op, RowStore, Rows, Seen};
use sv_value::Key;

impl Rows for PoolStore {
    ghost is_of = { λ store schema. TablesAreOf schema store.tables };

    ghost face = { λ store. record { tables = Some (bare store.tables); knows = λ ask. true; rest = rest_of store.tables } };

    ghost stays = { λ a b. b ≡ a };

    ghost stays_laws = { record {
      none = λ a. refl;
      both = λ a b c p q. q ∙ p;
      same_face = λ a b p i. record { tables = Some (bare (p i).tables); knows = λ ask. true; rest = rest_of (p i).tables };
      same_app = λ a b schema p of. subst (λ store. TablesAreOf schema store.tables) (sym p) of;
    } };

    ghost noted = { λ store. None };

    ghost takes_memory = { λ store. false };

    #[tactic(auto, using(sv_store::proofs::NextLaws::next_fits))]
    fn row(&mut self, table: u16, key: &Key) -> Result<Seen, Halt> {
        Ok(self.seen(table, key))
    }

    #[tactic(auto, using(sv_store::proofs::NextLaws::next_fits, sv_store::proofs::NextLaws::next_rises, sv_store::proofs::NextLaws::next_falls))]
    fn next(&mut self, table: u16, after: Option<&Key>) -> Result<Option<Key>, Halt> {
        Ok(self.key_after(table, after))
    }
}

impl RowStore for PoolStore {
    ghost stamped = { λ store. store.tables };

    ghost room = { λ store. store.room };

    ghost of_app = { λ store schema. (λ of. of, λ of. of) };

    ghost tells = { λ store. refl };

    ghost knows_all = { λ store ask. refl };

    ghost stays_whole = { λ a b p. p };

    ghost never_short = { λ store. refl };

    fn see(&self, table: u16, key: &Key) -> Seen {
        self.seen(table, key)
    }

    #[tactic(auto, using(sv_store::proofs::NextLaws::next_fits, sv_store::proofs::NextLaws::next_falls))]
    fn next_after(&self, table: u16, after: Option<&Key>) -> Option<Key> {
        self.key_after(table, after)
    }

    fn room(&self) -> u32 {
        PoolStore::room(self)
    }

    fn apply(&mut self, app: &App, op: &Op) {
        PoolStore::apply(self, app, op);
    }
}
