ghost use Rattle.std.specs.Prelude.{◌≡◌, refl, true, false, None, Some};
ghost use Rattle.std.proofs.Common.{◌∙◌, sym, subst};
ghost use Rattle.sv_effect.specs.BareTables.{bare};
ghost use Rattle.sv_effect.specs.RowsFit.{TablesAreOf};
ghost use Rattle.sv_store.specs.Rest.{rest_of};

use sv_effect::{Halt, RowStore, Rows, Seen};
use sv_pool::PoolStore;
use sv_value::Key;

/// The rows of a site: a source that knows the answer to every ask.
#[derive(Drop)]
pub struct SiteRows<'a> {
    pub(crate) store: &'a PoolStore,
}

impl Rows for SiteRows<'_> {
    ghost is_of = { λ rows schema. TablesAreOf schema rows.store.now.tables };

    ghost face = { λ rows. record { tables = Some (bare rows.store.now.tables); knows = λ ask. true; rest = rest_of rows.store.now.tables } };

    ghost stays = { λ a b. b.store.now ≡ a.store.now };

    ghost stays_laws = { record {
      none = λ a. refl;
      both = λ a b c p q. q ∙ p;
      same_face = λ a b p i. record { tables = Some (bare (p i).tables); knows = λ ask. true; rest = rest_of (p i).tables };
      same_app = λ a b schema p of. subst (λ store. TablesAreOf schema store.tables) (sym p) of;
    } };

    ghost noted = { λ rows. None };

    ghost takes_memory = { λ rows. false };

    fn row(&mut self, table: u16, key: &Key) -> Result<Seen, Halt> {
        Ok(self.store.see(table, key))
    }

    fn next(&mut self, table: u16, after: Option<&Key>) -> Result<Option<Key>, Halt> {
        Ok(self.store.next_after(table, after))
    }
}
