//! The document on which workloads are made.

ghost use Rattle.std.specs.Prelude.{◌≡◌};
ghost use Rattle.sv_workload.specs.Made.{shop as text};

/// The text of the document on which workloads are made: a shop, its eight items, and three sites.
#[tactic(auto, unfolding(crate::specs::Made::shop))]
pub fn shop() -> &'static [u8]
    ensures { result.now ≡ text }
{
    b"@AUSET create table item (id int, stock int @NUMDELTA, price int @LWW,
  primary key (id), check (stock >= 0), check (price >= 1));
txn restock(k: int, n: int) { if n < 0 { abort 1; } update item[k] set stock = old.stock + n; }
txn buy(k: int, n: int) { if n <= 0 { abort 1; } update item[k] set stock = old.stock - n; }
txn reprice(k: int, p: int) { update item[k] set price = p; }
txn add(k: int, n: int, p: int) { insert item (k, n, p); }
txn look(k: int) { get r = item[k]; reply r.stock; reply r.price; }
%% init
item(1, 100, 1); item(2, 100, 1); item(3, 100, 1); item(4, 100, 1);
item(5, 100, 1); item(6, 100, 1); item(7, 100, 1); item(8, 100, 1);
%% replay sites=3
"
}
