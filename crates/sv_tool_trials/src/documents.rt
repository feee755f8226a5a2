//! Documents that several tests read.

/// A counter for each of some keys.
pub const ACCOUNTS: &str = "@UOSET create table acc (id int, n int @NUMDELTA, primary key (id));
txn add(k: int, n: int) { update acc[k] set n = old.n + n; }
txn look(k: int) { get r = acc[k]; reply r.n; }
";

/// Seven lines.
pub const SHOP: &str = "@AUSET create table item (id int, stock int @NUMDELTA, price int @LWW,
  primary key (id), check (stock >= 0), check (price >= 1));
txn restock(k: int, n: int) { if n < 0 { abort 1; } update item[k] set stock = old.stock + n; }
txn buy(k: int, n: int) { if n <= 0 { abort 1; } update item[k] set stock = old.stock - n; }
txn reprice(k: int, p: int) { update item[k] set price = p; }
txn add(k: int, n: int, p: int) { insert item (k, n, p); }
txn look(k: int) { get r = item[k]; reply r.stock; reply r.price; }
";

/// What stands behind the shop where a customer buys: two lines.
pub const PURCHASE: &str = "%% init item(7, 10, 3);
%% replay sites=2 ask 1 buy(7, 2); order 1; deliver 2 red 0; show 2 item;
";

/// What that replay writes: 92 bytes.
pub const PURCHASED: &str = "pending 1 0 expects 0
answer 1 0 ok() red 0 0 1 check 1
applied
show 2 item 1
row 7 8 3
end
";
