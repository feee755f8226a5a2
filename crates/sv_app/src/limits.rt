//! How much a document may hold, and a run may make. `sv_value` says how long names and texts are, `sv_io` how long a
//! document is.

/// Tables of a document.
pub const MOST_TABLES: usize = 16;

/// Columns of a table.
pub const MOST_COLUMNS: usize = 16;

/// Invariants of a table.
pub const MOST_INVARIANTS: usize = 16;

/// Texts in the list of an invariant.
pub const MOST_TEXTS: usize = 16;

/// Transactions of a document.
pub const MOST_TXNS: usize = 32;

/// Parameters of a transaction.
pub const MOST_PARAMS: usize = 16;

/// Statements of a transaction, nested ones too.
pub const MOST_STATEMENTS: usize = 128;

/// Loops of a transaction.
pub const MOST_LOOPS: usize = 15;

/// Variables that a transaction declares by `let`.
pub const MOST_VARIABLES: usize = 32;

/// How deep blocks stand in each other; the block of a transaction has depth 1.
pub const MOST_BLOCKS: usize = 8;

/// How deep expressions and conditions are.
pub const MOST_DEPTH: usize = 16;

/// The greatest number of an `abort`.
pub const MOST_CODE: i64 = 999;

/// Initial rows of a document.
pub const MOST_INIT_ROWS: usize = 4_096;

/// Steps of a replay.
pub const MOST_STEPS: usize = 65_536;

/// Requests of a document, as asks of a replay or in its sessions.
pub const MOST_REQUESTS: usize = 8_192;

/// Steps of a replay that show rows.
pub const MOST_SHOWS: usize = 64;

/// Sessions of a document.
pub const MOST_SESSIONS: usize = 64;

/// Numbers of a list argument.
pub const MOST_ELEMENTS: usize = 64;

/// Changes of a run.
pub const MOST_EFFECTS: usize = 64;

/// Values of a reply.
pub const MOST_REPLIES: usize = 16;
