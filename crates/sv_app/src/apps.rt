ghost use Rattle.std.specs.Prelude.{◌≡◌};
ghost use Rattle.sv_app.specs.Lookups.{is_named};

use crate::schemas::Table;
use crate::txns::Txn;
use sv_value::{Name, Spot};

/// A name where it stands in the document. `num` is the number of what it names.
#[derive(Clone, Copy, Debug)]
pub struct Ident {
    pub name: Name,
    pub spot: Spot,
    pub num: u16,
}

/// Whether both are one name.
pub fn is_named(name: &Ident, other: &Ident) -> bool
    ensures { result ≡ is_named name.now other.now }
{
    name.name.bytes() == other.name.bytes()
}

/// The tables and transactions of a document.
#[derive(Debug, Drop)]
pub struct App {
    pub tables: Vec<Table>,
    pub txns: Vec<Txn>,
}
