ghost use Rattle.std.specs.Prelude.{◌≡◌, ◌++◌, OnOk};
ghost use Rattle.sv_tool.specs.CheckText.{ok_line};
ghost use Rattle.sv_tool.specs.Accepted.{sizes_said};

use sv_report::{put_bytes, put_count};
use sv_value::NoMemory;

/// How many tables, transactions and invariants were accepted.
#[derive(Clone, Copy, Debug)]
pub struct Accepted {
    pub tables: u64,
    pub txns: u64,
    pub invariants: u64,
}

/// Appends the line of a document that is accepted.
#[tactic(auto, using(crate::proofs::AppendLaws::appends))]
pub fn put_accepted(out: &mut Vec<u8>, accepted: &Accepted) -> Result<(), NoMemory>
    ensures { OnOk result (out.new.items ≡ out.old.items ++ ok_line (sizes_said accepted.now)) }
{
    put_bytes(out, b"ok ")?;
    put_count(out, accepted.tables)?;
    put_bytes(out, b" ")?;
    put_count(out, accepted.txns)?;
    put_bytes(out, b" ")?;
    put_count(out, accepted.invariants)?;
    put_bytes(out, b"\n")
}
