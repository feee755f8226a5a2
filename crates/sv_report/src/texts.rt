//! Bytes, counts, packets and refusals, as they print.

ghost use Rattle.std.specs.Prelude.{◌≡◌, ◌++◌, OnOk};
ghost use Rattle.std.specs.Fmt.{decimal};
ghost use Rattle.sv_report.specs.Lines.{packet_text, reason_text, threat_text, label_text, refusal_line};

use itoa::Buffer;
use sv_app::{Reason, Refusal};
use sv_core::Label;
use sv_value::{NoMemory, Packet};

/// Appends the bytes.
pub fn put_bytes(out: &mut Vec<u8>, bytes: &[u8]) -> Result<(), NoMemory>
    ensures { OnOk result (out.new.items ≡ out.old.items ++ bytes.now) }
{
    out.extend_from_slice(bytes)?;
    Ok(())
}

/// Appends the decimal digits of a count or a number.
pub fn put_count(out: &mut Vec<u8>, n: u64) -> Result<(), NoMemory>
    ensures { OnOk result (out.new.items ≡ out.old.items ++ decimal n) }
{
    let mut buffer = Buffer::new();
    put_bytes(out, buffer.format(n).as_bytes())
}

/// Appends the name of a packet.
#[tactic(auto, using(crate::proofs::AppendLaws::appends))]
pub fn put_packet(out: &mut Vec<u8>, packet: &Packet) -> Result<(), NoMemory>
    ensures { OnOk result (out.new.items ≡ out.old.items ++ packet_text packet.now) }
{
    match packet {
        Packet::Blue { site, seq } => {
            put_bytes(out, b"blue ")?;
            put_count(out, site.number() as u64)?;
            put_bytes(out, b" ")?;
            put_count(out, *seq as u64)
        }
        Packet::Red { slot } => {
            put_bytes(out, b"red ")?;
            put_count(out, *slot as u64)
        }
    }
}

/// Appends a word and a number behind it.
#[tactic(auto, using(crate::proofs::AppendLaws::appends))]
pub(crate) fn put_numbered(out: &mut Vec<u8>, word: &[u8], number: u64) -> Result<(), NoMemory>
    ensures { OnOk result (out.new.items ≡ out.old.items ++ word.now ++ decimal number) }
{
    put_bytes(out, word)?;
    put_count(out, number)
}

/// Appends what a change is threatened by.
pub(crate) fn put_reason(out: &mut Vec<u8>, reason: &Reason) -> Result<(), NoMemory>
    ensures { OnOk result (out.new.items ≡ out.old.items ++ reason_text reason.now) }
{
    match reason {
        Reason::Plain => put_bytes(out, b"plain"),
        Reason::Unique(number) => put_numbered(out, b"unique ", *number as u64),
        Reason::Child(number) => put_numbered(out, b"child ", *number as u64),
        Reason::Parent(number) => put_numbered(out, b"parent ", *number as u64),
        Reason::Check(number) => put_numbered(out, b"check ", *number as u64),
        Reason::List(number) => put_numbered(out, b"list ", *number as u64),
    }
}

/// Appends the first threat of a red operation, and nothing of another one.
#[tactic(auto, using(crate::proofs::AppendLaws::appends))]
fn put_threat(out: &mut Vec<u8>, label: &Label) -> Result<(), NoMemory>
    ensures { OnOk result (out.new.items ≡ out.old.items ++ threat_text label.now) }
{
    match label {
        Label::Nothing => Ok(()),
        Label::Blue => Ok(()),
        Label::Red {
            instance,
            place,
            reason,
        } => {
            put_numbered(out, b" ", *instance as u64)?;
            put_numbered(out, b" ", *place as u64)?;
            put_bytes(out, b" ")?;
            put_reason(out, reason)
        }
    }
}

/// Appends the packet that carries what an answer changed with its first threat, or `none`.
#[tactic(auto, using(crate::proofs::AppendLaws::appends))]
pub(crate) fn put_label(
    out: &mut Vec<u8>,
    label: &Label,
    packet: &Option<Packet>,
) -> Result<(), NoMemory>
    ensures { OnOk result (out.new.items ≡ out.old.items ++ label_text label.now packet.now) }
{
    match packet {
        Some(packet) => {
            put_packet(out, packet)?;
            put_threat(out, label)
        }
        None => put_bytes(out, b"none"),
    }
}

/// Appends the line of a refusal.
#[tactic(auto, using(crate::proofs::AppendLaws::appends))]
pub fn put_refusal(out: &mut Vec<u8>, refusal: &Refusal) -> Result<(), NoMemory>
    ensures { OnOk result (out.new.items ≡ out.old.items ++ refusal_line refusal.now) }
{
    put_bytes(out, b"refused ")?;
    put_count(out, refusal.spot.line as u64)?;
    put_bytes(out, b":")?;
    put_count(out, refusal.spot.col as u64)?;
    put_bytes(out, b" ")?;
    put_count(out, refusal.code.number() as u64)?;
    put_bytes(out, b"\n")
}
