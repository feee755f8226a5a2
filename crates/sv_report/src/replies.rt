//! Answers, and what became of packets and sessions.

ghost use Rattle.std.specs.Prelude.{◌≡◌, ◌++◌, ◌≤◌, OnOk, slice_get, codes};
ghost use Rattle.std.specs.Fmt.{decimal};
ghost use Rattle.sv_core.specs.Legal.{IsSession};
ghost use Rattle.sv_value.specs.Cuts.{counts};
ghost use Rattle.sv_core.specs.declared.entries.Reply.TheVariants.{Ran as HasRun};
ghost use Rattle.sv_report.specs.Lines.{answer_line, behind_line, caught_line, counts_text, cut_line, delivered_line, pending_line, packet_text, reply_text, settled_line, which_text};
ghost use Rattle.sv_report.specs.Told.{CanTell, CanTellOrder, IsAnswerAt, commit_line, entry_line, gone_line, order_line};

use crate::texts::{put_bytes, put_count, put_label, put_numbered, put_packet};
use crate::values::put_values;
use sv_core::{Commit, Delivered, Entry, Gone, Label, Ordered, Reply, Which, World};
use sv_effect::Outcome;
use sv_value::{Cut, NoMemory, Packet, Site};

/// Appends how a run ended, and behind its replies the label of its changes.
#[tactic(auto, using(crate::proofs::AppendLaws::appends))]
fn put_outcome(
    out: &mut Vec<u8>,
    outcome: &Outcome,
    label: &Label,
    packet: &Option<Packet>,
) -> Result<(), NoMemory>
    ensures { OnOk result (out.new.items ≡ out.old.items ++ reply_text (HasRun outcome.now) label.now packet.now) }
{
    match outcome {
        Outcome::Done(values) => {
            put_bytes(out, b"ok(")?;
            put_values(out, values.items())?;
            put_bytes(out, b") ")?;
            put_label(out, label, packet)
        }
        Outcome::Abort(number) => put_numbered(out, b"abort ", *number as u64),
        Outcome::NoRow => put_bytes(out, b"norow"),
        Outcome::Exists => put_bytes(out, b"exists"),
        Outcome::Range => put_bytes(out, b"range"),
        Outcome::TooLarge => put_bytes(out, b"toolarge"),
    }
}

/// Appends what there was no room for.
fn put_which(out: &mut Vec<u8>, which: &Which) -> Result<(), NoMemory>
    ensures { OnOk result (out.new.items ≡ out.old.items ++ which_text which.now) }
{
    match which {
        Which::Rows => put_bytes(out, b"rows "),
        Which::Changes => put_bytes(out, b"changes "),
    }
}

/// Appends a reply, and behind the replies of a run the label of its changes.
#[tactic(auto, using(crate::proofs::AppendLaws::appends))]
fn put_reply(
    out: &mut Vec<u8>,
    reply: &Reply,
    label: &Label,
    packet: &Option<Packet>,
) -> Result<(), NoMemory>
    ensures { OnOk result (out.new.items ≡ out.old.items ++ reply_text reply.now label.now packet.now) }
{
    match reply {
        Reply::Ran(outcome) => put_outcome(out, outcome, label, packet),
        Reply::Refused { inv } => put_numbered(out, b"refused ", *inv as u64),
        Reply::Full { which, used } => {
            put_bytes(out, b"full ")?;
            put_which(out, which)?;
            put_count(out, *used as u64)
        }
    }
}

/// Appends the line of an answer.
#[tactic(auto, using(crate::proofs::AppendLaws::appends))]
fn put_answer(
    out: &mut Vec<u8>,
    session: u16,
    index: u32,
    reply: &Reply,
    label: &Label,
    packet: &Option<Packet>,
) -> Result<(), NoMemory>
    ensures { OnOk result (out.new.items ≡ out.old.items ++ answer_line session index reply.now label.now packet.now) }
{
    put_numbered(out, b"answer ", session as u64)?;
    put_numbered(out, b" ", index as u64)?;
    put_bytes(out, b" ")?;
    put_reply(out, reply, label, packet)?;
    put_bytes(out, b"\n")
}

/// Appends the line of the session's answer that stands at a place of these entries.
fn put_answer_at(
    out: &mut Vec<u8>,
    entries: &[Entry],
    session: u16,
    place: u32,
) -> Result<(), NoMemory>
    requires { IsAnswerAt entries.now session place }
    ensures { OnOk result (out.new.items ≡ out.old.items ++ entry_line (slice_get entries.now place)) }
{
    match &entries[place as usize] {
        Entry::Answer {
            index,
            reply,
            label,
            packet,
            ..
        } => put_answer(out, session, *index, reply, label, packet),
        Entry::Apply { .. } => unreachable!(),
        Entry::Move { .. } => unreachable!(),
    }
}

/// Appends the line of an operation that waits for its slot, where so many stand before it.
#[tactic(auto, using(crate::proofs::AppendLaws::appends))]
fn put_pending(out: &mut Vec<u8>, session: u16, index: u32, expected: u32) -> Result<(), NoMemory>
    ensures { OnOk result (out.new.items ≡ out.old.items ++ pending_line session index expected) }
{
    put_numbered(out, b"pending ", session as u64)?;
    put_numbered(out, b" ", index as u64)?;
    put_numbered(out, b" expects ", expected as u64)?;
    put_bytes(out, b"\n")
}

/// Appends a word, a number and the end of the line.
#[tactic(auto, using(crate::proofs::AppendLaws::appends))]
fn put_number_line(out: &mut Vec<u8>, word: &[u8], number: u64) -> Result<(), NoMemory>
    ensures { OnOk result (out.new.items ≡ out.old.items ++ word.now ++ decimal number ++ codes "\n") }
{
    put_numbered(out, word, number)?;
    put_bytes(out, b"\n")
}

/// Appends a word, the name of a packet and the end of the line.
#[tactic(auto, using(crate::proofs::AppendLaws::appends))]
fn put_packet_line(out: &mut Vec<u8>, word: &[u8], packet: &Packet) -> Result<(), NoMemory>
    ensures { OnOk result (out.new.items ≡ out.old.items ++ word.now ++ packet_text packet.now ++ codes "\n") }
{
    put_bytes(out, word)?;
    put_packet(out, packet)?;
    put_bytes(out, b"\n")
}

/// Appends the line of what came of an answer of the session that was prepared: the answer, that its operation waits for its
/// slot, that another one waits, or what the site lacks.
pub fn put_commit(out: &mut Vec<u8>, w: &World, session: u16, c: &Commit) -> Result<(), NoMemory>
    requires session { IsSession session }
    requires told { CanTell w.now.medium session c.now }
    ensures { OnOk result (out.new.items ≡ out.old.items ++ commit_line w.now.medium session c.now) }
{
    match c {
        Commit::Answered { place } => put_answer_at(out, w.history(), session, *place),
        Commit::Pending { expected } => match w.pending(session) {
            Some(index) => put_pending(out, session, index, *expected),
            None => unreachable!(),
        },
        Commit::Waiting { index, .. } => put_number_line(out, b"waiting ", *index as u64),
        Commit::Short { missing, .. } => put_packet_line(out, b"short ", missing),
        Commit::NotNext { .. } => unreachable!(),
        Commit::Changed { .. } => unreachable!(),
    }
}

/// Appends the line of an operation that another site's stands before.
#[tactic(auto, using(crate::proofs::AppendLaws::appends))]
fn put_behind(out: &mut Vec<u8>, slot: u32, owner: Site) -> Result<(), NoMemory>
    ensures { OnOk result (out.new.items ≡ out.old.items ++ behind_line slot owner) }
{
    put_numbered(out, b"behind ", slot as u64)?;
    put_numbered(out, b" ", owner.number() as u64)?;
    put_bytes(out, b"\n")
}

/// Appends the line of what came of asking for the slot of the session's operation: the answer, which operation has the
/// slot, or that none waits.
pub fn put_order(out: &mut Vec<u8>, w: &World, session: u16, o: &Ordered) -> Result<(), NoMemory>
    requires { CanTellOrder w.now.medium session o.now }
    ensures { OnOk result (out.new.items ≡ out.old.items ++ order_line w.now.medium o.now) }
{
    match o {
        Ordered::Answered { place } => put_answer_at(out, w.history(), session, *place),
        Ordered::Behind { slot, owner } => put_behind(out, *slot, *owner),
        Ordered::NonePending => put_bytes(out, b"none\n"),
    }
}

/// Appends the line of what became of a packet that was delivered.
pub fn put_delivered(out: &mut Vec<u8>, d: &Delivered) -> Result<(), NoMemory>
    ensures { OnOk result (out.new.items ≡ out.old.items ++ delivered_line d.now) }
{
    match d {
        Delivered::Applied => put_bytes(out, b"applied\n"),
        Delivered::Duplicate => put_bytes(out, b"duplicate\n"),
        Delivered::Early { missing } => put_packet_line(out, b"early ", missing),
        Delivered::Unknown { published } => put_number_line(out, b"unknown ", *published as u64),
    }
}

/// Appends the line of the packet that a site settled, if there was one.
pub fn put_settled(out: &mut Vec<u8>, p: &Option<Packet>) -> Result<(), NoMemory>
    ensures { OnOk result (out.new.items ≡ out.old.items ++ settled_line p.now) }
{
    match p {
        Some(packet) => put_packet_line(out, b"settled ", packet),
        None => put_bytes(out, b"settled none\n"),
    }
}

/// Appends the line of how many packets a site caught up with.
pub(crate) fn put_caught(out: &mut Vec<u8>, count: u32) -> Result<(), NoMemory>
    ensures { OnOk result (out.new.items ≡ out.old.items ++ caught_line count) }
{
    put_number_line(out, b"caught ", count as u64)
}

/// Appends the blue counts of the first so many sites.
#[tactic(auto, using(crate::proofs::AppendLaws::appends))]
fn put_counts(out: &mut Vec<u8>, many: u8, c: &Cut) -> Result<(), NoMemory>
    requires { many ≤ 8 }
    ensures { OnOk result (out.new.items ≡ out.old.items ++ counts_text (counts c.now) many) }
{
    if many == 0 {
        return Ok(());
    }
    put_counts(out, many - 1, c)?;
    put_numbered(out, b" ", c.blue[many as usize - 1] as u64)
}

/// Appends the line of a cut: the blue counts of so many sites, 1 to 8, and the number of reds.
#[tactic(auto, using(crate::proofs::AppendLaws::appends))]
pub fn put_cut(out: &mut Vec<u8>, sites: u8, c: &Cut) -> Result<(), NoMemory>
    requires from { 1 ≤ sites }
    requires to { sites ≤ 8 }
    ensures { OnOk result (out.new.items ≡ out.old.items ++ cut_line sites (counts c.now)) }
{
    put_bytes(out, b"cut")?;
    put_counts(out, sites, c)?;
    put_number_line(out, b" reds ", c.reds as u64)
}

/// Appends the line of what came of sending a session to a site.
#[tactic(auto, using(crate::proofs::AppendLaws::appends))]
pub fn put_gone(out: &mut Vec<u8>, session: u16, site: Site, g: &Gone) -> Result<(), NoMemory>
    ensures { OnOk result (out.new.items ≡ out.old.items ++ gone_line session site g.now) }
{
    match g {
        Gone::Moved { .. } => {
            put_numbered(out, b"moved ", session as u64)?;
            put_number_line(out, b" ", site.number() as u64)
        }
        Gone::Waiting { index } => put_number_line(out, b"waiting ", *index as u64),
    }
}
