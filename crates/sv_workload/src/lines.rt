ghost use Rattle.std.specs.Prelude.{◌≡◌, ◌≤◌, length};
ghost use Rattle.sv_app.specs.Schema.{schema_of};
ghost use Rattle.sv_app.specs.Trees.{transactions_of};
ghost use Rattle.sv_reader.specs.Reading.{Reads, token_at};
ghost use Rattle.sv_workload.specs.Documents.{packet_of, step_of};
ghost use Rattle.sv_workload.specs.LineReading.{sent_of, line_of, IsSite, IsBoundedPacket, IsBoundedLine};
ghost use Rattle.sv_workload.specs.Reading.{verb_named, verb_of, color_of, packet_tail, packet_at, line_tail, line_at};
ghost use Rattle.sv_workload.specs.Rows.{table_number};

use crate::calls::call;
use crate::parts::Step;
use crate::rows::table_place;
use crate::sessions::request_of;
use crate::values::count;
use crate::written::{Call, Color, Verb};
use std::alloc::Global;
use sv_app::{Ident, Table, Txn};
use sv_lex::{Mark, Token, TokenKind};
use sv_reader::{ReadStop, Reader};
use sv_value::{List, Packet, Site};

/// A packet as it is written, with numbers of any size.
#[derive(Clone, Copy, Debug)]
pub enum PlainPacket {
    Blue { site: u64, seq: u64 },
    Red { slot: u64 },
}

/// A step as it is written, with numbers of any size.
#[derive(Debug, Drop)]
pub enum PlainStep {
    Ask { session: u64, call: Call },
    Order { session: u64 },
    Deliver { site: u64, packet: PlainPacket },
    Settle { site: u64 },
    Catch { site: u64 },
    Show { site: u64, table: Ident },
    ShowCut { site: u64 },
    Move { session: u64, site: u64 },
}

/// Steps that were read, and how many of them ask or show.
#[derive(Debug, Drop)]
pub struct Steps {
    pub steps: List<Step>,
    pub asks: usize,
    pub shows: usize,
}

fn verb_named(word: &[u8]) -> Option<Verb>
    ensures { result ≡ verb_named word.now }
{
    if word == b"ask".as_slice() {
        Some(Verb::Ask)
    } else if word == b"order".as_slice() {
        Some(Verb::Order)
    } else if word == b"deliver".as_slice() {
        Some(Verb::Deliver)
    } else if word == b"settle".as_slice() {
        Some(Verb::Settle)
    } else if word == b"catch".as_slice() {
        Some(Verb::Catch)
    } else if word == b"show".as_slice() {
        Some(Verb::Show)
    } else if word == b"cut".as_slice() {
        Some(Verb::Cut)
    } else if word == b"move".as_slice() {
        Some(Verb::Move)
    } else {
        None
    }
}

/// The step that begins with a token.
pub fn verb_of(token: &Token) -> Option<Verb>
    ensures { result ≡ verb_of token.now }
{
    match &token.kind {
        TokenKind::Name(name) => verb_named(name.bytes()),
        _ => None,
    }
}

fn verb(reader: &mut Reader<'_>) -> Result<Verb, ReadStop>
    ensures { Reads (λ verb. verb) result reader.new.rest.now (token_at verb_of reader.old.rest.now) }
{
    if let [token, rest @ ..] = reader.rest {
        if let Some(verb) = verb_of(token) {
            reader.rest = rest;
            return Ok(verb);
        }
    }
    Err(ReadStop::Faulty(reader.misplaced()))
}

/// The packet that begins with a token.
pub fn color_of(token: &Token) -> Option<Color>
    ensures { result ≡ color_of token.now }
{
    match &token.kind {
        TokenKind::Name(name) => {
            if name.bytes() == b"blue".as_slice() {
                Some(Color::Blue)
            } else if name.bytes() == b"red".as_slice() {
                Some(Color::Red)
            } else {
                None
            }
        }
        _ => None,
    }
}

fn color(reader: &mut Reader<'_>) -> Result<Color, ReadStop>
    ensures { Reads (λ color. color) result reader.new.rest.now (token_at color_of reader.old.rest.now) }
{
    if let [token, rest @ ..] = reader.rest {
        if let Some(color) = color_of(token) {
            reader.rest = rest;
            return Ok(color);
        }
    }
    Err(ReadStop::Faulty(reader.misplaced()))
}

/// Reads the numbers of a packet.
fn packet_tail(reader: &mut Reader<'_>, color: Color) -> Result<PlainPacket, ReadStop>
    ensures { Reads sent_of result reader.new.rest.now (packet_tail color reader.old.rest.now) }
{
    match color {
        Color::Blue => {
            let site = count(reader)?;
            let seq = count(reader)?;
            Ok(PlainPacket::Blue { site, seq })
        }
        Color::Red => {
            let slot = count(reader)?;
            Ok(PlainPacket::Red { slot })
        }
    }
}

/// Reads a packet.
#[tactic(auto, unfolding(crate::specs::Reading::packet_at))]
fn packet(reader: &mut Reader<'_>) -> Result<PlainPacket, ReadStop>
    ensures { Reads sent_of result reader.new.rest.now (packet_at reader.old.rest.now) }
{
    let color = color(reader)?;
    packet_tail(reader, color)
}

/// Reads what stands behind the number of a step.
fn line_tail(
    alloc: Global,
    reader: &mut Reader<'_>,
    verb: Verb,
    number: u64,
) -> Result<PlainStep, ReadStop>
    ensures { Reads line_of result reader.new.rest.now (line_tail verb number reader.old.rest.now) }
{
    let step = match verb {
        Verb::Ask => PlainStep::Ask {
            session: number,
            call: call(alloc, reader)?,
        },
        Verb::Order => PlainStep::Order { session: number },
        Verb::Deliver => PlainStep::Deliver {
            site: number,
            packet: packet(reader)?,
        },
        Verb::Settle => PlainStep::Settle { site: number },
        Verb::Catch => PlainStep::Catch { site: number },
        Verb::Show => PlainStep::Show {
            site: number,
            table: reader.name()?,
        },
        Verb::Cut => PlainStep::ShowCut { site: number },
        Verb::Move => PlainStep::Move {
            session: number,
            site: count(reader)?,
        },
    };
    reader.mark(Mark::Semi)?;
    Ok(step)
}

/// Reads a step.
#[tactic(auto, unfolding(crate::specs::Reading::line_at))]
pub fn line(alloc: Global, reader: &mut Reader<'_>) -> Result<PlainStep, ReadStop>
    ensures { Reads line_of result reader.new.rest.now (line_at reader.old.rest.now) }
{
    let verb = verb(reader)?;
    let number = count(reader)?;
    line_tail(alloc, reader, verb, number)
}

/// The site of this number.
fn site_of(number: u64) -> Site
    requires { IsSite number }
    ensures { result ≡ number }
{
    match Site::new(number as u8) {
        Some(site) => site,
        None => unreachable!(),
    }
}

fn packet_of(packet: PlainPacket) -> Packet
    requires { IsBoundedPacket (sent_of packet) }
    ensures { result ≡ packet_of (sent_of packet) }
{
    match packet {
        PlainPacket::Blue { site, seq } => Packet::Blue {
            site: site_of(site),
            seq: seq as u32,
        },
        PlainPacket::Red { slot } => Packet::Red { slot: slot as u32 },
    }
}

fn table_number(tables: &[Table], name: &Ident) -> u16
    requires few { length tables.now ≤ 16 }
    ensures { result ≡ table_number (schema_of tables.now) name.now }
{
    match table_place(tables, name) {
        Some(place) => place as u16,
        None => 0,
    }
}

/// What a step that is written stands for.
pub fn step_of(tables: &[Table], txns: &[Txn], step: PlainStep) -> Step
    requires tables { length tables.now ≤ 16 }
    requires txns { length txns.now ≤ 32 }
    requires bounded { IsBoundedLine (line_of step) }
    ensures { result ≡ step_of (schema_of tables.now) (transactions_of txns.now) (line_of step) }
{
    match step {
        PlainStep::Ask { session, call } => Step::Ask {
            session: session as u16,
            request: request_of(txns, call),
        },
        PlainStep::Order { session } => Step::Order {
            session: session as u16,
        },
        PlainStep::Deliver { site, packet } => Step::Deliver {
            site: site_of(site),
            packet: packet_of(packet),
        },
        PlainStep::Settle { site } => Step::Settle {
            site: site_of(site),
        },
        PlainStep::Catch { site } => Step::Catch {
            site: site_of(site),
        },
        PlainStep::Show { site, table } => Step::Show {
            site: site_of(site),
            table: table_number(tables, &table),
        },
        PlainStep::ShowCut { site } => Step::ShowCut {
            site: site_of(site),
        },
        PlainStep::Move { session, site } => Step::Move {
            session: session as u16,
            site: site_of(site),
        },
    }
}
