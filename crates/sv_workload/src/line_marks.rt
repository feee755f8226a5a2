ghost use Rattle.std.specs.Prelude.{◌≡◌, IfOk};
ghost use Rattle.sv_app.specs.declared.refusals.Code.TheVariants.{BadStep};
ghost use Rattle.sv_app.specs.Schema.{schema_of};
ghost use Rattle.sv_app.specs.Trees.{transactions_of};
ghost use Rattle.sv_workload.specs.LineReading.{is_full, most_number, most_packet, sent_mark, packet_mark, table_mark, asked_mark, tail_mark, number_mark, line_mark};
ghost use Rattle.sv_workload.specs.Reading.{out_mark, count_at, from_read};

use crate::call_marks::call_mark;
use crate::lines::{Steps, color_of, verb_of};
use crate::rows::table_place;
use crate::settings::out_mark;
use crate::values::natural_of;
use crate::written::{Color, Verb};
use std::alloc::Global;
use sv_app::limits::{MOST_REQUESTS, MOST_SESSIONS, MOST_SHOWS, MOST_STEPS};
use sv_app::{App, Code, Table, Txn};
use sv_lex::Token;
use sv_reader::{ReadFault, Reader, name_of};
use sv_value::NoMemory;

/// The greatest number of a packet.
const MOST_PACKET: u64 = 4_294_967_295;

/// Whether no step of this kind may stand behind these.
fn is_full(steps: &Steps, verb: Verb) -> bool
    ensures { result ≡ is_full steps.now verb }
{
    if steps.steps.len() >= MOST_STEPS {
        return true;
    }
    match verb {
        Verb::Ask => steps.asks >= MOST_REQUESTS,
        Verb::Show => steps.shows >= MOST_SHOWS,
        _ => false,
    }
}

fn most_number(sites: u64, verb: Verb) -> u64
    ensures { result ≡ most_number sites verb }
{
    match verb {
        Verb::Ask | Verb::Order | Verb::Move => MOST_SESSIONS as u64,
        _ => sites,
    }
}

/// The fault of the last number of a packet, behind another number.
fn seq_mark(tokens: &[Token]) -> Option<ReadFault>
    ensures { result ≡ from_read (count_at tokens.now) (λ r. out_mark BadStep 0 most_packet r) }
{
    match tokens {
        [token, rest @ ..] if natural_of(token).is_some() => {
            out_mark(Code::BadStep, 0, MOST_PACKET, rest)
        }
        _ => None,
    }
}

/// What is refused behind the first word of a packet.
fn sent_mark(sites: u64, color: Option<Color>, tokens: &[Token]) -> Option<ReadFault>
    ensures { result ≡ sent_mark sites color tokens.now }
{
    match color {
        Some(Color::Blue) => match out_mark(Code::BadStep, 1, sites, tokens) {
            Some(fault) => Some(fault),
            None => seq_mark(tokens),
        },
        Some(Color::Red) => out_mark(Code::BadStep, 0, MOST_PACKET, tokens),
        None => None,
    }
}

/// What is refused of a packet that begins here.
fn packet_mark(sites: u64, tokens: &[Token]) -> Option<ReadFault>
    ensures { result ≡ packet_mark sites tokens.now }
{
    match tokens {
        [token, rest @ ..] => sent_mark(sites, color_of(token), rest),
        [] => None,
    }
}

/// The fault of the name of a table that isn't there.
fn table_mark(tables: &[Table], tokens: &[Token]) -> Option<ReadFault>
    ensures { result ≡ table_mark (schema_of tables.now) tokens.now }
{
    match tokens {
        [token, ..] => match name_of(token) {
            Some(name) => match table_place(tables, &name) {
                Some(_) => None,
                None => Some(ReadFault {
                    code: Code::Unknown,
                    left: tokens.len(),
                }),
            },
            None => None,
        },
        [] => None,
    }
}

/// What is refused of a call, if one begins here.
fn asked_mark(alloc: Global, txns: &[Txn], tokens: &[Token]) -> Result<Option<ReadFault>, NoMemory>
    ensures { IfOk result (λ mark. mark ≡ asked_mark (transactions_of txns.now) tokens.now) }
{
    let reader = Reader { rest: tokens };
    if reader.is_name() {
        return call_mark(alloc, txns, tokens);
    }
    Ok(None)
}

/// What is refused behind the number of a step.
fn tail_mark(
    alloc: Global,
    app: &App,
    sites: u64,
    verb: Verb,
    tokens: &[Token],
) -> Result<Option<ReadFault>, NoMemory>
    ensures { IfOk result (λ mark. mark ≡ tail_mark (schema_of app.now.tables.items) (transactions_of app.now.txns.items) sites verb tokens.now) }
{
    match verb {
        Verb::Ask => asked_mark(alloc, &app.txns, tokens),
        Verb::Deliver => Ok(packet_mark(sites, tokens)),
        Verb::Show => Ok(table_mark(&app.tables, tokens)),
        Verb::Move => Ok(out_mark(Code::BadStep, 1, sites, tokens)),
        _ => Ok(None),
    }
}

/// What is refused behind the first word of a step.
fn number_mark(
    alloc: Global,
    app: &App,
    sites: u64,
    verb: Verb,
    tokens: &[Token],
) -> Result<Option<ReadFault>, NoMemory>
    ensures { IfOk result (λ mark. mark ≡ number_mark (schema_of app.now.tables.items) (transactions_of app.now.txns.items) sites verb tokens.now) }
{
    if let Some(fault) = out_mark(Code::BadStep, 1, most_number(sites, verb), tokens) {
        return Ok(Some(fault));
    }
    match tokens {
        [token, rest @ ..] if natural_of(token).is_some() => {
            tail_mark(alloc, app, sites, verb, rest)
        }
        _ => Ok(None),
    }
}

/// What is refused of the step that begins here behind these, for so many sites, besides the grammar.
pub fn line_mark(
    alloc: Global,
    app: &App,
    sites: u64,
    steps: &Steps,
    tokens: &[Token],
) -> Result<Option<ReadFault>, NoMemory>
    ensures { IfOk result (λ mark. mark ≡ line_mark (schema_of app.now.tables.items) (transactions_of app.now.txns.items) sites steps.now tokens.now) }
{
    let [token, others @ ..] = tokens else {
        return Ok(None);
    };
    let Some(verb) = verb_of(token) else {
        return Ok(None);
    };
    if is_full(steps, verb) {
        return Ok(Some(ReadFault {
            code: Code::Many,
            left: tokens.len(),
        }));
    }
    number_mark(alloc, app, sites, verb, others)
}
