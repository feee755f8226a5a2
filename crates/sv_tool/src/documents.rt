//! Reads a document: its tables, its transactions, and what stands behind them, or why it is refused.

ghost use Rattle.std.specs.Prelude.{◌≡◌, ◌≤◌, Err, IfOk, MatchOption, length, drop};
ghost use Rattle.sv_io.specs.Flows.{most_bytes};
ghost use Rattle.sv_app.specs.declared.refusals.Refusal.{Refusal as RefusalValue};
ghost use Rattle.sv_app.specs.declared.refusals.Stop.TheVariants.{Refused, NoMemory as Ends};
ghost use Rattle.sv_app.specs.Conditions.{KeepsGrammar, KeepsLimits, AreNumbered};
ghost use Rattle.sv_app.specs.Schema.{schema_of};
ghost use Rattle.sv_app.specs.Trees.{transactions_of};
ghost use Rattle.sv_app.specs.TxnConditions.{KeepsTxnGrammar, KeepsTxnLimits};
ghost use Rattle.sv_lex.specs.Lexers.{fault_of};
ghost use Rattle.sv_lex.specs.Spots.{spot_at};
ghost use Rattle.sv_lex.specs.Standing.{place_of};
ghost use Rattle.sv_tool.specs.Documents.{AreWhole, IsLater, IsRefusalBehind, IsRefusal, IsRefusedAt, code_of};
ghost use Rattle.sv_tool.specs.ReadDocument.{IsAppOf, IsBehind, IsFit, IsOfBytes, IsOfTokens};

use std::alloc::Global;
use sv_app::{App, Code, Refusal, Stop, Table, Txn};
use sv_dict::compile;
use sv_label::Dictionary;
use sv_lex::{LexStop, Token, TokenKind, lex, spot_of};
use sv_schema_reader::read_schema;
use sv_txn_reader::read_txns;
use sv_typing::accept;
use sv_value::Spot;
use sv_workload::{Parts, read_parts};

/// A document that is accepted: its application with its dictionary, and what stands behind its transactions.
#[derive(Drop)]
pub struct Checked {
    pub app: App,
    pub dict: Dictionary,
    pub parts: Parts,
}

/// The application of tables and transactions that were read, where the tokens from the place on are its parts.
fn accept_read(
    alloc: Global,
    tables: Vec<Table>,
    txns: Vec<Txn>,
    tokens: &[Token],
    end: Spot,
    at: usize,
) -> Result<Checked, Stop>
    requires place { at ≤ length tokens.now }
    requires grammar { KeepsGrammar (schema_of tables.items) }
    requires limits { KeepsLimits (schema_of tables.items) }
    requires invariants { AreNumbered (schema_of tables.items) }
    requires txn_grammar { KeepsTxnGrammar (transactions_of txns.items) }
    requires txn_limits { KeepsTxnLimits (transactions_of txns.items) }
    ensures whole { IfOk result (λ checked. AreWhole (schema_of tables.items) (transactions_of txns.items) (drop at tokens.now) checked.parts) }
    ensures of { IfOk result (λ checked. IsAppOf (schema_of tables.items) (transactions_of txns.items) checked.app) }
    ensures fit { IfOk result IsFit }
    ensures refused { (refusal : RefusalValue) → result ≡ Err (Refused refusal) → IsLater (schema_of tables.items) (transactions_of txns.items) (drop at tokens.now) end refusal }
{
    match accept(alloc, tables, txns) {
        Ok(app) => match compile(alloc, &app) {
            Ok(dict) => match read_parts(alloc, &app, tokens, end, at) {
                Ok(parts) => Ok(Checked { app, dict, parts }),
                Err(stop) => Err(stop),
            },
            Err(stop) => Err(stop),
        },
        Err(stop) => Err(stop),
    }
}

/// The application of these tables and the tokens from the place on, which must be transactions and parts, up to the
/// end of the document.
fn check_behind(
    alloc: Global,
    tables: Vec<Table>,
    tokens: &[Token],
    end: Spot,
    at: usize,
) -> Result<Checked, Stop>
    requires place { at ≤ length tokens.now }
    requires grammar { KeepsGrammar (schema_of tables.items) }
    requires limits { KeepsLimits (schema_of tables.items) }
    requires invariants { AreNumbered (schema_of tables.items) }
    ensures accepted { IfOk result (IsBehind (schema_of tables.items) (drop at tokens.now)) }
    ensures fit { IfOk result IsFit }
    ensures refused { (refusal : RefusalValue) → result ≡ Err (Refused refusal) → IsRefusalBehind (schema_of tables.items) (drop at tokens.now) end refusal }
{
    match read_txns(alloc, tokens, end, at) {
        Ok((txns, behind)) => accept_read(alloc, tables, txns, tokens, end, behind),
        Err(stop) => Err(stop),
    }
}

/// The application of these tokens, which must be tables, transactions and parts, up to the end of the document.
fn check_tokens(alloc: Global, tokens: &[Token], end: Spot) -> Result<Checked, Stop>
    ensures accepted { IfOk result (IsOfTokens tokens.now) }
    ensures fit { IfOk result IsFit }
    ensures refused { (refusal : RefusalValue) → result ≡ Err (Refused refusal) → IsRefusal tokens.now end refusal }
{
    match read_schema(alloc, tokens, end, 0) {
        Ok((tables, at)) => check_behind(alloc, tables, tokens, end, at),
        Err(stop) => Err(stop),
    }
}

/// Where a fault of tokens stands.
#[tactic(auto, using(crate::proofs::DocumentLaws::spot_past_end))]
fn fault_spot(bytes: &[u8], at: u32) -> Spot
    requires { length bytes.now ≤ most_bytes }
    ensures { result ≡ spot_at bytes.now at }
{
    if (at as usize) < bytes.len() {
        spot_of(bytes, at)
    } else {
        spot_of(bytes, bytes.len() as u32)
    }
}

/// The refusal of a fault of tokens.
fn fault_stop(bytes: &[u8], at: u32, code: Code) -> Stop
    requires { length bytes.now ≤ most_bytes }
    ensures { result ≡ Refused (record { spot = spot_at bytes.now at; code = code }) }
{
    Stop::Refused(Refusal {
        spot: fault_spot(bytes, at),
        code,
    })
}

/// Why the lexer stopped, as a refusal at its place.
fn stop_of(bytes: &[u8], stop: LexStop) -> Stop
    requires { length bytes.now ≤ most_bytes }
    ensures { MatchOption (fault_of stop) (result ≡ Ends) (λ fault. result ≡ Refused (record { spot = spot_at bytes.now (place_of fault); code = code_of fault })) }
{
    match stop {
        LexStop::BadByte { at } => fault_stop(bytes, at, Code::Syntax),
        LexStop::LongNumber { at } => fault_stop(bytes, at, Code::Many),
        LexStop::LongText { at } => fault_stop(bytes, at, Code::Many),
        LexStop::LongName { at } => fault_stop(bytes, at, Code::Many),
        LexStop::NoMemory => Stop::NoMemory,
    }
}

/// Reads a document of at most 1,048,576 bytes.
///
/// # Errors
///
/// `Refused` with the first refusal, and `NoMemory`.
#[tactic(auto, using(crate::proofs::DocumentLaws::documents))]
pub fn read_document(alloc: Global, bytes: &[u8]) -> Result<Checked, Stop>
    requires { length bytes.now ≤ most_bytes }
    ensures accepted { IfOk result (IsOfBytes bytes.now) }
    ensures fit { IfOk result IsFit }
    ensures refused { (refusal : RefusalValue) → result ≡ Err (Refused refusal) → IsRefusedAt bytes.now refusal }
{
    let _kind: Option<TokenKind> = None;
    match lex(alloc, bytes) {
        Ok(tokens) => check_tokens(alloc, &tokens, spot_of(bytes, bytes.len() as u32)),
        Err(stop) => Err(stop_of(bytes, stop)),
    }
}
