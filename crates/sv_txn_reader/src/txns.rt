ghost use Rattle.std.specs.Prelude.{◌≡◌, true};
ghost use Rattle.sv_app.specs.Trees.{transaction_of, transactions_of};
ghost use Rattle.sv_reader.specs.Reading.{Reads, by_word, token_at, is_next, turns_at, keep};
ghost use Rattle.sv_txn_reader.specs.Reading.{type_named, param_at, item_step, item_turn, list_of, params_at, block_at, txn_at, begins_txn, txn_step, txns_at};

use crate::blocks::block;
use crate::counts::Counts;
use std::alloc::Global;
use sv_app::limits::{MOST_BLOCKS, MOST_PARAMS, MOST_TXNS};
use sv_app::{Ident, Txn, Ty};
use sv_lex::{Mark, Token, TokenKind};
use sv_reader::{ReadStop, Reader};

fn type_named(word: &[u8]) -> Option<Ty>
    ensures { result ≡ type_named word.now }
{
    if word == b"int".as_slice() {
        Some(Ty::Int)
    } else if word == b"text".as_slice() {
        Some(Ty::Text)
    } else if word == b"ints".as_slice() {
        Some(Ty::Ints)
    } else {
        None
    }
}

fn type_of(token: &Token) -> Option<Ty>
    ensures { result ≡ by_word type_named token.now.kind }
{
    match &token.kind {
        TokenKind::Name(name) => type_named(name.bytes()),
        _ => None,
    }
}

fn type_word(reader: &mut Reader<'_>) -> Result<Ty, ReadStop>
    ensures { Reads (λ ty. ty) result reader.new.rest.now (token_at (λ token. by_word type_named token.kind) reader.old.rest.now) }
{
    if let [token, rest @ ..] = reader.rest {
        if let Some(ty) = type_of(token) {
            reader.rest = rest;
            return Ok(ty);
        }
    }
    Err(ReadStop::Faulty(reader.misplaced()))
}

/// Reads one more parameter, if there is room for it.
#[tactic(auto, unfolding(crate::specs::Reading::item_step, crate::specs::Reading::param_at))]
fn add_param(reader: &mut Reader<'_>, params: &mut Vec<(Ident, Ty)>) -> Result<(), ReadStop>
    ensures { Reads (λ _. params.new.items) result reader.new.rest.now (item_step param_at params.old.items reader.old.rest.now) }
{
    if reader.is_name() && params.len() >= MOST_PARAMS {
        return Err(ReadStop::Faulty(reader.too_many()));
    }
    let name = reader.name()?;
    reader.mark(Mark::Colon)?;
    let ty = type_word(reader)?;
    params.push((name, ty))?;
    Ok(())
}

#[tactic(auto, unfolding(crate::specs::Reading::item_turn))]
fn more_params(reader: &mut Reader<'_>, params: &mut Vec<(Ident, Ty)>) -> Result<(), ReadStop>
    ensures { Reads (λ _. params.new.items) result reader.new.rest.now (item_turn param_at params.old.items reader.old.rest.now) }
{
    reader.mark(Mark::Comma)?;
    add_param(reader, params)
}

/// Reads parameters between commas, at least one.
#[tactic(auto, unfolding(crate::specs::Reading::list_of), using(crate::proofs::TxnLaws::all_params))]
fn some_params(alloc: Global, reader: &mut Reader<'_>) -> Result<Vec<(Ident, Ty)>, ReadStop>
    ensures { Reads (λ params. params.items) result reader.new.rest.now (list_of param_at reader.old.rest.now) }
{
    let mut params = Vec::new(alloc);
    add_param(reader, &mut params)?;
    while reader.is_mark(Mark::Comma) {
        more_params(reader, &mut params)?;
    }
    Ok(params)
}

/// Reads the parameters of a transaction, if there are any.
#[tactic(auto, unfolding(crate::specs::Reading::params_at))]
fn params(alloc: Global, reader: &mut Reader<'_>) -> Result<Vec<(Ident, Ty)>, ReadStop>
    ensures { Reads (λ params. params.items) result reader.new.rest.now (params_at reader.old.rest.now) }
{
    if reader.is_mark(Mark::RightParen) {
        return Ok(Vec::new(alloc));
    }
    some_params(alloc, reader)
}

/// Reads a transaction.
#[tactic(auto, unfolding(crate::specs::Reading::txn_at))]
fn txn(alloc: Global, reader: &mut Reader<'_>) -> Result<Txn, ReadStop>
    ensures { Reads transaction_of result reader.new.rest.now (txn_at reader.old.rest.now) }
{
    reader.word(b"txn")?;
    let name = reader.name()?;
    reader.mark(Mark::LeftParen)?;
    let params = params(alloc, reader)?;
    reader.mark(Mark::RightParen)?;
    let mut counts = Counts {
        statements: 0,
        loops: 0,
        variables: 0,
    };
    let body = block(alloc, reader, &mut counts, false, MOST_BLOCKS)?;
    Ok(Txn { name, params, body })
}

/// Whether a transaction begins here.
fn begins_txn(reader: &Reader<'_>) -> bool
    ensures { result ≡ begins_txn reader.now.rest.now }
{
    reader.is_word(b"txn")
}

/// Reads a transaction that begins here, if there is room for one more.
#[tactic(auto, unfolding(crate::specs::Reading::txn_step))]
fn add_txn(alloc: Global, reader: &mut Reader<'_>, txns: &mut Vec<Txn>) -> Result<(), ReadStop>
    requires { begins_txn reader.old.rest.now ≡ true }
    ensures { Reads (λ _. transactions_of txns.new.items) result reader.new.rest.now (txn_step (transactions_of txns.old.items) reader.old.rest.now) }
{
    if txns.len() >= MOST_TXNS {
        return Err(ReadStop::Faulty(reader.too_many()));
    }
    let txn = txn(alloc, reader)?;
    txns.push(txn)?;
    Ok(())
}

/// Reads the transactions that stand here.
#[tactic(auto, unfolding(crate::specs::Reading::txns_at), using(crate::proofs::TxnLaws::all_txns))]
pub fn txns(alloc: Global, reader: &mut Reader<'_>) -> Result<Vec<Txn>, ReadStop>
    ensures { Reads (λ txns. transactions_of txns.items) result reader.new.rest.now (txns_at reader.old.rest.now) }
{
    let mut txns = Vec::new(alloc);
    while begins_txn(reader) {
        add_txn(alloc, reader, &mut txns)?;
    }
    Ok(txns)
}
