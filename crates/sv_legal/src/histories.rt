//! Whether a whole history is legal: its entries are looked at from the oldest on.

ghost use Rattle.std.specs.Prelude.{◌≡◌, ◌↔◌, ◌∷◌, map, length, reverse, IsTrue, IsSome, IfSome, IfOk};
ghost use Rattle.sv_core.specs.Document.{document_of};
ghost use Rattle.sv_core.specs.Legal.{IsNext, Legal};
ghost use Rattle.sv_core.specs.Sound.{Sound, SoundDoc};
ghost use Rattle.sv_listing.specs.Right.{Right};
ghost use Rattle.sv_legal.specs.Told.{Told};

use crate::answers::Finding;
use crate::befores::Before;
use crate::lists::{empty_lists, publish};
use std::alloc::Global;
use sv_core::{Doc, Entry};
use sv_effect::Op;
use sv_value::NoMemory;

/// Whether the entry may come next; what it publishes is then in its list.
fn step(
    alloc: Global,
    doc: &Doc,
    history: &[Entry],
    entry: &Entry,
    lists: &mut Vec<Vec<Op>>,
) -> Result<bool, NoMemory>
    requires told { Told (document_of doc.now) (reverse history.now) (map (λ ops. ops.items) lists.old.items) }
    requires ruled { Right (document_of doc.now).schema (document_of doc.now).txns doc.now.dict }
    ensures next { IfOk result (λ yes. IsTrue yes ↔ IsNext (document_of doc.now) (reverse history.now) entry.now) }
    ensures told { IfOk result (λ yes. IsTrue yes → Told (document_of doc.now) (entry.now ∷ reverse history.now) (map (λ ops. ops.items) lists.new.items)) }
{
    let before = Before {
        doc,
        history,
        published: lists.as_slice(),
    };
    match before.finding(alloc, entry)? {
        Finding::Illegal => Ok(false),
        Finding::Silent => Ok(true),
        Finding::Publishes { packet, op } => {
            publish(lists, &packet, op)?;
            Ok(true)
        }
    }
}

/// What a legal history, oldest entry first, published: the list of the reds and then that of each site; `None` where it
/// isn't legal.
fn lists_of(alloc: Global, doc: &Doc, history: &[Entry]) -> Result<Option<Vec<Vec<Op>>>, NoMemory>
    requires sound { Sound (document_of doc.now) }
    requires ruled { Right (document_of doc.now).schema (document_of doc.now).txns doc.now.dict }
    ensures legal { IfOk result (λ lists. IsSome lists ↔ Legal (document_of doc.now) (reverse history.now)) }
    ensures told { IfOk result (λ lists. IfSome lists (λ lists. Told (document_of doc.now) (reverse history.now) (map (λ ops. ops.items) lists.items))) }
{
    let mut lists = empty_lists(alloc)?;
    for (at, entry) in history.iter().enumerate() {
        if !step(alloc, doc, &history[..at], entry, &mut lists)? {
            return Ok(None);
        }
    }
    Ok(Some(lists))
}

/// Whether the history, oldest entry first, is a legal one of the document, which is sound with its dictionary: each entry is judged on the tables that
/// the entries before it give, each row of which is computed anew from all their operations. It is slow, and knows no
/// world.
pub fn is_legal(alloc: Global, doc: &Doc, history: &[Entry]) -> Result<bool, NoMemory>
    requires { SoundDoc doc.now }
    ensures { IfOk result (λ yes. IsTrue yes ↔ Legal (document_of doc.now) (reverse history.now)) }
{
    let lists = lists_of(alloc, doc, history)?;
    Ok(lists.is_some())
}
