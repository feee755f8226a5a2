ghost use Rattle.std.specs.Prelude.{◌≡◌, []};
ghost use Rattle.sv_app.specs.Schema.{rule_of};
ghost use Rattle.sv_reader.specs.Reading.{Reads, list_at};
ghost use Rattle.sv_schema_reader.specs.Reading.{text_step, texts_at, compared_at, checked_at, check_body_at, check_at, unique_at, foreign_at, demands, demanded_at};

use crate::checks::{check_of, fixed_side, order, side, side_of};
use crate::parts::Side;
use std::alloc::Global;
use sv_app::limits::MOST_TEXTS;
use sv_app::{Code, Ident, InvBody};
use sv_lex::Mark;
use sv_reader::{ReadFault, ReadStop, Reader};
use sv_value::{Spot, Text};

/// An invariant and the place of its first word.
#[derive(Debug, Drop)]
pub struct Demanded {
    pub spot: Spot,
    pub body: InvBody,
}

/// Reads what stands behind the first side of a check, which begins where `start` tokens were left.
#[tactic(auto, unfolding(crate::specs::Reading::compared_at))]
fn compared(reader: &mut Reader<'_>, start: usize, left: &Side) -> Result<InvBody, ReadStop>
    ensures { Reads rule_of result reader.new.rest.now (compared_at start left.now reader.old.rest.now) }
{
    let by = order(reader)?;
    let right = side(reader)?;
    reader.mark(Mark::RightParen)?;
    match check_of(left, by, &right) {
        Some(check) => Ok(InvBody::Check(check)),
        None => Err(ReadStop::Faulty(ReadFault {
            code: Code::Many,
            left: start,
        })),
    }
}

#[tactic(auto, unfolding(crate::specs::Reading::text_step))]
fn add_text(reader: &mut Reader<'_>, texts: &mut Vec<Text>) -> Result<(), ReadStop>
    ensures { Reads (λ _. texts.new.items) result reader.new.rest.now (text_step texts.old.items reader.old.rest.now) }
{
    if reader.is_text() && texts.len() >= MOST_TEXTS {
        return Err(ReadStop::Faulty(reader.too_many()));
    }
    let text = reader.text()?;
    texts.push(text)?;
    Ok(())
}

/// Reads the texts of a list, up to its parenthesis.
#[tactic(auto, unfolding(sv_reader::specs::Reading::list_at), using(crate::proofs::LoopLaws::texts))]
fn add_texts(reader: &mut Reader<'_>, texts: &mut Vec<Text>) -> Result<(), ReadStop>
    ensures { Reads (λ _. texts.new.items) result reader.new.rest.now (list_at text_step texts.old.items reader.old.rest.now) }
{
    add_text(reader, texts)?;
    while reader.is_mark(Mark::Comma) {
        reader.mark(Mark::Comma)?;
        add_text(reader, texts)?;
    }
    reader.mark(Mark::RightParen)?;
    Ok(())
}

/// Reads what stands behind the column of a list.
#[tactic(auto, unfolding(crate::specs::Reading::texts_at))]
fn texts(alloc: Global, reader: &mut Reader<'_>, col: Ident) -> Result<InvBody, ReadStop>
    ensures { Reads rule_of result reader.new.rest.now (texts_at col reader.old.rest.now) }
{
    reader.word(b"in")?;
    reader.mark(Mark::LeftParen)?;
    let mut texts = Vec::new(alloc);
    add_texts(reader, &mut texts)?;
    reader.mark(Mark::RightParen)?;
    Ok(InvBody::List { col, texts })
}

#[tactic(auto, unfolding(crate::specs::Reading::checked_at))]
fn checked(
    alloc: Global,
    reader: &mut Reader<'_>,
    start: usize,
    col: Ident,
) -> Result<InvBody, ReadStop>
    ensures { Reads rule_of result reader.new.rest.now (checked_at start col reader.old.rest.now) }
{
    if reader.is_word(b"in") {
        return texts(alloc, reader, col);
    }
    let left = side_of(reader, col)?;
    compared(reader, start, &left)
}

#[tactic(auto, unfolding(crate::specs::Reading::check_body_at))]
fn check_body(alloc: Global, reader: &mut Reader<'_>, start: usize) -> Result<InvBody, ReadStop>
    ensures { Reads rule_of result reader.new.rest.now (check_body_at start reader.old.rest.now) }
{
    if reader.is_name() {
        let col = reader.name()?;
        return checked(alloc, reader, start, col);
    }
    let left = fixed_side(reader)?;
    compared(reader, start, &left)
}

#[tactic(auto, unfolding(crate::specs::Reading::check_at))]
fn check(alloc: Global, reader: &mut Reader<'_>) -> Result<Demanded, ReadStop>
    ensures { Reads (λ d. (d.spot, rule_of d.body)) result reader.new.rest.now (check_at reader.old.rest.now) }
{
    let start = reader.rest.len();
    let spot = reader.word(b"check")?;
    reader.mark(Mark::LeftParen)?;
    let body = check_body(alloc, reader, start)?;
    Ok(Demanded { spot, body })
}

#[tactic(auto, unfolding(crate::specs::Reading::unique_at))]
fn unique(reader: &mut Reader<'_>) -> Result<Demanded, ReadStop>
    ensures { Reads (λ d. (d.spot, rule_of d.body)) result reader.new.rest.now (unique_at reader.old.rest.now) }
{
    let spot = reader.word(b"unique")?;
    reader.mark(Mark::LeftParen)?;
    let col = reader.name()?;
    reader.mark(Mark::RightParen)?;
    Ok(Demanded {
        spot,
        body: InvBody::Unique { col },
    })
}

#[tactic(auto, unfolding(crate::specs::Reading::foreign_at))]
fn foreign(reader: &mut Reader<'_>) -> Result<Demanded, ReadStop>
    ensures { Reads (λ d. (d.spot, rule_of d.body)) result reader.new.rest.now (foreign_at reader.old.rest.now) }
{
    let spot = reader.word(b"foreign")?;
    reader.word(b"key")?;
    reader.mark(Mark::LeftParen)?;
    let col = reader.name()?;
    reader.mark(Mark::RightParen)?;
    reader.word(b"references")?;
    let table = reader.name()?;
    reader.mark(Mark::LeftParen)?;
    let target = reader.name()?;
    reader.mark(Mark::RightParen)?;
    Ok(Demanded {
        spot,
        body: InvBody::Refers { col, table, target },
    })
}

/// Whether an invariant begins here.
pub fn demands(reader: &Reader<'_>) -> bool
    ensures { result ≡ demands reader.now.rest.now }
{
    reader.is_word(b"unique") || reader.is_word(b"check") || reader.is_word(b"foreign")
}

/// Reads an invariant.
#[tactic(auto, unfolding(crate::specs::Reading::demanded_at))]
pub fn invariant(alloc: Global, reader: &mut Reader<'_>) -> Result<Demanded, ReadStop>
    ensures { Reads (λ d. (d.spot, rule_of d.body)) result reader.new.rest.now (demanded_at reader.old.rest.now) }
{
    if reader.is_word(b"unique") {
        return unique(reader);
    }
    if reader.is_word(b"check") {
        return check(alloc, reader);
    }
    foreign(reader)
}
