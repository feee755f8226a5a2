ghost use Rattle.std.specs.Prelude.{◌≡◌, ◌≤◌, ◌||◌, IfOk, ℕ, Some, length};
ghost use Rattle.sv_lex.specs.declared.marks.Mark.TheVariants.{Eq as Equals};
ghost use Rattle.sv_lex.specs.declared.tokens.TokenKind.TheVariants.{Mark as IsMark};
ghost use Rattle.sv_reader.specs.Reading.{Reads, is_kind, token_at};
ghost use Rattle.sv_workload.specs.LastRefused.{least_of, most_of};
ghost use Rattle.sv_workload.specs.Reading.{natural_of, setting_named, setting_of, begins_setting, setting_at, is_out, out_mark, given_of, with_setting, or_else, again_mark, number_mark, setting_mark, setting_from, settings_from, unset, part_named, part_of, head_at, front_from, IsBounded};

use crate::values::{count, natural_of};
use crate::written::{Given, PartHead, Setting};
use sv_app::Code;
use sv_lex::{Mark, Token, TokenKind};
use sv_reader::{ReadFault, ReadStop, Reader};

fn setting_named(word: &[u8]) -> Option<Setting>
    ensures { result ≡ setting_named word.now }
{
    if word == b"sites".as_slice() {
        Some(Setting::Sites)
    } else if word == b"rows".as_slice() {
        Some(Setting::Rows)
    } else if word == b"changes".as_slice() {
        Some(Setting::Changes)
    } else {
        None
    }
}

/// The setting that a token names.
fn setting_of(token: &Token) -> Option<Setting>
    ensures { result ≡ setting_of token.now }
{
    match &token.kind {
        TokenKind::Name(name) => setting_named(name.bytes()),
        _ => None,
    }
}

/// Whether a setting begins here.
fn begins_setting(tokens: &[Token]) -> bool
    ensures { result ≡ begins_setting tokens.now }
{
    match tokens {
        [token, ..] => setting_of(token).is_some(),
        [] => false,
    }
}

/// Reads the word of a setting.
fn setting_word(reader: &mut Reader<'_>) -> Result<Setting, ReadStop>
    ensures { Reads (λ which. which) result reader.new.rest.now (token_at setting_of reader.old.rest.now) }
{
    if let [token, rest @ ..] = reader.rest {
        if let Some(which) = setting_of(token) {
            reader.rest = rest;
            return Ok(which);
        }
    }
    Err(ReadStop::Faulty(reader.misplaced()))
}

/// Reads a setting: what is set, and the number.
#[tactic(auto, unfolding(crate::specs::Reading::setting_at))]
fn setting(reader: &mut Reader<'_>) -> Result<(Setting, u64), ReadStop>
    ensures { Reads (λ set. set) result reader.new.rest.now (setting_at reader.old.rest.now) }
{
    let which = setting_word(reader)?;
    reader.mark(Mark::Eq)?;
    let number = count(reader)?;
    Ok((which, number))
}

/// The least number that may be set, where there are so many initial rows.
fn least_of(rows: usize, which: Setting) -> u64
    ensures { result ≡ least_of rows which }
{
    match which {
        Setting::Sites => 1,
        Setting::Rows => rows.max(1) as u64,
        Setting::Changes => 1,
    }
}

/// The greatest number that may be set.
fn most_of(which: Setting) -> u64
    ensures { result ≡ most_of which }
{
    match which {
        Setting::Sites => 8,
        Setting::Rows => 4_096,
        Setting::Changes => 65_536,
    }
}

/// Whether a token is a number outside these bounds.
fn is_out(least: u64, most: u64, token: &Token) -> bool
    ensures { result ≡ is_out least most (natural_of token.now.kind) }
{
    match natural_of(token) {
        Some(number) => number.unsigned_abs() < least || most < number.unsigned_abs(),
        None => false,
    }
}

/// The fault of a number that stands here outside these bounds.
pub fn out_mark(code: Code, least: u64, most: u64, tokens: &[Token]) -> Option<ReadFault>
    ensures { result ≡ out_mark code least most tokens.now }
{
    match tokens {
        [token, ..] if is_out(least, most, token) => Some(ReadFault {
            code,
            left: tokens.len(),
        }),
        _ => None,
    }
}

fn given_of(which: Setting, given: &Given) -> Option<u64>
    ensures { result ≡ given_of which given.now }
{
    match which {
        Setting::Sites => given.sites,
        Setting::Rows => given.rows,
        Setting::Changes => given.changes,
    }
}

fn or_number(first: Option<u64>, second: u64) -> Option<u64>
    ensures { result ≡ or_else first (Some second) }
{
    match first {
        Some(number) => Some(number),
        None => Some(second),
    }
}

/// What is set with one setting more.
fn with_setting(given: &Given, which: Setting, number: u64) -> Given
    ensures { result ≡ with_setting given.now (which, number) }
{
    match which {
        Setting::Sites => Given {
            sites: or_number(given.sites, number),
            rows: given.rows,
            changes: given.changes,
        },
        Setting::Rows => Given {
            sites: given.sites,
            rows: or_number(given.rows, number),
            changes: given.changes,
        },
        Setting::Changes => Given {
            sites: given.sites,
            rows: given.rows,
            changes: or_number(given.changes, number),
        },
    }
}

fn is_equals(token: &Token) -> bool
    ensures { result ≡ is_kind (IsMark Equals) token.now.kind }
{
    match &token.kind {
        TokenKind::Mark(mark) => mark.bytes() == Mark::Eq.bytes(),
        _ => false,
    }
}

/// The fault of the number that is set here, if it is outside its bounds.
fn number_mark(rows: usize, which: Setting, tokens: &[Token]) -> Option<ReadFault>
    ensures { result ≡ number_mark rows which tokens.now }
{
    match tokens {
        [_, mark, others @ ..] if is_equals(mark) => {
            out_mark(Code::Many, least_of(rows, which), most_of(which), others)
        }
        _ => None,
    }
}

/// What is refused of the setting that begins here, besides the grammar.
fn setting_mark(rows: usize, given: &Given, tokens: &[Token]) -> Option<ReadFault>
    ensures { result ≡ setting_mark rows given.now tokens.now }
{
    match tokens {
        [token, ..] => match setting_of(token) {
            Some(which) => {
                if given_of(which, given).is_some() {
                    return Some(ReadFault {
                        code: Code::Twice,
                        left: tokens.len(),
                    });
                }
                number_mark(rows, which, tokens)
            }
            None => None,
        },
        [] => None,
    }
}

/// Reads the setting that begins here, where there are so many initial rows and this is set already.
#[tactic(auto, unfolding(crate::specs::Reading::setting_from), using(crate::proofs::SettingLaws::bounds))]
fn next_setting(
    reader: &mut Reader<'_>,
    rows: usize,
    given: &Given,
) -> Result<(Setting, u64), ReadStop>
    ensures read { Reads (λ set. set) result reader.new.rest.now (setting_from rows given.now reader.old.rest.now) }
    ensures bounded { IfOk result (λ set. set.1 ≤ most_of set.0) }
{
    match setting_mark(rows, given, reader.rest) {
        Some(fault) => Err(ReadStop::Faulty(fault)),
        None => setting(reader),
    }
}

/// Reads all settings that stand here.
#[tactic(auto, using(crate::proofs::TurnLaws::settings, crate::proofs::SettingLaws::bounds))]
fn settings(reader: &mut Reader<'_>, rows: usize) -> Result<Given, ReadStop>
    ensures read { Reads (λ given. given) result reader.new.rest.now (settings_from rows unset reader.old.rest.now) }
    ensures bounded { IfOk result (λ given. IsBounded given) }
{
    let mut given = Given {
        sites: None,
        rows: None,
        changes: None,
    };
    while begins_setting(reader.rest) {
        let set = next_setting(reader, rows, &given)?;
        given = with_setting(&given, set.0, set.1);
    }
    Ok(given)
}

/// The head that a token names.
fn part_of(token: &Token) -> Option<PartHead>
    ensures { result ≡ part_of token.now }
{
    match &token.kind {
        TokenKind::Name(name) => {
            if name.bytes() == b"replay".as_slice() {
                Some(PartHead::Replay)
            } else if name.bytes() == b"run".as_slice() {
                Some(PartHead::Run)
            } else {
                None
            }
        }
        _ => None,
    }
}

fn head_word(reader: &mut Reader<'_>) -> Result<PartHead, ReadStop>
    ensures { Reads (λ head. head) result reader.new.rest.now (token_at part_of reader.old.rest.now) }
{
    if let [token, rest @ ..] = reader.rest {
        if let Some(head) = part_of(token) {
            reader.rest = rest;
            return Ok(head);
        }
    }
    Err(ReadStop::Faulty(reader.misplaced()))
}

/// Reads the head of a last part.
#[tactic(auto, unfolding(crate::specs::Reading::head_at))]
fn head(reader: &mut Reader<'_>) -> Result<PartHead, ReadStop>
    ensures { Reads (λ head. head) result reader.new.rest.now (head_at reader.old.rest.now) }
{
    reader.mark(Mark::Percents)?;
    let head = head_word(reader)?;
    Ok(head)
}

/// Reads the head of a last part and its settings, among which the number of sites must be.
#[tactic(auto, unfolding(crate::specs::Reading::front_from))]
pub fn front(reader: &mut Reader<'_>, rows: usize) -> Result<(PartHead, Given), ReadStop>
    ensures read { Reads (λ front. front) result reader.new.rest.now (front_from rows reader.old.rest.now) }
    ensures bounded { IfOk result (λ front. IsBounded front.1) }
{
    let head = head(reader)?;
    let given = settings(reader, rows)?;
    if given.sites.is_none() {
        return Err(ReadStop::Faulty(reader.misplaced()));
    }
    Ok((head, given))
}
