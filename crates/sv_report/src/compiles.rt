//! What `compile` prints of a dictionary.

ghost use Rattle.std.specs.Prelude.{◌≡◌, ◌<◌, ◌≤◌, ◌++◌, OnOk, IfOk, IsTrue, codes, drop, length, map, slice_get};
ghost use Rattle.std.specs.Fmt.{decimal};
ghost use Rattle.std.specs.List.{flat_map};
ghost use Rattle.std.specs.Option.{option_map};
ghost use Rattle.sv_app.specs.Trees.{transactions_of};
ghost use Rattle.sv_linear.specs.Codes.{atom_of, dropped_of, kept_of, left_of, test_of};
ghost use Rattle.sv_label.specs.Groups.{group_at};
ghost use Rattle.sv_report.specs.CompileText.{atom_line, choice_text, choices_text, class_of, compile_text, dropped_line, end_line, first_term, group_lines, here, later, left_lines, lines_from, never_lines, next_term, path_lines, terms_text, test_text, times_text, total_in, total_of, txn_name};
ghost use Rattle.sv_report.specs.Counting.{counting, is_here};

use crate::texts::{put_bytes, put_numbered, put_reason};
use itoa::Buffer;
use sv_app::App;
use sv_label::Dictionary;
use sv_linear::{Atom, Dropped, KeptAtom, Left, Test};
use sv_value::{NoMemory, put_int};

/// Appends a symbol, and before it how many times it is taken, if that isn't once.
#[tactic(auto, using(crate::proofs::AppendLaws::appends))]
fn put_times(out: &mut Vec<u8>, size: i128, symbol: u8) -> Result<(), NoMemory>
    ensures { OnOk result (out.new.items ≡ out.old.items ++ times_text size symbol) }
{
    if size == 1 {
        return put_numbered(out, b"s", symbol as u64);
    }
    put_int(out, size)?;
    put_bytes(out, b"*")?;
    put_numbered(out, b"s", symbol as u64)
}

/// Appends the first term of a form.
#[tactic(auto, using(crate::proofs::AppendLaws::appends))]
fn put_first(out: &mut Vec<u8>, term: &(u8, i64)) -> Result<(), NoMemory>
    ensures { OnOk result (out.new.items ≡ out.old.items ++ first_term term.now) }
{
    let times = term.1 as i128;
    if times >= 0 {
        return put_times(out, times, term.0);
    }
    put_bytes(out, b"-")?;
    put_times(out, -times, term.0)
}

/// Appends a term behind others.
#[tactic(auto, using(crate::proofs::AppendLaws::appends))]
fn put_next(out: &mut Vec<u8>, term: &(u8, i64)) -> Result<(), NoMemory>
    ensures { OnOk result (out.new.items ≡ out.old.items ++ next_term term.now) }
{
    let times = term.1 as i128;
    if times >= 0 {
        put_bytes(out, b" + ")?;
        return put_times(out, times, term.0);
    }
    put_bytes(out, b" - ")?;
    put_times(out, -times, term.0)
}

/// Appends terms behind others.
#[tactic(auto, using(crate::proofs::AppendLaws::appends))]
fn put_behind(out: &mut Vec<u8>, terms: &[(u8, i64)]) -> Result<(), NoMemory>
    ensures { OnOk result (out.new.items ≡ out.old.items ++ flat_map next_term terms.now) }
{
    match terms {
        [] => Ok(()),
        [term, rest @ ..] => {
            put_next(out, term)?;
            put_behind(out, rest)
        }
    }
}

/// Appends the terms of a form.
#[tactic(auto, using(crate::proofs::AppendLaws::appends))]
fn put_terms(out: &mut Vec<u8>, terms: &[(u8, i64)]) -> Result<(), NoMemory>
    ensures { OnOk result (out.new.items ≡ out.old.items ++ terms_text terms.now) }
{
    match terms {
        [] => Ok(()),
        [term, rest @ ..] => {
            put_first(out, term)?;
            put_behind(out, rest)
        }
    }
}

/// Appends a test, and nothing of one that nothing meets.
#[tactic(auto, using(crate::proofs::AppendLaws::appends))]
fn put_test(out: &mut Vec<u8>, test: &Test) -> Result<(), NoMemory>
    ensures { OnOk result (out.new.items ≡ out.old.items ++ test_text (test_of test.now)) }
{
    match test {
        Test::AtMost { form, most } => {
            put_bytes(out, b" ")?;
            put_terms(out, form.terms.items())?;
            put_bytes(out, b" <= ")?;
            put_int(out, *most)
        }
        Test::InList { sym, inv } => {
            put_numbered(out, b" s", *sym as u64)?;
            put_numbered(out, b" in ", *inv as u64)
        }
        Test::Never => Ok(()),
    }
}

/// Appends the line of an atom, with this word before it.
#[tactic(auto, using(crate::proofs::AppendLaws::appends))]
fn put_atom(out: &mut Vec<u8>, word: &[u8], atom: &Atom) -> Result<(), NoMemory>
    ensures { OnOk result (out.new.items ≡ out.old.items ++ atom_line word.now (atom_of atom.now)) }
{
    put_bytes(out, b" ")?;
    put_bytes(out, word)?;
    put_numbered(out, b" ", atom.place as u64)?;
    put_bytes(out, b" ")?;
    put_reason(out, &atom.reason)?;
    put_test(out, &atom.test)?;
    put_bytes(out, b"\n")
}

/// Appends the line of the atom that nothing meets, if there is one.
fn put_never(out: &mut Vec<u8>, never: &Option<Atom>) -> Result<(), NoMemory>
    ensures { OnOk result (out.new.items ≡ out.old.items ++ never_lines (option_map atom_of never.now)) }
{
    match never {
        Some(atom) => put_atom(out, b"never", atom),
        None => Ok(()),
    }
}

/// Appends choices, as digits.
#[tactic(auto, using(crate::proofs::AppendLaws::appends))]
fn put_digits(out: &mut Vec<u8>, choices: &[bool]) -> Result<(), NoMemory>
    ensures { OnOk result (out.new.items ≡ out.old.items ++ flat_map choice_text choices.now) }
{
    match choices {
        [] => Ok(()),
        [choice, rest @ ..] => {
            put_bytes(out, if *choice { b"1" } else { b"0" })?;
            put_digits(out, rest)
        }
    }
}

/// Appends the choices of a path.
fn put_choices(out: &mut Vec<u8>, choices: &[bool]) -> Result<(), NoMemory>
    ensures { OnOk result (out.new.items ≡ out.old.items ++ choices_text choices.now) }
{
    match choices {
        [] => put_bytes(out, b"-"),
        [_, ..] => put_digits(out, choices),
    }
}

/// Appends whether a change of the path wants the one order: always, never, or by a test.
fn put_class(out: &mut Vec<u8>, kept: &[KeptAtom], never: &Option<Atom>) -> Result<(), NoMemory>
    ensures { OnOk result (out.new.items ≡ out.old.items ++ class_of (map kept_of kept.now) (option_map atom_of never.now)) }
{
    match kept {
        [] => match never {
            Some(_) => put_bytes(out, b"red"),
            None => put_bytes(out, b"blue"),
        },
        [_, ..] => put_bytes(out, b"test"),
    }
}

/// Whether a dropped atom stands at this place, and behind so many kept ones.
fn stands_at(dropped: &[Dropped], at: usize, n: u64) -> bool
    ensures is { result ≡ is_here n (map dropped_of (drop at dropped.now)) }
    ensures within { IsTrue result → at < length dropped.now }
{
    if at < dropped.len() {
        return dropped[at].after == n;
    }
    false
}

/// Appends the lines of the dropped ones from a place on that stand behind so many kept ones; where those end.
fn put_here(out: &mut Vec<u8>, dropped: &[Dropped], n: u64, from: usize) -> Result<usize, NoMemory>
    ensures lines { OnOk result (out.new.items ≡ out.old.items ++ flat_map dropped_line (here n (map dropped_of (drop from dropped.now)))) }
    ensures rest { IfOk result (λ at. map dropped_of (drop at dropped.now) ≡ later n (map dropped_of (drop from dropped.now))) }
{
    let mut at = from;
    while stands_at(dropped, at, n) {
        put_atom(out, b"drop", &dropped[at].atom)?;
        at += 1;
    }
    Ok(at)
}

/// Appends the lines of the dropped ones from a place on.
fn put_drops(out: &mut Vec<u8>, dropped: &[Dropped], from: usize) -> Result<(), NoMemory>
    ensures { OnOk result (out.new.items ≡ out.old.items ++ flat_map dropped_line (map dropped_of (drop from dropped.now))) }
{
    for at in from..dropped.len() {
        put_atom(out, b"drop", &dropped[at].atom)?;
    }
    Ok(())
}

/// Appends the lines of kept and dropped ones, each dropped one behind as many kept ones as it says.
fn put_listed(out: &mut Vec<u8>, kept: &[KeptAtom], dropped: &[Dropped]) -> Result<(), NoMemory>
    ensures { OnOk result (out.new.items ≡ out.old.items ++ lines_from 0 (map kept_of kept.now) (map dropped_of dropped.now)) }
{
    let mut at = 0;
    for n in 0..kept.len() {
        at = put_here(out, dropped, n as u64, at)?;
        put_atom(out, b"keep", &kept[n].atom)?;
    }
    put_drops(out, dropped, at)
}

/// Appends the lines of what is left of the atoms of a path.
#[tactic(auto, using(crate::proofs::AppendLaws::appends))]
fn put_left(out: &mut Vec<u8>, left: &Left) -> Result<(), NoMemory>
    ensures { OnOk result (out.new.items ≡ out.old.items ++ left_lines (left_of left.now)) }
{
    put_listed(out, left.kept.items(), left.dropped.items())?;
    put_never(out, &left.never)
}

/// Appends the name of the transaction of this number.
#[tactic(auto, using(crate::proofs::PrintedLaws::naming))]
fn put_name(out: &mut Vec<u8>, app: &App, txn: u16) -> Result<(), NoMemory>
    ensures { OnOk result (out.new.items ≡ out.old.items ++ txn_name (slice_get (transactions_of app.now.txns.items) txn)) }
{
    let number = txn as usize;
    if number < app.txns.len() {
        return put_bytes(out, app.txns[number].name.name.bytes());
    }
    Ok(())
}

/// Appends the line of a path, and those of its atoms.
#[tactic(auto, using(crate::proofs::AppendLaws::appends))]
fn put_path(
    out: &mut Vec<u8>,
    app: &App,
    unit: (u16, u16),
    choices: &[bool],
    left: &Left,
) -> Result<(), NoMemory>
    ensures { OnOk result (out.new.items ≡ out.old.items ++ path_lines (txn_name (slice_get (transactions_of app.now.txns.items) unit.0)) unit.1 choices.now (left_of left.now)) }
{
    put_bytes(out, b"path ")?;
    put_name(out, app, unit.0)?;
    put_numbered(out, b" ", unit.1 as u64)?;
    put_bytes(out, b" ")?;
    put_choices(out, choices)?;
    put_bytes(out, b" ")?;
    put_class(out, left.kept.items(), &left.never)?;
    put_bytes(out, b"\n")?;
    put_left(out, left)
}

/// Appends the lines of the paths of a group.
fn put_group(out: &mut Vec<u8>, app: &App, dict: &Dictionary, g: u32) -> Result<(), NoMemory>
    requires { g < length dict.now }
    ensures { OnOk result (out.new.items ≡ out.old.items ++ group_lines (transactions_of app.now.txns.items) (group_at dict.now g)) }
{
    let (txn, unit, count) = dict.group(g);
    for at in 0..count {
        put_path(
            out,
            app,
            (txn, unit),
            dict.choices(g, at),
            &dict.template(g, at).left,
        )?;
    }
    Ok(())
}

/// Which atoms of a path are counted.
pub enum Counted {
    Kept,
    Dropped,
    Never,
}

/// How many atoms of what is left of a path are counted.
fn count_in(left: &Left, what: &Counted) -> u64
    ensures { result ≡ counting what.now (left_of left.now) }
{
    match what {
        Counted::Kept => left.kept.len() as u64,
        Counted::Dropped => left.dropped.len() as u64,
        Counted::Never => match &left.never {
            Some(_) => 1,
            None => 0,
        },
    }
}

/// How many atoms of the paths of a group are counted.
fn total_of(dict: &Dictionary, g: u32, what: &Counted) -> u128
    requires { g < length dict.now }
    ensures is { result ≡ total_of (counting what.now) (group_at dict.now g).templates }
    ensures few { result ≤ 79228162514264337593543950336 }
{
    let (_, _, count) = dict.group(g);
    let mut total = 0;
    for at in 0..count {
        total += count_in(&dict.template(g, at).left, what) as u128;
    }
    total
}

/// How many atoms of all paths are counted.
fn total_in(dict: &Dictionary, what: &Counted) -> u128
    ensures { result ≡ total_in (counting what.now) dict.now }
{
    let mut total = 0;
    for g in 0..dict.groups() {
        total += total_of(dict, g, what);
    }
    total
}

/// Appends a space, and how many atoms of all paths are counted.
#[tactic(auto, using(crate::proofs::AppendLaws::appends))]
fn put_total(out: &mut Vec<u8>, dict: &Dictionary, what: &Counted) -> Result<(), NoMemory>
    ensures { OnOk result (out.new.items ≡ out.old.items ++ codes " " ++ decimal (total_in (counting what.now) dict.now)) }
{
    let mut buffer = Buffer::new();
    put_bytes(out, b" ")?;
    put_bytes(out, buffer.format(total_in(dict, what)).as_bytes())
}

/// Appends the line of the numbers of paths and of atoms.
#[tactic(auto, using(crate::proofs::AppendLaws::appends))]
fn put_end(out: &mut Vec<u8>, dict: &Dictionary) -> Result<(), NoMemory>
    ensures { OnOk result (out.new.items ≡ out.old.items ++ end_line dict.now) }
{
    put_numbered(out, b"end ", dict.entries() as u64)?;
    put_total(out, dict, &Counted::Kept)?;
    put_total(out, dict, &Counted::Dropped)?;
    put_total(out, dict, &Counted::Never)?;
    put_bytes(out, b"\n")
}

/// Appends the lines of the paths of all groups.
fn put_groups(out: &mut Vec<u8>, app: &App, dict: &Dictionary) -> Result<(), NoMemory>
    ensures { OnOk result (out.new.items ≡ out.old.items ++ flat_map (group_lines (transactions_of app.now.txns.items)) dict.now) }
{
    for g in 0..dict.groups() {
        put_group(out, app, dict, g)?;
    }
    Ok(())
}

/// Appends what `compile` prints: for each path of the dictionary its line and a line for each of its atoms, and at the
/// end how many paths and atoms there are.
///
/// # Errors
///
/// `NoMemory`: then a prefix of the text was appended.
#[tactic(auto, using(crate::proofs::AppendLaws::appends))]
pub fn put_compile(out: &mut Vec<u8>, app: &App, dict: &Dictionary) -> Result<(), NoMemory>
    ensures { OnOk result (out.new.items ≡ out.old.items ++ compile_text (transactions_of app.now.txns.items) dict.now) }
{
    put_groups(out, app, dict)?;
    put_end(out, dict)
}
