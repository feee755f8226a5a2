//! Which atoms the facts of a path leave, and the certificates of those that are kept and of those that are dropped.
ghost use Rattle.std.specs.Prelude.{All, OnOk, map};
ghost use Rattle.sv_linear.specs.Codes.{atom_of, test_of};
ghost use Rattle.sv_linear.specs.Named.{AreAtoms, AreFacts, IsFact, IsTestOf, TermsName};

use crate::forms::{Terms, form};
use std::alloc::Global;
use std::test::Fail;
use sv_app::Reason;
use sv_bounds::{Diff, MOST_BOUND};
use sv_linear::{Atom, Dropped, KeptAtom, Left, Test};
use sv_simplify::simplify;
use sv_value::List;

/// A test of a path: that a difference, or another sum, is at most a number; that the text of a symbol is listed; or
/// nothing.
#[derive(Clone, Copy, Debug)]
enum Asked {
    Apart(Terms, i128),
    Sum(Terms, i128),
    Listed(u8),
    Never,
}

use Asked::{Apart, Listed, Never, Sum};

/// A row of a system: `x - y` is at most the number.
type Row = (u8, u8, i128);

/// Facts over so many symbols, and the tests of a path. Of these, counted from 1, some are kept; some are dropped behind
/// so many kept ones, each with the row that says that it is false; and one may be the last, which nothing meets.
#[derive(Clone, Copy, Debug)]
struct Case {
    facts: &'static [Row],
    symbols: u8,
    asked: &'static [Asked],
    kept: &'static [u32],
    dropped: &'static [(u32, u64, Row)],
    never: Option<u32>,
}

const CASES: [Case; 12] = [
    // s1 >= 0
    Case {
        facts: &[(0, 1, 0)],
        symbols: 3,
        asked: &[
            Apart(&[(1, -1)], 0),
            Apart(&[(1, -1)], -1),
            Apart(&[(1, 1)], 5),
            Apart(&[(1, -1)], 7),
        ],
        kept: &[2, 3],
        dropped: &[(1, 0, (1, 0, -1)), (4, 2, (1, 0, -8))],
        never: None,
    },
    // s1 - s2 <= 3 and s2 - s3 <= 4 give 7
    Case {
        facts: &[(1, 2, 3), (2, 3, 4)],
        symbols: 3,
        asked: &[
            Apart(&[(1, 1), (3, -1)], 6),
            Apart(&[(1, 1), (3, -1)], 7),
            Apart(&[(1, -1), (3, 1)], 100),
        ],
        kept: &[1, 3],
        dropped: &[(2, 1, (3, 1, -8))],
        never: None,
    },
    // s1 <= 2 and s2 >= -3
    Case {
        facts: &[(1, 0, 2), (0, 2, 3)],
        symbols: 2,
        asked: &[
            Apart(&[(1, 1), (2, -1)], 5),
            Apart(&[(1, 1), (2, -1)], 4),
            Apart(&[(1, 1)], 2),
            Apart(&[(1, 1)], 1),
        ],
        kept: &[2, 4],
        dropped: &[(1, 0, (2, 1, -6)), (3, 1, (0, 1, -3))],
        never: None,
    },
    // s1 = s2
    Case {
        facts: &[(1, 2, 0), (2, 1, 0)],
        symbols: 2,
        asked: &[
            Apart(&[(1, 1), (2, -1)], 0),
            Apart(&[(1, -1), (2, 1)], 0),
            Apart(&[(1, 1), (2, -1)], -1),
        ],
        kept: &[3],
        dropped: &[(1, 0, (2, 1, -1)), (2, 0, (1, 2, -1))],
        never: None,
    },
    // a false comparison of two numbers
    Case {
        facts: &[(0, 0, -1)],
        symbols: 2,
        asked: &[
            Apart(&[(1, 1)], 0),
            Sum(&[(1, 2)], 0),
            Listed(2),
            Apart(&[(1, 1), (2, -1)], -100),
        ],
        kept: &[2, 3],
        dropped: &[(1, 0, (0, 1, -1)), (4, 2, (2, 1, 99))],
        never: None,
    },
    // a true one
    Case {
        facts: &[(0, 0, 1)],
        symbols: 1,
        asked: &[Apart(&[(1, 1)], 0)],
        kept: &[1],
        dropped: &[],
        never: None,
    },
    // s1 <= 0 and s1 >= 1, and a test of another symbol
    Case {
        facts: &[(1, 0, 0), (0, 1, -1)],
        symbols: 2,
        asked: &[Apart(&[(2, 1)], -5)],
        kept: &[],
        dropped: &[(1, 0, (0, 2, 4))],
        never: None,
    },
    // what is no difference is kept, though the facts make it true
    Case {
        facts: &[(1, 0, 0), (2, 0, 0), (0, 3, 0)],
        symbols: 3,
        asked: &[
            Sum(&[(1, 1), (2, 1)], 0),
            Sum(&[(1, 2)], 0),
            Sum(&[(1, 1), (2, 1), (3, -1)], 0),
            Sum(&[(1, 2), (3, -2)], 0),
            Apart(&[(1, 1), (3, -1)], 0),
        ],
        kept: &[1, 2, 3, 4],
        dropped: &[(5, 4, (3, 1, -1))],
        never: None,
    },
    // what stands behind one that nothing meets isn't listed
    Case {
        facts: &[(1, 0, 0)],
        symbols: 1,
        asked: &[
            Apart(&[(1, 1)], 0),
            Apart(&[(1, -1)], 0),
            Never,
            Apart(&[(1, 1)], 0),
            Never,
        ],
        kept: &[2],
        dropped: &[(1, 0, (0, 1, -1))],
        never: Some(3),
    },
    Case {
        facts: &[(0, 0, -1)],
        symbols: 1,
        asked: &[Never, Apart(&[(1, 1)], 0)],
        kept: &[],
        dropped: &[],
        never: Some(1),
    },
    // s1 >= 2^65, beyond 64 bits
    Case {
        facts: &[(0, 1, -36_893_488_147_419_103_232)],
        symbols: 1,
        asked: &[
            Apart(&[(1, -1)], -36_893_488_147_419_103_232),
            Apart(&[(1, 1)], 73_786_976_294_838_206_464),
            Apart(&[(1, -1)], -36_893_488_147_419_103_233),
        ],
        kept: &[2, 3],
        dropped: &[(1, 0, (1, 0, 36_893_488_147_419_103_231))],
        never: None,
    },
    // no facts
    Case {
        facts: &[],
        symbols: 64,
        asked: &[Apart(&[(63, 1), (64, -1)], 9), Apart(&[(64, -1)], -9)],
        kept: &[1, 2],
        dropped: &[],
        never: None,
    },
];

#[tactic(auto, using(crate::proofs::NamedLaws::naming))]
fn check_fact(symbols: u8, fact: &Diff) -> Result<(), Fail>
    ensures { OnOk result (IsFact symbols fact.now) }
{
    if fact.x <= symbols && fact.y <= symbols && -MOST_BOUND < fact.most && fact.most < MOST_BOUND {
        Ok(())
    } else {
        Err(Fail::from("a fact of another system"))
    }
}

fn check_facts(symbols: u8, facts: &[Diff]) -> Result<(), Fail>
    ensures { OnOk result (AreFacts symbols facts.now) }
{
    match facts {
        [] => Ok(()),
        [fact, rest @ ..] => {
            check_fact(symbols, fact)?;
            check_facts(symbols, rest)
        }
    }
}

fn check_terms(symbols: u8, terms: &[(u8, i64)]) -> Result<(), Fail>
    ensures { OnOk result (TermsName symbols terms.now) }
{
    match terms {
        [] => Ok(()),
        [term, rest @ ..] => {
            if term.0 == 0 || term.0 > symbols {
                return Err(Fail::from("a symbol of another path"));
            }
            check_terms(symbols, rest)
        }
    }
}

#[tactic(auto, using(crate::proofs::NamedLaws::naming))]
fn check_test(symbols: u8, test: &Test) -> Result<(), Fail>
    ensures { OnOk result (IsTestOf symbols (test_of test.now)) }
{
    match test {
        Test::AtMost { form, most } => {
            if -MOST_BOUND < *most && *most < MOST_BOUND {
                check_terms(symbols, form.terms.items())
            } else {
                Err(Fail::from("a bound beyond the greatest"))
            }
        }
        Test::InList { sym, .. } => {
            if 1 <= *sym && *sym <= symbols {
                Ok(())
            } else {
                Err(Fail::from("a text of another path"))
            }
        }
        Test::Never => Ok(()),
    }
}

fn check_atoms(symbols: u8, atoms: &[Atom]) -> Result<(), Fail>
    ensures { OnOk result (AreAtoms symbols (map atom_of atoms.now)) }
{
    match atoms {
        [] => Ok(()),
        [atom, rest @ ..] => {
            check_test(symbols, &atom.test)?;
            check_atoms(symbols, rest)
        }
    }
}

fn test_of(alloc: Global, asked: Asked) -> Result<Test, Fail> {
    Ok(match asked {
        Apart(terms, most) | Sum(terms, most) => Test::AtMost {
            form: form(alloc, terms, 0)?,
            most,
        },
        Listed(sym) => Test::InList { sym, inv: 1 },
        Never => Test::Never,
    })
}

/// The tests as atoms, whose places are their numbers.
fn atoms_of(alloc: Global, asked: &[Asked]) -> Result<Vec<Atom>, Fail> {
    let mut atoms = Vec::new(alloc);
    let mut place: u32 = 0;
    for one in asked {
        place = place.saturating_add(1);
        atoms.push(Atom {
            place,
            reason: Reason::Check(1),
            test: test_of(alloc, *one)?,
        })?;
    }
    Ok(atoms)
}

fn fact_of(row: Row) -> Diff {
    Diff {
        x: row.0,
        y: row.1,
        most: row.2,
    }
}

fn facts_of(alloc: Global, rows: &[Row]) -> Result<Vec<Diff>, Fail> {
    let mut facts = Vec::new(alloc);
    for row in rows {
        facts.push(fact_of(*row))?;
    }
    Ok(facts)
}

fn left_of(alloc: Global, case: &Case) -> Result<Left, Fail> {
    let facts = facts_of(alloc, case.facts)?;
    let atoms = atoms_of(alloc, case.asked)?;
    if case.symbols > 64 || facts.len() > 4_095 {
        return Err(Fail::from("a large path"));
    }
    check_facts(case.symbols, &facts)?;
    check_atoms(case.symbols, &atoms)?;
    Ok(simplify(alloc, &facts, case.symbols, List::from_vec(atoms))?)
}

fn sum(values: &[i128], terms: &[(u8, i64)]) -> Option<i128> {
    let mut sum: i128 = 0;
    for (k, by) in terms {
        let value = values.get(*k as usize)?;
        sum = sum.checked_add(value.checked_mul(*by as i128)?)?;
    }
    Some(sum)
}

fn is_met(values: &[i128], fact: &Row) -> bool {
    match (values.get(fact.0 as usize), values.get(fact.1 as usize)) {
        (Some(x), Some(y)) => x.checked_sub(*y).is_some_and(|d| d <= fact.2),
        _ => false,
    }
}

/// Whether these are values of zero and the symbols that meet the facts and make the test false.
fn is_shown(case: &Case, terms: &[(u8, i64)], most: i128, values: &[i128]) -> bool {
    values.len() == case.symbols as usize + 1
        && values.first() == Some(&0)
        && case.facts.iter().all(|fact| is_met(values, fact))
        && sum(values, terms).is_some_and(|sum| sum > most)
}

/// The fact with this number, or the row behind all.
fn row_at(facts: &[Row], last: Row, number: u32) -> Option<Row> {
    if number as usize == facts.len() {
        Some(last)
    } else {
        facts.get(number as usize).copied()
    }
}

/// Where these rows lead from `x`, and what their bounds add up to with the sum so far.
fn chained(facts: &[Row], last: Row, chain: &[u32], x: u8, sum: i128) -> Option<(u8, i128)> {
    match chain {
        [] => Some((x, sum)),
        [number, rest @ ..] => {
            let row = row_at(facts, last, *number)?;
            if row.0 != x {
                return None;
            }
            chained(facts, last, rest, row.1, sum.checked_add(row.2)?)
        }
    }
}

/// Whether the numbers are those of a cycle of the facts and the row, whose bounds add up to less than zero.
fn is_cycle(facts: &[Row], last: Row, cycle: &[u32]) -> bool {
    let Some(first) = cycle.first() else {
        return false;
    };
    let Some(row) = row_at(facts, last, *first) else {
        return false;
    };
    match chained(facts, last, cycle, row.0, 0) {
        Some((end, sum)) => end == row.0 && sum < 0,
        None => false,
    }
}

/// The test with this number.
fn asked_at(case: &Case, number: u32) -> Option<Asked> {
    case.asked.get((number as usize).checked_sub(1)?).copied()
}

/// Whether the kept atom is the test with this number, and shows what it has to.
fn is_kept(case: &Case, kept: &KeptAtom, number: Option<u32>) -> bool {
    number == Some(kept.atom.place)
        && match (asked_at(case, kept.atom.place), &kept.shown) {
            (Some(Apart(terms, most)), Some(values)) => is_shown(case, terms, most, values.items()),
            (Some(Sum(..) | Listed(_)), None) => true,
            _ => false,
        }
}

/// Whether the dropped atom stands where it has to, with a cycle.
fn is_dropped(case: &Case, dropped: &Dropped, wanted: Option<(u32, u64, Row)>) -> bool {
    match wanted {
        None => false,
        Some((number, after, last)) => {
            dropped.atom.place == number
                && dropped.after == after
                && is_cycle(case.facts, last, dropped.cycle.items())
        }
    }
}

/// Whether each kept atom is the one that is wanted.
fn are_kept(case: &Case, left: &Left) -> bool {
    left.kept.len() == case.kept.len()
        && left.kept.items().iter().enumerate().all(|(at, kept)| is_kept(
            case,
            kept,
            case.kept.get(at).copied(),
        ))
}

/// Whether each dropped atom is the one that is wanted.
fn are_dropped(case: &Case, left: &Left) -> bool {
    left.dropped.len() == case.dropped.len()
        && left.dropped.items().iter().enumerate().all(|(at, dropped)| is_dropped(
            case,
            dropped,
            case.dropped.get(at).copied(),
        ))
}

#[test]
fn atoms_are_kept_and_dropped(rt: HostRuntime) -> Result<(), Fail> {
    for (at, case) in CASES.iter().enumerate() {
        let left = left_of(rt.alloc(), case)?;
        let kept = are_kept(case, &left);
        assert!(rt; kept, "kept in case {at}: {left:?}");
        let dropped = are_dropped(case, &left);
        assert!(rt; dropped, "dropped in case {at}: {left:?}");
        let never = left.never.as_ref().map(|atom| atom.place);
        assert_eq!(rt; never, case.never, "in case {at}");
    }
    Ok(())
}
