//! Transactions and the paths of their units.
use std::alloc::Global;
use std::test::Fail;
use sv_app::{Parts, Stmt, Txn, parts_of};
use sv_lex::{lex, spot_of};
use sv_paths::{Path, PathStop, Unit, paths};
use sv_txn_reader::read_txns;
use sv_value::NoMemory;

/// Ten comparisons, one after the other.
const TEN: &[u8] = b"txn ten(n: int) {
if n < 0 { } if n < 0 { } if n < 0 { } if n < 0 { } if n < 0 { }
if n < 0 { } if n < 0 { } if n < 0 { } if n < 0 { } if n < 0 { } }";

/// The same behind one that aborts.
const BEYOND: &[u8] = b"txn beyond(n: int) { if n < 0 { abort 1; }
if n < 0 { } if n < 0 { } if n < 0 { } if n < 0 { } if n < 0 { }
if n < 0 { } if n < 0 { } if n < 0 { } if n < 0 { } if n < 0 { } }";

/// The transactions of a document.
fn txns(alloc: Global, document: &[u8]) -> Result<Vec<Txn>, Fail> {
    if document.len() > 1_048_576 {
        return Err(Fail::from("a long document"));
    }
    let tokens = lex(alloc, document)?;
    let end = spot_of(document, document.len() as u32);
    match read_txns(alloc, &tokens, end, 0) {
        Ok((txns, _)) => Ok(txns),
        Err(_) => Err(Fail::from("no transactions")),
    }
}

/// The body of the first one.
fn first_body(txns: &[Txn]) -> Result<&[Stmt], Fail> {
    match txns.first() {
        Some(txn) => Ok(txn.body.as_slice()),
        None => Err(Fail::from("no transaction")),
    }
}

/// The body of a loop.
fn loop_body(stmt: &Stmt) -> Option<&[Stmt]> {
    match parts_of(stmt) {
        Parts::Rows { body, .. } | Parts::Each { body, .. } => Some(body),
        Parts::Let { .. } | Parts::Assign { .. } | Parts::Get { .. } => None,
        Parts::If { .. } | Parts::Abort { .. } | Parts::Reply(_) => None,
        Parts::Insert { .. } | Parts::Fresh { .. } => None,
        Parts::Update { .. } | Parts::Remove { .. } => None,
    }
}

fn paths_of(alloc: Global, body: &[Stmt]) -> Result<Vec<Path>, PathStop> {
    paths(
        alloc,
        &Unit {
            txn: 0,
            number: 0,
            body,
        },
    )
}

/// Each path in parentheses: its choices, 1 for true, and `!` where it aborts.
fn shown(alloc: Global, paths: &[Path]) -> Result<Vec<u8>, NoMemory> {
    let mut out = Vec::new(alloc);
    for path in paths {
        out.push(b'(')?;
        for choice in path.choices.items() {
            out.push(if *choice { b'1' } else { b'0' })?;
        }
        out.extend_from_slice(if path.aborts { b"!)" } else { b")" })?;
    }
    Ok(out)
}

#[test]
fn paths_are_listed_in_order(rt: HostRuntime) -> Result<(), Fail> {
    let cases: [(&[u8], &[u8]); 10] = [
        (b"txn t() { }", b"()"),
        (b"txn t() { abort 1; }", b"(!)"),
        (
            b"txn restock(k: int, n: int) { if n < 0 { abort 1; } update item[k] set stock = old.stock + n; }",
            b"(0)(1!)",
        ),
        (
            b"txn t(n: int) { if n < 0 { } else { abort 1; } }",
            b"(0!)(1)",
        ),
        (
            b"txn t(n: int) { if n < 0 and n < 9 { abort 1; } }",
            b"(00)(01)(10)(11!)",
        ),
        (
            b"txn t(n: int) { if n < 0 or n < 9 { abort 1; } }",
            b"(00)(01!)(10!)(11!)",
        ),
        (b"txn t(n: int) { if not n < 0 { abort 1; } }", b"(0!)(1)"),
        (
            b"txn t(n: int) { if n < 0 { if n < 9 { } } if n < 5 { } }",
            b"(00)(01)(100)(101)(110)(111)",
        ),
        (b"txn t(n: int) { abort 1; if n < 0 { } }", b"(!)"),
        (
            b"txn t(ns: ints) { each n in ns { if n < 0 { abort 1; } } }",
            b"()",
        ),
    ];
    for (document, wanted) in cases {
        let read = txns(rt.alloc(), document)?;
        let found = paths_of(rt.alloc(), first_body(&read)?)?;
        let text = shown(rt.alloc(), &found)?;
        assert_eq!(rt; text.as_slice(), wanted, "of {document:?}");
    }
    Ok(())
}

#[test]
fn the_body_of_a_loop_has_paths_of_its_own(rt: HostRuntime) -> Result<(), Fail> {
    for document in [
        b"txn t(ns: ints) { each n in ns { if n < 0 { abort 1; } } }".as_slice(),
        b"txn t(n: int) { for r in item where r.stock < n { if n < 0 { abort 1; } } }",
    ] {
        let read = txns(rt.alloc(), document)?;
        let stmt = first_body(&read)?.first().ok_or("no statement")?;
        let body = loop_body(stmt).ok_or("no loop")?;
        let found = paths_of(rt.alloc(), body)?;
        let text = shown(rt.alloc(), &found)?;
        assert_eq!(rt; text.as_slice(), b"(0)(1!)".as_slice(), "of {document:?}");
    }
    Ok(())
}

#[test]
fn there_are_1024_paths_at_most(rt: HostRuntime) -> Result<(), Fail> {
    let ten = txns(rt.alloc(), TEN)?;
    let found = paths_of(rt.alloc(), first_body(&ten)?)?;
    assert_eq!(rt; found.len(), 1_024);
    for (place, choice) in [(0, false), (1_023, true)] {
        let path: &Path = found.get(place).ok_or("no path")?;
        assert!(rt; !path.aborts, "at {place}");
        assert_eq!(rt; path.choices.len(), 10, "at {place}");
        assert!(rt;
            path.choices.items().iter().all(|c| *c == choice),
            "at {place}"
        );
    }

    let beyond = txns(rt.alloc(), BEYOND)?;
    let stop = paths_of(rt.alloc(), first_body(&beyond)?).err();
    assert_eq!(rt; stop, Some(PathStop::Many { count: 1_025 }));
    Ok(())
}
