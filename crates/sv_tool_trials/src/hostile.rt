//! Documents that are broken, and such as reach past a limit: one line of refusal, or the text, and never a crash.
use crate::commands::{Ends, SURE, answer, is_refusal, joined, put_often};
use crate::documents::{ACCOUNTS, PURCHASE, PURCHASED, SHOP};
use std::alloc::Global;
use std::sync::Wait;
use std::test::Fail;
use std::thread::Threads;
use sv_lex::lex;

/// What a check of the bytes ends with.
fn assert_check<R: Threads + Wait + Sync + std::process::Abort>(
    rt: &R,
    alloc: Global,
    document: &[u8],
    status: u8,
    text: &str,
) -> Result<(), Fail> {
    let (found, written) = answer(rt, alloc, "check", document, SURE)?;
    assert_eq!(rt; written.as_slice(), text.as_bytes());
    assert_eq!(rt; found, status);
    Ok(())
}

#[test]
fn broken_documents_are_refused(rt: HostRuntime) -> Result<(), Fail> {
    let long_name = "create table a123456789012345678901234567890ab";
    let cut_twice = "@UOSET create table t (id int, n int @NUMDELTA, primary key (id));
txn a() { abort 1000; }";
    for (document, text) in [
        (b"@AUSET".as_slice(), "refused 1:7 1\n"),
        (b"'ab", "refused 1:4 1\n"),
        (b"\xff", "refused 1:1 1\n"),
        (b"9223372036854775808", "refused 1:1 6\n"),
        (long_name.as_bytes(), "refused 1:14 6\n"),
        (b"create create ?", "refused 1:15 1\n"),
        (cut_twice.as_bytes(), "refused 2:17 6\n"),
        (b"", "refused 1:1 1\n"),
    ] {
        assert_check(&rt, rt.alloc(), document, 1, text)?;
    }
    Ok(())
}

/// So many tables, one in a line.
fn tables(alloc: Global, count: u32) -> Result<Vec<u8>, Fail> {
    let mut bytes = Vec::new(alloc);
    for number in 0..count {
        bytes.extend_from_slice(b"create table t")?;
        sv_value::put_int(&mut bytes, number as i128)?;
        bytes.extend_from_slice(b" (id int, primary key (id));\n")?;
    }
    Ok(bytes)
}

#[test]
fn a_document_has_sixteen_tables_at_most(rt: HostRuntime) -> Result<(), Fail> {
    let alloc = rt.alloc();
    let most = joined(alloc, &[tables(alloc, 16)?.as_slice(), b"# no line feed"])?;
    assert_check(&rt, alloc, &most, 0, "ok 16 0 0\n")?;
    assert_check(&rt, alloc, &tables(alloc, 17)?, 1, "refused 17:1 6\n")?;
    assert_check(&rt, alloc, &tables(alloc, 20_000)?, 1, "refused 17:1 6\n")
}

/// What opens, so often that it would be too deep a hundred times, is refused where it is too deep at last.
#[test]
fn what_is_deep_is_refused(rt: HostRuntime) -> Result<(), Fail> {
    let alloc = rt.alloc();
    for (front, piece, text) in [
        ("txn a() { reply ", "(", "refused 2:32 6\n"),
        ("txn a() { reply ", "-", "refused 2:32 6\n"),
        ("txn a() { reply ", "1 + ", "refused 2:79 6\n"),
        ("txn a() { if ", "(", "refused 2:28 6\n"),
        ("txn a() { if ", "not ", "refused 2:70 6\n"),
        ("txn a() {\n", "if 1 = 1 {\n", "refused 10:10 6\n"),
    ] {
        let mut document = Vec::from_slice(alloc, b"create table t (id int, primary key (id));\n")?;
        document.extend_from_slice(front.as_bytes())?;
        put_often(&mut document, piece, 80_000)?;
        assert_check(&rt, alloc, &document, 1, text)?;
    }
    Ok(())
}

/// The shop, two lines behind it, and a line so often.
fn steps(alloc: Global, line: &str, count: usize) -> Result<Vec<u8>, Fail> {
    let mut document = Vec::from_slice(alloc, SHOP.as_bytes())?;
    document.extend_from_slice(b"%% init item(7, 10, 3);\n%% replay sites=2\n")?;
    put_often(&mut document, line, count)?;
    Ok(document)
}

#[test]
fn a_replay_has_65536_steps_at_most(rt: HostRuntime) -> Result<(), Fail> {
    let alloc = rt.alloc();
    let most = steps(alloc, "settle 1;\n", 65_536)?;
    let (status, written) = answer(&rt, alloc, "replay", &most, SURE)?;
    assert_eq!(&rt; status, 0);
    assert_eq!(&rt; written.len(), 851_972);
    let more = steps(alloc, "settle 1;\n", 65_537)?;
    assert_check(&rt, alloc, &more, 1, "refused 65546:1 6\n")
}

#[test]
fn a_replay_asks_8192_times_at_most(rt: HostRuntime) -> Result<(), Fail> {
    let alloc = rt.alloc();
    assert_check(
        &rt,
        alloc,
        &steps(alloc, "ask 1 look(7);\n", 8_192)?,
        0,
        "ok 1 5 2\n",
    )?;
    let more = steps(alloc, "ask 1 look(7);\n", 8_193)?;
    assert_check(&rt, alloc, &more, 1, "refused 8202:1 6\n")
}

/// Whether the answer to the words is a text with status 0, or a line of refusal with status 1.
fn assert_judged<R: Threads + Wait + Sync + std::process::Abort>(
    rt: &R,
    alloc: Global,
    words: &str,
    document: &[u8],
) -> Result<(), Fail> {
    let (status, written) = answer(rt, alloc, words, document, SURE)?;
    assert!(rt; status <= 1);
    assert_eq!(rt; is_refusal(&written), status == 1);
    Ok(())
}

#[test]
fn each_front_is_judged_whatever_the_pieces(rt: HostRuntime) -> Result<(), Fail> {
    let alloc = rt.alloc();
    let whole = joined(alloc, &[SHOP.as_bytes(), PURCHASE.as_bytes()])?;
    let (status, written) = answer(&rt, alloc, "replay", &whole, SURE)?;
    assert_eq!(&rt; status, 0);
    assert_eq!(&rt; written.as_slice(), PURCHASED.as_bytes());
    let single = Ends { piece: 1, ..SURE };
    for count in 0..whole.len() + 1 {
        let front = whole.get(..count).ok_or("a front")?;
        let (status, written) = answer(&rt, alloc, "replay", front, SURE)?;
        assert_eq!(&rt; is_refusal(&written), status == 1);
        assert!(&rt; status <= 1);
        let (again, same) = answer(&rt, alloc, "replay", front, single)?;
        assert_eq!(&rt; again, status);
        assert_eq!(&rt; same.as_slice(), written.as_slice());
    }
    Ok(())
}

/// Words that are reserved, marks, and tokens of the other kinds.
const TOKENS: [&str; 52] = [
    "create",
    "table",
    "primary",
    "key",
    "check",
    "in",
    "int",
    "txn",
    "let",
    "if",
    "for",
    "each",
    "abort",
    "reply",
    "insert",
    "update",
    "remove",
    "set",
    "not",
    "old",
    "fresh",
    "(",
    ")",
    "{",
    "}",
    "[",
    "]",
    ",",
    ";",
    ":",
    ".",
    "=",
    "<=",
    "+",
    "-",
    "*",
    "@",
    "%%",
    "x",
    "acc",
    "0",
    "65",
    "9223372036854775807",
    "9223372036854775808",
    "''",
    "'",
    "!",
    "\u{e9}",
    "init",
    "replay",
    "ask",
    "",
];

/// Eighty tokens.
const USUAL: &str = "@UOSET create table acc (id int, n int @NUMDELTA, primary key (id));
txn add(k: int, n: int) { update acc[k] set n = old.n + n; }
%% init acc(1, 10);
%% replay sites=2 ask 1 add(1, 5); deliver 2 blue 1 0;
";

#[test]
fn each_token_is_judged_in_each_place(rt: HostRuntime) -> Result<(), Fail> {
    let alloc = rt.alloc();
    let whole = USUAL.as_bytes();
    let Ok(tokens) = lex(alloc, whole) else {
        return Err(Fail::from("tokens"));
    };
    for token in &tokens {
        let before = whole.get(..token.from as usize).ok_or("a front")?;
        let behind = whole.get(token.to as usize..).ok_or("a rest")?;
        for other in TOKENS {
            let document = joined(alloc, &[before, b" ", other.as_bytes(), b" ", behind])?;
            assert_judged(&rt, alloc, "replay", &document)?;
        }
    }
    Ok(())
}

#[test]
fn each_byte_is_judged_in_some_places(rt: HostRuntime) -> Result<(), Fail> {
    let alloc = rt.alloc();
    for place in [0, 8, 40, 120] {
        let before = ACCOUNTS.as_bytes().get(..place).ok_or("a front")?;
        let behind = ACCOUNTS.as_bytes().get(place..).ok_or("a rest")?;
        for byte in 0..=255u8 {
            let mut document = Vec::from_slice(alloc, before)?;
            document.push(byte)?;
            document.extend_from_slice(behind)?;
            assert_judged(&rt, alloc, "check", &document)?;
        }
    }
    Ok(())
}
