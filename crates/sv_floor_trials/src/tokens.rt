//! Documents and their tokens, or their first fault.
use std::alloc::Global;
use std::process::Abort;
use std::test::Fail;
use sv_lex::{LexStop, Mark, Token, TokenKind, lex};
use sv_value::{Name, Spot, Text};

fn name(rt: &impl Abort, bytes: &[u8]) -> TokenKind {
    TokenKind::Name(Name::new(bytes).expect(rt, "a name"))
}

fn text(rt: &impl Abort, bytes: &[u8]) -> TokenKind {
    TokenKind::Text(Text::new(bytes).expect(rt, "a text"))
}

fn token(kind: TokenKind, from: u32, to: u32, line: u32, col: u32) -> Token {
    Token {
        kind,
        from,
        to,
        spot: Spot { line, col },
    }
}

/// The document has this one token, its first fault, or no token at all.
fn reads(rt: &impl Abort, alloc: Global, bytes: &[u8], wanted: Result<Option<Token>, LexStop>) {
    assert!(rt; bytes.len() <= 67_108_864);
    let found = match lex(alloc, bytes) {
        Ok(tokens) => {
            assert!(rt; tokens.len() <= 1, "in {bytes:?}");
            Ok(tokens.first().copied())
        }
        Err(stop) => Err(stop),
    };
    assert_eq!(rt; found, wanted, "in {bytes:?}");
}

#[test]
fn marks_are_read_longest_first(rt: HostRuntime) -> Result<(), Fail> {
    let document = b"(){}[],;.:= !=<<=>>=+-*@%%<==!==%%%%".as_slice();
    let wanted = [
        (Mark::LeftParen, 1),
        (Mark::RightParen, 1),
        (Mark::LeftBrace, 1),
        (Mark::RightBrace, 1),
        (Mark::LeftBracket, 1),
        (Mark::RightBracket, 1),
        (Mark::Comma, 1),
        (Mark::Semi, 1),
        (Mark::Dot, 1),
        (Mark::Colon, 1),
        (Mark::Eq, 1),
        (Mark::Ne, 2),
        (Mark::Lt, 1),
        (Mark::Le, 2),
        (Mark::Gt, 1),
        (Mark::Ge, 2),
        (Mark::Plus, 1),
        (Mark::Minus, 1),
        (Mark::Star, 1),
        (Mark::At, 1),
        (Mark::Percents, 2),
        (Mark::Le, 2),
        (Mark::Eq, 1),
        (Mark::Ne, 2),
        (Mark::Eq, 1),
        (Mark::Percents, 2),
        (Mark::Percents, 2),
    ];
    assert!(rt; document.len() <= 67_108_864);
    let tokens = lex(rt.alloc(), document)?;
    assert_eq!(rt; tokens.len(), wanted.len());
    for (found, (mark, length)) in tokens.iter().zip(wanted) {
        assert_eq!(rt; found.kind, TokenKind::Mark(mark), "at {found:?}");
        assert_eq!(rt; found.to.saturating_sub(found.from), length, "at {found:?}");
    }
    Ok(())
}

#[test]
fn single_tokens_are_read(rt: HostRuntime) {
    let long = b"abcdefghijklmnopqrstuvwxyz_45678".as_slice();
    let most = b"0123456789 123456789 123456789 123456789".as_slice();
    let closed = b"'0123456789 123456789 123456789 123456789'".as_slice();
    let greatest = TokenKind::Number(9223372036854775807);
    for (bytes, wanted) in [
        (b"".as_slice(), None),
        (b" \t\r\n# all of it", None),
        (long, Some(token(name(&rt, long), 0, 32, 1, 1))),
        (b"9223372036854775807", Some(token(greatest, 0, 19, 1, 1))),
        (b"007", Some(token(TokenKind::Number(7), 0, 3, 1, 1))),
        (b"''", Some(token(text(&rt, b""), 0, 2, 1, 1))),
        (b"'a # b'", Some(token(text(&rt, b"a # b"), 0, 7, 1, 1))),
        (closed, Some(token(text(&rt, most), 0, 42, 1, 1))),
        (b"\ta", Some(token(name(&rt, b"a"), 1, 2, 1, 2))),
        (b"\n\r\n  B#c", Some(token(name(&rt, b"B"), 5, 6, 3, 3))),
    ] {
        reads(&rt, rt.alloc(), bytes, Ok(wanted));
    }
}

#[test]
fn faults_are_told(rt: HostRuntime) {
    for (bytes, wanted) in [
        (b"!".as_slice(), LexStop::BadByte { at: 0 }),
        (b"a % b", LexStop::BadByte { at: 2 }),
        (b"\xff", LexStop::BadByte { at: 0 }),
        (b"# \xff\n\"", LexStop::BadByte { at: 4 }),
        (b"_a", LexStop::BadByte { at: 0 }),
        (
            b"a abcdefghijklmnopqrstuvwxyz_456789",
            LexStop::LongName { at: 2 },
        ),
        (b"-9223372036854775808", LexStop::LongNumber { at: 1 }),
        (
            b"10000000000000000000000000000000000000000 \xff",
            LexStop::LongNumber { at: 0 },
        ),
        (b"'", LexStop::BadByte { at: 1 }),
        (b"1 'ab\n'", LexStop::BadByte { at: 5 }),
        (b"'a\tb' 10000000000000000000", LexStop::BadByte { at: 2 }),
        (
            b"'0123456789 123456789 123456789 123456789",
            LexStop::BadByte { at: 41 },
        ),
        (
            b"'0123456789 123456789 123456789 1234567890",
            LexStop::LongText { at: 0 },
        ),
        (
            b" '0123456789 123456789 123456789 1234567890'",
            LexStop::LongText { at: 1 },
        ),
    ] {
        reads(&rt, rt.alloc(), bytes, Err(wanted));
    }
}
