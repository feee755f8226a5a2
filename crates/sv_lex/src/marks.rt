ghost use Rattle.std.specs.Prelude.{◌≡◌};
ghost use Rattle.sv_lex.specs.Marks.{mark_bytes, longest_mark};

/// A mark: one of the punctuation signs of a document.
#[derive(Clone, Copy, Debug, PartialEq, Eq)]
pub enum Mark {
    LeftParen,
    RightParen,
    LeftBrace,
    RightBrace,
    LeftBracket,
    RightBracket,
    Comma,
    Semi,
    Dot,
    Colon,
    Eq,
    Ne,
    Lt,
    Le,
    Gt,
    Ge,
    Plus,
    Minus,
    Star,
    At,
    Percents,
}

/// Every mark, a longer one before a shorter one.
const MARKS: [Mark; 21] = [
    Mark::Ne,
    Mark::Le,
    Mark::Ge,
    Mark::Percents,
    Mark::LeftParen,
    Mark::RightParen,
    Mark::LeftBrace,
    Mark::RightBrace,
    Mark::LeftBracket,
    Mark::RightBracket,
    Mark::Comma,
    Mark::Semi,
    Mark::Dot,
    Mark::Colon,
    Mark::Eq,
    Mark::Lt,
    Mark::Gt,
    Mark::Plus,
    Mark::Minus,
    Mark::Star,
    Mark::At,
];

impl Mark {
    /// The bytes that it is written with.
    pub fn bytes(self) -> &'static [u8]
        ensures { result.now ≡ mark_bytes self }
    {
        match self {
            Mark::LeftParen => b"(",
            Mark::RightParen => b")",
            Mark::LeftBrace => b"{",
            Mark::RightBrace => b"}",
            Mark::LeftBracket => b"[",
            Mark::RightBracket => b"]",
            Mark::Comma => b",",
            Mark::Semi => b";",
            Mark::Dot => b".",
            Mark::Colon => b":",
            Mark::Eq => b"=",
            Mark::Ne => b"!=",
            Mark::Lt => b"<",
            Mark::Le => b"<=",
            Mark::Gt => b">",
            Mark::Ge => b">=",
            Mark::Plus => b"+",
            Mark::Minus => b"-",
            Mark::Star => b"*",
            Mark::At => b"@",
            Mark::Percents => b"%%",
        }
    }
}

/// The longest mark that the bytes begin with.
#[tactic(auto, unfolding(crate::specs::Marks::longest_mark))]
pub fn longest_mark(bytes: &[u8]) -> Option<Mark>
    ensures { result ≡ longest_mark bytes.now }
{
    MARKS
        .iter()
        .copied()
        .find(|mark| bytes.starts_with(mark.bytes()))
}
