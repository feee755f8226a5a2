ghost use Rattle.std.specs.Prelude.{◌≡◌, length};
ghost use Rattle.std.specs.List.{prefix_len};
ghost use Rattle.std.specs.Io.BufRead.{take_through};
ghost use Rattle.sv_lex.specs.Spots.{is_in_line};
ghost use Rattle.sv_lex.specs.Lexers.{gap_in};
ghost use Rattle.sv_lex.specs.Tokens.{is_white};

fn is_white(byte: u8) -> bool
    ensures { result ≡ is_white byte }
{
    byte == b' ' || byte == b'\t' || byte == b'\r' || byte == b'\n'
}

/// How many bytes stand before the first line feed, or all where there is none.
fn line_length(bytes: &[u8]) -> usize
    ensures { result ≡ prefix_len is_in_line bytes.now }
{
    bytes.iter().take_while(|byte| **byte != b'\n').count()
}

/// How many bytes stand up to the first line feed and with it, or all where there is none.
#[tactic(auto, using(crate::proofs::GapLaws::gaps))]
fn through_line(bytes: &[u8]) -> usize
    ensures { result ≡ length (take_through 10 bytes.now) }
{
    let line = line_length(bytes);
    if line < bytes.len() { line + 1 } else { line }
}

/// How many bytes the white space or the comment has that the bytes begin with, if they begin with one.
pub fn gap_in(bytes: &[u8]) -> Option<usize>
    ensures { result ≡ gap_in bytes.now }
{
    match bytes {
        [] => None,
        [first, ..] => {
            if is_white(*first) {
                Some(1)
            } else if *first == b'#' {
                Some(through_line(bytes))
            } else {
                None
            }
        }
    }
}
