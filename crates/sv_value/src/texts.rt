ghost use Rattle.std.specs.Prelude.{◌≡◌, ◌≤◌, ◌↔◌, length, IsTrue, IsSome, IfSome};
ghost use Rattle.sv_value.specs.Texts.{is_text_byte, is_text};
ghost use Rattle.std.specs.List.{list_all};

use crate::padded::pad;
use std::cmp::Ordering;
use std::marker::Model;

/// The most bytes of a text.
pub const MOST_TEXT: usize = 40;

/// A text of at most 40 printable ASCII bytes without the quote. Contracts see it as its bytes.
#[derive(Clone, Copy, Debug)]
pub struct Text {
    len: usize,
    cells: [u8; 40],
}

impl Model for Text {
    ghost use Rattle.std.specs.Prelude.{ℕ, List, take, length, IsTrue};
    ghost use Rattle.sv_value.specs.Padded.{padded, IsPadded, length-take-padded, padded-take};
    ghost use Rattle.sv_value.specs.Texts.{is_text};

    ghost Value = { List ℕ };

    ghost view = { λ text. take text.len text.cells };

    ghost invariant = { λ text. IsPadded 40 text.len text.cells × IsTrue (is_text (take text.len text.cells)) };

    ghost inverse = { λ bytes. record { len = length bytes; cells = padded 40 bytes } };

    ghost inverse_ok = { λ text held i. record {
      len = length-take-padded held.0 i;
      cells = padded-take held.0 i;
    } };
}

fn is_text_byte(byte: u8) -> bool
    ensures { result ≡ is_text_byte byte }
{
    byte >= 0x20 && byte <= 0x7E && byte != b'\''
}

fn are_text_bytes(bytes: &[u8]) -> bool
    ensures { result ≡ list_all is_text_byte bytes.now }
{
    bytes.iter().all(|byte| is_text_byte(*byte))
}

/// Whether the bytes are a text.
fn is_text(bytes: &[u8]) -> bool
    ensures { result ≡ is_text bytes.now }
{
    bytes.len() <= MOST_TEXT && are_text_bytes(bytes)
}

impl Text {
    /// The text of these bytes; `None` where they are none.
    pub fn new(bytes: &[u8]) -> Option<Text>
        ensures valid { IsSome result ↔ IsTrue (is_text bytes.now) }
        ensures value { IfSome result (λ text. text ≡ bytes.now) }
    {
        if !is_text(bytes) {
            return None;
        }
        Some(Text {
            len: bytes.len(),
            cells: pad(bytes),
        })
    }

    /// Its bytes.
    pub fn bytes(&self) -> &[u8]
        ensures value { result.now ≡ self.now }
        ensures valid { IsTrue (is_text self.now) }
    {
        &self.cells[..self.len]
    }
}

impl PartialEq for Text {
    ghost use Rattle.std.specs.Cmp.{partial_equiv_from_equiv};
    ghost use Rattle.std.specs.Cmp.Lexicographic.{pointwise, nat_list_eq_equiv};
    ghost use Rattle.std.specs.Prelude.{nat_eq};

    ghost eq = { pointwise nat_eq };

    ghost laws = { partial_equiv_from_equiv nat_list_eq_equiv };

    fn eq(&self, other: &Text) -> bool {
        self.bytes() == other.bytes()
    }
}

impl Eq for Text {
    ghost use Rattle.std.specs.Cmp.Lexicographic.{nat_list_eq_equiv};

    ghost laws = { nat_list_eq_equiv };
}

impl PartialOrd for Text {
    ghost use Rattle.std.specs.Cmp.Lexicographic.{texts_po};
    ghost use Rattle.std.specs.Ordering.{as_partial_cmp};
    ghost use Rattle.sv_value.specs.Orders.{text_cmp};

    ghost partial_cmp = { as_partial_cmp text_cmp };

    ghost laws = { texts_po };

    fn partial_cmp(&self, other: &Text) -> Option<Ordering> {
        Some(self.cmp(other))
    }
}

impl Ord for Text {
    ghost use Rattle.std.specs.Prelude.{refl};
    ghost use Rattle.std.specs.Cmp.Lexicographic.{nat_list_cmp_total, texts_ties};
    ghost use Rattle.sv_value.specs.Orders.{text_cmp};

    ghost cmp = { text_cmp };

    ghost total = { nat_list_cmp_total };

    ghost matches_partial_cmp = { λ a b. refl };

    ghost matches_eq = { texts_ties };

    fn cmp(&self, other: &Text) -> Ordering {
        self.bytes().cmp(other.bytes())
    }
}
