ghost use Rattle.std.specs.Prelude.{◌≡◌, ◌≤◌, ◌↔◌, length, IsTrue, IsSome, IfSome};
ghost use Rattle.sv_value.specs.Names.{is_name_byte, begins_with_letter, is_name};
ghost use Rattle.std.specs.List.{list_all};

use crate::padded::pad;
use std::marker::Model;

/// The most bytes of a name.
pub const MOST_NAME: usize = 32;

/// A name: a letter, and then letters, digits and `_`, at most 32 bytes. Contracts see it as its bytes.
#[derive(Clone, Copy, Debug)]
pub struct Name {
    len: usize,
    cells: [u8; 32],
}

impl Model for Name {
    ghost use Rattle.std.specs.Prelude.{ℕ, List, take, length, IsTrue};
    ghost use Rattle.sv_value.specs.Padded.{padded, IsPadded, length-take-padded, padded-take};
    ghost use Rattle.sv_value.specs.Names.{is_name};

    ghost Value = { List ℕ };

    ghost view = { λ name. take name.len name.cells };

    ghost invariant = { λ name. IsPadded 32 name.len name.cells × IsTrue (is_name (take name.len name.cells)) };

    ghost inverse = { λ bytes. record { len = length bytes; cells = padded 32 bytes } };

    ghost inverse_ok = { λ name held i. record {
      len = length-take-padded held.0 i;
      cells = padded-take held.0 i;
    } };
}

fn is_name_byte(byte: u8) -> bool
    ensures { result ≡ is_name_byte byte }
{
    byte.is_ascii_alphanumeric() || byte == b'_'
}

fn begins_with_letter(bytes: &[u8]) -> bool
    ensures { result ≡ begins_with_letter bytes.now }
{
    match bytes {
        [first, ..] => first.is_ascii_alphabetic(),
        [] => false,
    }
}

fn are_name_bytes(bytes: &[u8]) -> bool
    ensures { result ≡ list_all is_name_byte bytes.now }
{
    bytes.iter().all(|byte| is_name_byte(*byte))
}

/// Whether the bytes are a name.
fn is_name(bytes: &[u8]) -> bool
    ensures { result ≡ is_name bytes.now }
{
    begins_with_letter(bytes) && bytes.len() <= MOST_NAME && are_name_bytes(bytes)
}

impl Name {
    /// The name of these bytes; `None` where they are no name.
    pub fn new(bytes: &[u8]) -> Option<Name>
        ensures valid { IsSome result ↔ IsTrue (is_name bytes.now) }
        ensures value { IfSome result (λ name. name ≡ bytes.now) }
    {
        if !is_name(bytes) {
            return None;
        }
        Some(Name {
            len: bytes.len(),
            cells: pad(bytes),
        })
    }

    /// Its bytes.
    pub fn bytes(&self) -> &[u8]
        ensures value { result.now ≡ self.now }
        ensures valid { IsTrue (is_name self.now) }
    {
        &self.cells[..self.len]
    }
}

impl PartialEq for Name {
    ghost use Rattle.std.specs.Cmp.{partial_equiv_from_equiv};
    ghost use Rattle.std.specs.Cmp.Lexicographic.{pointwise, nat_list_eq_equiv};
    ghost use Rattle.std.specs.Prelude.{nat_eq};

    ghost eq = { pointwise nat_eq };

    ghost laws = { partial_equiv_from_equiv nat_list_eq_equiv };

    fn eq(&self, other: &Name) -> bool {
        self.bytes() == other.bytes()
    }
}

impl Eq for Name {
    ghost use Rattle.std.specs.Cmp.Lexicographic.{nat_list_eq_equiv};

    ghost laws = { nat_list_eq_equiv };
}
