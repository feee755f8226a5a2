ghost use Rattle.std.specs.Prelude.{◌≡◌, take_while};
ghost use Rattle.std.specs.List.{prefix_len};
ghost use Rattle.sv_value.specs.Names.{is_letter, is_digit, is_name_byte};
ghost use Rattle.sv_value.specs.Texts.{is_text_byte};

pub fn is_letter(byte: u8) -> bool
    ensures { result ≡ is_letter byte }
{
    byte.is_ascii_alphabetic()
}

pub fn is_digit(byte: u8) -> bool
    ensures { result ≡ is_digit byte }
{
    byte.is_ascii_digit()
}

fn is_name_byte(byte: u8) -> bool
    ensures { result ≡ is_name_byte byte }
{
    byte.is_ascii_alphanumeric() || byte == b'_'
}

fn is_text_byte(byte: u8) -> bool
    ensures { result ≡ is_text_byte byte }
{
    byte >= 0x20 && byte <= 0x7E && byte != b'\''
}

fn name_length(bytes: &[u8]) -> usize
    ensures { result ≡ prefix_len is_name_byte bytes.now }
{
    bytes.iter().take_while(|byte| is_name_byte(**byte)).count()
}

fn number_length(bytes: &[u8]) -> usize
    ensures { result ≡ prefix_len is_digit bytes.now }
{
    bytes.iter().take_while(|byte| is_digit(**byte)).count()
}

fn text_length(bytes: &[u8]) -> usize
    ensures { result ≡ prefix_len is_text_byte bytes.now }
{
    bytes.iter().take_while(|byte| is_text_byte(**byte)).count()
}

/// The letters, digits and `_` that the bytes begin with.
pub fn name_run(bytes: &[u8]) -> &[u8]
    ensures { result.now ≡ take_while is_name_byte bytes.now }
{
    &bytes[..name_length(bytes)]
}

/// The digits that the bytes begin with.
pub fn number_run(bytes: &[u8]) -> &[u8]
    ensures { result.now ≡ take_while is_digit bytes.now }
{
    &bytes[..number_length(bytes)]
}

/// The bytes that may stand in a text that the bytes begin with.
pub fn text_run(bytes: &[u8]) -> &[u8]
    ensures { result.now ≡ take_while is_text_byte bytes.now }
{
    &bytes[..text_length(bytes)]
}
