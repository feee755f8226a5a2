ghost use Rattle.std.specs.Prelude.{◌≡◌, IsTrue, pos, nat_le, Some, None, if◌then◌else◌};
ghost use Rattle.std.specs.List.{list_all};
ghost use Rattle.sv_value.specs.Names.{is_digit};
ghost use Rattle.sv_lex.specs.Tokens.{digits_value};

/// The greatest number that can be written.
const MOST_NUMBER: u128 = 9223372036854775807;

/// The number that the digits are, unless it is above 9223372036854775807.
pub fn number_of(digits: &[u8]) -> Option<i64>
    requires { IsTrue (list_all is_digit digits.now) }
    ensures { result ≡ (if nat_le (digits_value digits.now) 9223372036854775807 then Some (pos (digits_value digits.now)) else None) }
{
    let mut value: u128 = 0;
    for digit in digits {
        value = 10 * value + (*digit - b'0') as u128;
        if value > MOST_NUMBER {
            return None;
        }
    }
    Some(value as i64)
}
