ghost use Rattle.std.specs.Prelude.{◌≡◌, ◌-◌, length, drop};
ghost use Rattle.sv_reader.specs.Places.{spot_of, refusal_of};

use crate::faults::ReadFault;
use sv_app::Refusal;
use sv_lex::Token;
use sv_value::Spot;

/// Where the first of the last `left` tokens stands; the end of the document, if there is none.
pub fn spot_of(tokens: &[Token], end: Spot, left: usize) -> Spot
    ensures { result ≡ spot_of end (drop (length tokens.now - left) tokens.now) }
{
    match tokens.get(tokens.len().saturating_sub(left)) {
        Some(token) => token.spot,
        None => end,
    }
}

/// The refusal of a fault of these tokens.
pub fn refusal_of(tokens: &[Token], end: Spot, fault: ReadFault) -> Refusal
    ensures { result ≡ refusal_of tokens.now end fault }
{
    Refusal {
        spot: spot_of(tokens, end, fault.left),
        code: fault.code,
    }
}
