//! Packed monomials as 16 hexadecimal digits of either case.
ghost use Rattle.std.specs.Prelude.{◌≡◌};
ghost use Rattle.script.specs.Hexadecimal.{packed_in};

use crate::fault::Fault;
use term::Monomial;

/// How many digits write a packed monomial.
const DIGITS: usize = 16;

const RADIX: u32 = 16;

/// The packed monomial that a word of 16 hexadecimal digits writes.
pub(crate) fn packed(word: &[u8]) -> Result<Monomial, Fault>
    ensures { result ≡ packed_in word.now }
{
    if word.len() != DIGITS {
        return Err(Fault::NotPacked);
    }
    // Digit by digit, since `from_str_radix` would take a sign.
    let mut bits: u64 = 0;
    for byte in word {
        let Some(digit) = char::from(*byte).to_digit(RADIX) else {
            return Err(Fault::NotPacked);
        };
        bits = bits * u64::from(RADIX) + u64::from(digit);
    }
    Ok(Monomial { bits })
}
