//! Decimal numbers: digits only, no sign.
ghost use Rattle.std.specs.Prelude.{◌≡◌, ◌≤◌, IfOk};
ghost use Rattle.script.specs.Decimal.{number_in};

use crate::fault::Fault;

const RADIX: u64 = 10;

/// The number that the word's digits write, if the word is digits only, one at least, and the number is at most `most`.
pub(crate) fn decimal(word: &[u8], most: u32) -> Result<u32, Fault>
    ensures value { result ≡ number_in most word.now }
    ensures bound { IfOk result (λ n. n ≤ most) }
{
    if word.is_empty() {
        return Err(Fault::NotANumber);
    }
    // By hand, since `parse` tells only the first error: a byte that is no digit comes before a number that is too large.
    let limit = u64::from(most);
    let mut value: u64 = 0;
    for byte in word {
        if !byte.is_ascii_digit() {
            return Err(Fault::NotANumber);
        }
        // A number that is too large stays so, however many digits follow.
        value = (value * RADIX + u64::from(*byte - b'0')).min(limit + 1);
    }
    if value > limit {
        return Err(Fault::NumberTooLarge);
    }
    Ok(value as u32)
}
