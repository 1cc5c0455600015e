//! The greatest common divisor of two numbers, and the least solution of x·b = c modulo n.
ghost use Rattle.std.specs.Prelude.{◌≡◌, ◌<◌, ◌≤◌, IfSome};
ghost use Rattle.modular.specs.Divisor.{common_divisor};
ghost use Rattle.modular.specs.Modular.{multiplier as multiplier_of};

use crate::euclid::{Cofactor, divisor_with_factor};

/// The greatest number that divides both a and n; 0 where n is 0.
#[tactic(auto, using(crate::proofs::Divisors::divisor_by_none))]
pub fn common_divisor(a: u32, n: u32) -> u32
    ensures value { result ≡ common_divisor a n }
    ensures at_most { result ≤ n }
    ensures positive { 0 < n → 0 < result }
{
    divisor_with_factor(a, n).map_or(0, |euclid| euclid.divisor)
}

/// The least x below n for which x·b and c are alike modulo n, or none.
#[tactic(auto, using(crate::proofs::Multipliers::multiplier_by_none))]
pub fn multiplier(n: u32, b: u32, c: u32) -> Option<u32>
    ensures value { result ≡ multiplier_of n b c }
    ensures below { IfSome result (λ x. x < n) }
{
    let Cofactor { divisor, factor } = divisor_with_factor(b, n)?;
    if c % divisor != 0 {
        return None;
    }
    let period = (n / divisor) as u64;
    let x = factor as u64 * (c / divisor) as u64 % period;
    Some(x as u32)
}
