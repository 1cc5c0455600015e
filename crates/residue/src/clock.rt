//! The hours of a clock, modulo 12: answers that are worked out from the definitions.
ghost use Rattle.std.specs.Prelude.{◌≡◌, Some, None};
ghost use Rattle.residue.specs.Clock.{clock};

use crate::modulus::ResidueRing;

/// The integers modulo 12.
#[tactic(auto, unfolding(modular::specs::Least::least, modular::specs::Least::greatest, modular::specs::Divisor::common_divisor))]
pub fn clock_hours() -> ResidueRing
    ensures modulus { result.n ≡ 12 }
    ensures gcd_of_4_and_6 { clock.gcd 4 6 ≡ record { g = 2; u = 2; v = 1 } }
    ensures annihilator_of_8 { clock.annihilator 8 ≡ 3 }
    ensures annihilator_of_5 { clock.annihilator 5 ≡ 0 }
    ensures annihilator_of_0 { clock.annihilator 0 ≡ 1 }
    ensures quotient_of_4_by_8 { clock.quotient 4 8 ≡ Some 2 }
    ensures quotient_of_2_by_4_is_none { clock.quotient 2 4 ≡ None }
    ensures quotient_of_0_by_0_is_one { clock.quotient 0 0 ≡ Some clock.one }
    ensures residue_of_11_by_8 { clock.residue 11 8 ≡ 3 }
{
    ResidueRing::new(12).unwrap()
}
