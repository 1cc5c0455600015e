//! What is computed alike in every ring, and the laws that it keeps.
ghost use Rattle.std.specs.Prelude.{◌≡◌};
ghost use Rattle.ring.specs.Derived.{DifferenceLaws, DivisibilityLaws, difference as difference_of, divides as divides_of};

use crate::{Code, Ring};

/// Every ring keeps the laws of differences.
fn difference_laws<R: Ring>(ring: &R)
    ensures { DifferenceLaws (R.Ring.meaning ring.now) }
{}

/// Every ring keeps the laws of divisibility.
#[tactic(auto, using(crate::proofs::RingFacts::divisibility_laws))]
fn divisibility_laws<R: Ring>(ring: &R)
    ensures { DivisibilityLaws (R.Ring.meaning ring.now) }
{}

/// a − b, the code that added to b gives a.
pub fn difference<R: Ring>(ring: &R, a: Code, b: Code) -> Code
    ensures value { result ≡ difference_of (R.Ring.meaning ring.now) a b }
    ensures laws { DifferenceLaws (R.Ring.meaning ring.now) }
{
    difference_laws(ring);
    ring.sum(a, ring.negative(b))
}

/// Whether b divides a; false where either is no code.
pub fn divides<R: Ring>(ring: &R, b: Code, a: Code) -> bool
    ensures value { result ≡ divides_of (R.Ring.meaning ring.now) b a }
    ensures laws { DivisibilityLaws (R.Ring.meaning ring.now) }
{
    divisibility_laws(ring);
    ring.quotient(a, b).is_some()
}
