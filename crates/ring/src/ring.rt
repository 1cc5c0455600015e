//! The trait of coefficient rings. Each method is an equation with what the ring means.
ghost use Rattle.std.specs.Prelude.{◌≡◌};
ghost use Rattle.ring.specs.CoefficientRing.{CoefficientRing};

use crate::{Bezout, Code};

/// A coefficient ring on the codes 0 to size − 1. Every method answers every number: one that is no code gets 0, for a quotient none.
pub trait Ring {
    /// The number of this kind of ring, 1 to 15: no enum, since other crates bring kinds of their own, and a sheet holds the number.
    const KIND: u8;

    ghost meaning: { Self → CoefficientRing };

    /// The number of this kind of ring, which a value of one of two rings knows and its type does not.
    fn kind_number(&self) -> u8
        ensures { result ≡ (meaning self.now).kind };

    /// The number of codes, 2 to 65,536.
    fn size(&self) -> u32
        ensures { result ≡ (meaning self.now).size };

    /// The code of one.
    fn one(&self) -> Code
        ensures { result ≡ (meaning self.now).one };

    /// a + b.
    fn sum(&self, a: Code, b: Code) -> Code
        ensures { result ≡ (meaning self.now).sum a b };

    /// −a.
    fn negative(&self, a: Code) -> Code
        ensures { result ≡ (meaning self.now).negative a };

    /// a·b.
    fn product(&self, a: Code, b: Code) -> Code
        ensures { result ≡ (meaning self.now).product a b };

    /// A code q with q·b = a, or none where there is no such code; one where a is b.
    fn quotient(&self, a: Code, b: Code) -> Option<Code>
        ensures { result ≡ (meaning self.now).quotient a b };

    /// A common divisor of a and b that is a combination of them.
    fn gcd(&self, a: Code, b: Code) -> Bezout
        ensures { result ≡ (meaning self.now).gcd a b };

    /// A code of which every e with e·a = 0 is a multiple, and which is such an e.
    fn annihilator(&self, a: Code) -> Code
        ensures { result ≡ (meaning self.now).annihilator a };

    /// The same code for all that differ from a by a multiple of b, and not above a.
    fn residue(&self, a: Code, b: Code) -> Code
        ensures { result ≡ (meaning self.now).residue a b };
}
