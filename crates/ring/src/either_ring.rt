//! One of two rings as a ring: each answer is that of the ring which the value holds.
ghost use Rattle.ring.specs.EitherRing.{ring_meaning};

use crate::{Bezout, Code, Ring};
use either::{Either, for_both};

/// Each method is written out: an impl may not be written by a macro of the repository.
impl<L: Ring, R: Ring> Ring for Either<L, R> {
    /// A value's own kind is for `kind_number` to tell.
    const KIND: u8 = 1;

    ghost meaning = { ring_meaning L.Ring.meaning R.Ring.meaning };

    fn kind_number(&self) -> u8 {
        for_both!(self, ring => ring.kind_number())
    }

    fn size(&self) -> u32 {
        for_both!(self, ring => ring.size())
    }

    fn one(&self) -> Code {
        for_both!(self, ring => ring.one())
    }

    fn sum(&self, a: Code, b: Code) -> Code {
        for_both!(self, ring => ring.sum(a, b))
    }

    fn negative(&self, a: Code) -> Code {
        for_both!(self, ring => ring.negative(a))
    }

    fn product(&self, a: Code, b: Code) -> Code {
        for_both!(self, ring => ring.product(a, b))
    }

    fn quotient(&self, a: Code, b: Code) -> Option<Code> {
        for_both!(self, ring => ring.quotient(a, b))
    }

    fn gcd(&self, a: Code, b: Code) -> Bezout {
        for_both!(self, ring => ring.gcd(a, b))
    }

    fn annihilator(&self, a: Code) -> Code {
        for_both!(self, ring => ring.annihilator(a))
    }

    fn residue(&self, a: Code, b: Code) -> Code {
        for_both!(self, ring => ring.residue(a, b))
    }
}
