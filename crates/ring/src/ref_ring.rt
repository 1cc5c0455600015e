//! A reference to a ring as a ring: each answer is that of the ring which it refers to.
use crate::{Bezout, Code, Ring};

/// Each method is written out: an impl may not be written by a macro of the repository.
impl<R: Ring> Ring for &R {
    const KIND: u8 = R::KIND;

    ghost meaning = { λ ring. R.Ring.meaning ring.now };

    fn kind_number(&self) -> u8 {
        (**self).kind_number()
    }

    fn size(&self) -> u32 {
        (**self).size()
    }

    fn one(&self) -> Code {
        (**self).one()
    }

    fn sum(&self, a: Code, b: Code) -> Code {
        (**self).sum(a, b)
    }

    fn negative(&self, a: Code) -> Code {
        (**self).negative(a)
    }

    fn product(&self, a: Code, b: Code) -> Code {
        (**self).product(a, b)
    }

    fn quotient(&self, a: Code, b: Code) -> Option<Code> {
        (**self).quotient(a, b)
    }

    fn gcd(&self, a: Code, b: Code) -> Bezout {
        (**self).gcd(a, b)
    }

    fn annihilator(&self, a: Code) -> Code {
        (**self).annihilator(a)
    }

    fn residue(&self, a: Code, b: Code) -> Code {
        (**self).residue(a, b)
    }
}
