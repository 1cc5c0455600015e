//! The pair of two rings as a ring: each operation works on each side.
ghost use Rattle.pair.specs.Paired.{paired};

use crate::PairRing;
use ring::{Bezout, Code, Ring};

/// The number of the kind of pair rings: nothing is known of `Self::KIND` in a generic impl.
const PAIR_KIND: u8 = 2;

/// The pair as a ring.
// Each method calls both sides itself: the contract of a helper that takes the operation would have to say what the closure answers on each.
impl<L: Ring, R: Ring> Ring for PairRing<L, R> {
    const KIND: u8 = PAIR_KIND;

    ghost meaning = { λ s. paired (L.Ring.meaning s.left) (R.Ring.meaning s.right) };

    fn kind_number(&self) -> u8 {
        PAIR_KIND
    }

    fn size(&self) -> u32 {
        self.pair_size()
    }

    fn one(&self) -> Code {
        self.joined(self.left.one(), self.right.one())
    }

    fn sum(&self, a: Code, b: Code) -> Code {
        let Some((p, q)) = self.both_sides(a, b) else {
            return 0;
        };
        self.joined(
            self.left.sum(p.left, q.left),
            self.right.sum(p.right, q.right),
        )
    }

    fn negative(&self, a: Code) -> Code {
        let Some(p) = self.sides(a) else {
            return 0;
        };
        self.joined(self.left.negative(p.left), self.right.negative(p.right))
    }

    fn product(&self, a: Code, b: Code) -> Code {
        let Some((p, q)) = self.both_sides(a, b) else {
            return 0;
        };
        self.joined(
            self.left.product(p.left, q.left),
            self.right.product(p.right, q.right),
        )
    }

    fn quotient(&self, a: Code, b: Code) -> Option<Code> {
        let (p, q) = self.both_sides(a, b)?;
        let x = self.left.quotient(p.left, q.left)?;
        let y = self.right.quotient(p.right, q.right)?;
        Some(self.joined(x, y))
    }

    fn gcd(&self, a: Code, b: Code) -> Bezout {
        let Some((p, q)) = self.both_sides(a, b) else {
            return Bezout::default();
        };
        let x = self.left.gcd(p.left, q.left);
        let y = self.right.gcd(p.right, q.right);
        Bezout {
            g: self.joined(x.g, y.g),
            u: self.joined(x.u, y.u),
            v: self.joined(x.v, y.v),
        }
    }

    fn annihilator(&self, a: Code) -> Code {
        let Some(p) = self.sides(a) else {
            return 0;
        };
        self.joined(
            self.left.annihilator(p.left),
            self.right.annihilator(p.right),
        )
    }

    fn residue(&self, a: Code, b: Code) -> Code {
        let Some((p, q)) = self.both_sides(a, b) else {
            return 0;
        };
        self.joined(
            self.left.residue(p.left, q.left),
            self.right.residue(p.right, q.right),
        )
    }
}
