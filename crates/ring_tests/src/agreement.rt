//! Comparing a ring with the answers that it has to give.
use ring::{Bezout, Code, Ring};
use std::process::Abort;

/// The answers that a ring has to give, found in another way.
pub(crate) trait Expected {
    fn sum(&self, a: Code, b: Code) -> Code;

    fn negative(&self, a: Code) -> Code;

    fn product(&self, a: Code, b: Code) -> Code;

    fn quotient(&self, a: Code, b: Code) -> Option<Code>;

    fn gcd(&self, a: Code, b: Code) -> Bezout;

    fn annihilator(&self, a: Code) -> Code;

    fn residue(&self, a: Code, b: Code) -> Code;
}

/// Compares every answer of the ring for the numbers a and b.
fn answers_agree(rt: &impl Abort, ring: &impl Ring, expected: &impl Expected, a: Code, b: Code) {
    assert_eq!(rt; ring.sum(a, b), expected.sum(a, b), "sum");
    assert_eq!(rt; ring.negative(a), expected.negative(a), "negative");
    assert_eq!(rt; ring.product(a, b), expected.product(a, b), "product");
    assert_eq!(rt; ring.quotient(a, b), expected.quotient(a, b), "quotient");
    assert_eq!(rt; ring.gcd(a, b), expected.gcd(a, b), "gcd");
    assert_eq!(rt; ring.annihilator(a), expected.annihilator(a), "annihilator");
    assert_eq!(rt; ring.residue(a, b), expected.residue(a, b), "residue");
}

/// Compares every answer of the ring for all numbers below `past`.
pub(crate) fn all_answers_agree(
    rt: &impl Abort,
    ring: &impl Ring,
    expected: &impl Expected,
    past: Code,
) {
    for a in 0..past {
        for b in 0..past {
            answers_agree(rt, ring, expected, a, b);
        }
    }
}
