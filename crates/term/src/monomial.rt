//! Packed monomials: their parts, and products, quotients and multiples of their terms.
ghost use Rattle.std.specs.Prelude.{◌≡◌, true, if◌then◌else◌, Some, None};
ghost use Rattle.order.specs.Term.{degree, divides, exponents, lcm, mirrored, of_exponents, product, quotient, weighted};
ghost use Rattle.order.specs.TermLaws.{DivisionLaws, LcmLaws, ProductLaws};
ghost use Rattle.term.specs.Packed.{coefficient_of, fits, monomial, packed, term_of};
ghost use Rattle.term.specs.Laws.{PackingLaws};

use crate::laws::{division_laws, lcm_laws, packing_laws, product_laws};
use std::array;

/// The number of coefficient codes that a monomial has room for.
pub(crate) const CODES: u64 = 0x1_0000;

/// A term and a coefficient code in one number: from the top the exponents of a to f, 8 bits each, then the code in 16 bits.
#[derive(Clone, Copy, Default, PartialEq, Eq, Debug)]
pub struct Monomial {
    pub bits: u64,
}

/// A monomial times a line, the line known by its number.
#[derive(Clone, Copy, PartialEq, Eq, Debug)]
pub struct Step {
    pub factor: Monomial,
    pub line: u8,
}

impl Monomial {
    /// The coefficient code.
    pub fn coefficient(self) -> u16
        ensures value { result ≡ coefficient_of self.bits }
        ensures packing { PackingLaws }
    {
        packing_laws();
        (self.bits % CODES) as u16
    }

    /// The same term with another coefficient code.
    pub fn with_coefficient(self, coefficient: u16) -> Monomial
        ensures { result ≡ monomial (term_of self.bits) coefficient }
    {
        Monomial {
            bits: self.bits - self.bits % CODES + u64::from(coefficient),
        }
    }

    /// The exponents of a to f, an array as the format has them.
    pub fn exponents(self) -> [u8; 6]
        ensures { result ≡ exponents (term_of self.bits) }
    {
        let [a, b, c, d, e, f, ..] = self.bits.to_be_bytes();
        [a, b, c, d, e, f]
    }

    /// The total degree of the term.
    pub fn degree(self) -> u64
        ensures { result ≡ degree (term_of self.bits) }
    {
        self.exponents().iter().map(|e| u64::from(*e)).sum()
    }

    /// The sum of exponent times weight, the weights packed like exponents.
    pub fn weighted_degree(self, weights: Monomial) -> u64
        ensures { result ≡ weighted (term_of weights.bits) (term_of self.bits) }
    {
        let weights = weights.exponents();
        let exponents = self.exponents();
        weights
            .iter()
            .zip(exponents.iter())
            .map(|(w, e)| u64::from(*w) * u64::from(*e))
            .sum()
    }

    /// Whether this term divides another: no exponent is larger.
    pub fn divides(self, other: Monomial) -> bool
        ensures { result ≡ divides (term_of self.bits) (term_of other.bits) }
    {
        self.exponents()
            .iter()
            .zip(other.exponents().iter())
            .all(|(x, y)| x <= y)
    }

    /// The product of two terms, with coefficient code 0, or none where an exponent would pass 255.
    pub fn product(self, other: Monomial) -> Option<Monomial>
        ensures value { result ≡ (if fits (product (term_of self.bits) (term_of other.bits)) then Some (monomial (product (term_of self.bits) (term_of other.bits)) 0) else None) }
        ensures laws { ProductLaws }
    {
        product_laws();
        self.fits_with(other).then(|| Monomial {
            bits: (self.bits / CODES + other.bits / CODES) * CODES,
        })
    }

    /// This term by another, with coefficient code 0, or none where the other does not divide it.
    pub fn quotient(self, divisor: Monomial) -> Option<Monomial>
        ensures value { result ≡ (if divides (term_of divisor.bits) (term_of self.bits) then Some (monomial (quotient (term_of self.bits) (term_of divisor.bits)) 0) else None) }
        ensures laws { DivisionLaws }
    {
        division_laws();
        divisor.divides(self).then(|| self.less(divisor))
    }

    /// The least common multiple of two terms, with coefficient code 0.
    pub fn lcm(self, other: Monomial) -> Monomial
        ensures value { result ≡ monomial (lcm (term_of self.bits) (term_of other.bits)) 0 }
        ensures laws { LcmLaws }
    {
        lcm_laws();
        let (left, right) = (self.exponents(), other.exponents());
        let larger = array::from_fn(|k| left[k].max(right[k]));
        Monomial {
            bits: packed(larger),
        }
    }

    /// The term with its registers in reverse order, as a packed number with code 0.
    pub(crate) fn mirrored(self) -> u64
        ensures { result ≡ packed (mirrored (term_of self.bits)) 0 }
    {
        let mut exponents = self.exponents();
        exponents.reverse();
        packed(exponents)
    }

    /// This term by one that divides it, with coefficient code 0.
    fn less(self, divisor: Monomial) -> Monomial
        requires { divides (term_of divisor.bits) (term_of self.bits) ≡ true }
        ensures { result ≡ monomial (quotient (term_of self.bits) (term_of divisor.bits)) 0 }
    {
        Monomial {
            bits: (self.bits / CODES - divisor.bits / CODES) * CODES,
        }
    }

    /// Whether no exponent of the product passes 255.
    fn fits_with(self, other: Monomial) -> bool
        ensures { result ≡ fits (product (term_of self.bits) (term_of other.bits)) }
    {
        self.exponents()
            .iter()
            .zip(other.exponents().iter())
            .all(|(x, y)| x.checked_add(*y).is_some())
    }
}

/// The exponents of a to f as a packed number with code 0.
fn packed(exponents: [u8; 6]) -> u64
    ensures { result ≡ packed (of_exponents exponents) 0 }
{
    let [a, b, c, d, e, f] = exponents;
    u64::from_be_bytes([a, b, c, d, e, f, 0, 0])
}
