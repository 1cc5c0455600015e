//! The trait of term orders. Each method is an equation with what the order means.
ghost use Rattle.std.specs.Prelude.{◌≡◌};
ghost use Rattle.order.specs.TermOrder.{TermOrder, compared};
ghost use Rattle.term.specs.Packed.{term_of};

use crate::Monomial;
use std::cmp::Ordering;

/// A term order, which compares the terms of two monomials and leaves their coefficients aside.
pub trait Order {
    /// The number of this kind of order, 1 to 15: no enum, since other crates bring kinds of their own, and a sheet holds the number.
    const KIND: u8;

    ghost meaning: { Self → TermOrder };

    /// The number of this kind of order, which a value of one of two orders knows and its type does not.
    fn kind_number(&self) -> u8
        ensures { result ≡ (meaning self.now).kind };

    /// How the term of a stands to the term of b.
    fn compare(&self, a: Monomial, b: Monomial) -> Ordering
        ensures { result ≡ compared (meaning self.now) (term_of a.bits) (term_of b.bits) };
}
