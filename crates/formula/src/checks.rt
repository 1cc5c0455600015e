//! The checks of a formula: its length, its coefficients, its terms.
ghost use Rattle.std.specs.Prelude.{◌≡◌};
ghost use Rattle.formula.specs.Formula.{checked, coded, falling, is_before, is_coefficient};
ghost use Rattle.formula.specs.Laws.{FormulaLaws};

use crate::PolynomialRing;
use crate::laws::formula_laws;
use refusal::Refusal;
use ring::Ring;
use term::{Monomial, Order};

/// The largest number of monomials in a formula.
pub const MAX_MONOMIALS: usize = 64;

impl<R: Ring, O: Order> PolynomialRing<R, O> {
    /// Whether a list of monomials is a formula. It refuses a list of more than 64 monomials, then a coefficient that is 0 or no code, then terms that do not fall.
    pub fn check(&self, formula: &[Monomial]) -> Result<(), Refusal>
        ensures value { result ≡ checked (R.Ring.meaning self.now.ring) (O.Order.meaning self.now.order) formula.now }
        ensures laws { FormulaLaws (R.Ring.meaning self.now.ring) (O.Order.meaning self.now.order) }
    {
        formula_laws(self);
        if formula.len() > MAX_MONOMIALS {
            return Err(Refusal::TooManyMonomials);
        }
        if !coded(&self.ring, formula) {
            return Err(Refusal::CoefficientOutOfRange);
        }
        if !falling(&self.order, formula) {
            return Err(Refusal::TermsNotFalling);
        }
        Ok(())
    }
}

/// Whether a number is a coefficient: not 0, and below the size of the ring.
fn is_coefficient<R: Ring>(ring: &R, code: u16) -> bool
    ensures { result ≡ is_coefficient (R.Ring.meaning ring.now) code }
{
    0 < code && (code as u32) < ring.size()
}

/// Whether every code is a coefficient.
fn coded<R: Ring>(ring: &R, formula: &[Monomial]) -> bool
    ensures { result ≡ coded (R.Ring.meaning ring.now) formula.now }
{
    formula
        .iter()
        .all(|m| is_coefficient(ring, m.coefficient()))
}

/// Whether the terms fall strictly.
fn falling<O: Order>(order: &O, formula: &[Monomial]) -> bool
    ensures { result ≡ falling (O.Order.meaning order.now) formula.now }
{
    formula.is_sorted_by(|m, n| is_before(order, *n, *m))
}

/// Whether the term of a is before the term of b.
fn is_before<O: Order>(order: &O, a: Monomial, b: Monomial) -> bool
    ensures { result ≡ is_before (O.Order.meaning order.now) a b }
{
    order.compare(a, b).is_lt()
}
