//! Formulas that a script writes: showing one, and adding a monomial times another to one.
ghost use Rattle.std.specs.Prelude.{◌≡◌};
ghost use Rattle.formula.specs.Held.{outcome};
ghost use Rattle.answer.specs.Formulas.{KeptSuffice, shown_formula, sum_of};

use crate::FormulaAnswer;
use formula::{PolynomialRing, WorkingFormula};
use refusal::Refusal;
use ring::Ring;
use term::{Monomial, Order};

impl FormulaAnswer {
    /// A formula over a ring as an answer.
    pub(crate) fn over<R: Ring>(ring: &R, formula: WorkingFormula) -> FormulaAnswer
        ensures one { result.one ≡ (R.Ring.meaning ring.now).one }
        ensures formula { result.formula ≡ formula }
    {
        FormulaAnswer {
            one: ring.one(),
            formula,
        }
    }
}

/// The formula that a list is; refused where it is none.
pub(crate) fn shown<R: Ring, O: Order>(
    polynomials: &PolynomialRing<R, O>,
    list: &[Monomial],
) -> Result<WorkingFormula, Refusal>
    ensures { outcome result ≡ shown_formula (R.Ring.meaning polynomials.now.ring) (O.Order.meaning polynomials.now.order) list.now }
{
    polynomials.check(list)?;
    WorkingFormula::holding(list)
}

/// A formula plus factor times line, three parts of a command that are not together anywhere else. It refuses where the first list is no formula, then the second, then where the factor has no coefficient, then where the sum is refused.
pub(crate) fn sum<R: Ring, O: Order>(
    polynomials: &PolynomialRing<R, O>,
    formula: &[Monomial],
    factor: Monomial,
    line: &[Monomial],
) -> Result<WorkingFormula, Refusal>
    ensures { outcome result ≡ sum_of (R.Ring.meaning polynomials.now.ring) (O.Order.meaning polynomials.now.order) formula.now factor line.now }
{
    let mut sum = shown(polynomials, formula)?;
    let line = shown(polynomials, line)?;
    polynomials.check(&[factor])?;
    polynomials.add_step(&mut sum, factor, &line)?;
    Ok(sum)
}

/// That the monomials which are kept of a list suffice.
#[tactic(auto, using(crate::proofs::Checks::kept_suffice))]
pub(crate) fn kept_suffice<R: Ring, O: Order>(polynomials: &PolynomialRing<R, O>)
    ensures { KeptSuffice (R.Ring.meaning polynomials.now.ring) (O.Order.meaning polynomials.now.order) }
{}
