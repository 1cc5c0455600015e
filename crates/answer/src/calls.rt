//! What the commands answer in any ring and by any order.
ghost use Rattle.std.specs.Prelude.{◌≡◌};
ghost use Rattle.order.specs.TermOrder.{compared};
ghost use Rattle.formula.specs.Formula.{term};
ghost use Rattle.script.specs.Listed.{listed};
ghost use Rattle.answer.specs.Operated.{operated};
ghost use Rattle.answer.specs.Formulas.{KeptSuffice, shown_formula, sum_of};
ghost use Rattle.answer.specs.Texts.{text_of_formula, text_of_formula_result};

use crate::formulas::{kept_suffice, shown, sum};
use crate::{Answer, FormulaAnswer};
use formula::PolynomialRing;
use refusal::Refusal;
use ring::Ring;
use script::{Addition, Listing, Operation};
use term::{Monomial, Order};

/// What an operation answers in a ring.
pub fn operate<R: Ring>(ring: &R, operation: Operation) -> Answer
    ensures { result ≡ operated (R.Ring.meaning ring.now) operation }
{
    match operation {
        Operation::One => Answer::Code(ring.one()),
        Operation::Sum(a, b) => Answer::Code(ring.sum(a, b)),
        Operation::Negative(a) => Answer::Code(ring.negative(a)),
        Operation::Product(a, b) => Answer::Code(ring.product(a, b)),
        Operation::Annihilator(a) => Answer::Code(ring.annihilator(a)),
        Operation::Residue(a, b) => Answer::Code(ring.residue(a, b)),
        Operation::Quotient(a, b) => Answer::Quotient(ring.quotient(a, b)),
        Operation::Gcd(a, b) => Answer::Gcd(ring.gcd(a, b)),
    }
}

/// How a term stands to another.
pub fn compare<O: Order>(order: &O, a: Monomial, b: Monomial) -> Answer
    ensures { result ≡ Answer.Comparison (compared (O.Order.meaning order.now) (term a) (term b)) }
{
    Answer::Comparison(order.compare(a, b))
}

/// A list as a formula; refused where it is none.
pub fn show<R: Ring, O: Order>(
    polynomials: &PolynomialRing<R, O>,
    list: &Listing,
) -> Result<FormulaAnswer, Refusal>
    ensures text { text_of_formula_result result ≡ text_of_formula (R.Ring.meaning polynomials.now.ring).one (shown_formula (R.Ring.meaning polynomials.now.ring) (O.Order.meaning polynomials.now.order) (listed list.now)) }
    ensures kept_suffice { KeptSuffice (R.Ring.meaning polynomials.now.ring) (O.Order.meaning polynomials.now.order) }
{
    kept_suffice(polynomials);
    let formula = shown(polynomials, list.monomials())?;
    Ok(FormulaAnswer::over(&polynomials.ring, formula))
}

/// A formula plus a monomial times another; refused where the sum is.
pub fn add<R: Ring, O: Order>(
    polynomials: &PolynomialRing<R, O>,
    addition: &Addition,
) -> Result<FormulaAnswer, Refusal>
    ensures text { text_of_formula_result result ≡ text_of_formula (R.Ring.meaning polynomials.now.ring).one (sum_of (R.Ring.meaning polynomials.now.ring) (O.Order.meaning polynomials.now.order) (listed addition.now.formula) addition.now.factor (listed addition.now.line)) }
    ensures kept_suffice { KeptSuffice (R.Ring.meaning polynomials.now.ring) (O.Order.meaning polynomials.now.order) }
{
    kept_suffice(polynomials);
    let formula = addition.formula.monomials();
    let line = addition.line.monomials();
    let sum = sum(polynomials, formula, addition.factor, line)?;
    Ok(FormulaAnswer::over(&polynomials.ring, sum))
}
