//! The laws of formulas, sums and texts, as functions that do nothing and promise a law, for others to call.
ghost use Rattle.formula.specs.Laws.{AdditionLaw, FormulaLaws};
ghost use Rattle.formula.specs.Text.{TextReadings};

use crate::PolynomialRing;
use ring::Ring;
use term::Order;

/// What the check grants, and what formulas are as polynomials.
#[tactic(auto, using(crate::proofs::Polynomials::formula_laws))]
pub(crate) fn formula_laws<R: Ring, O: Order>(polynomials: &PolynomialRing<R, O>)
    ensures { FormulaLaws (R.Ring.meaning polynomials.now.ring) (O.Order.meaning polynomials.now.order) }
{}

/// What a sum is as a polynomial.
pub(crate) fn addition_law<R: Ring, O: Order>(polynomials: &PolynomialRing<R, O>)
    ensures { AdditionLaw (R.Ring.meaning polynomials.now.ring) (O.Order.meaning polynomials.now.order) }
{}

/// Some texts.
#[tactic(auto, using(crate::proofs::Texts::text_readings))]
pub(crate) fn text_readings()
    ensures { TextReadings }
{}
