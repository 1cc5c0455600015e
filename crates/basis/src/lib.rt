//! The mathematics of strong bases, for every coefficient ring and every term order: definitions and theorems, with no computation.
#![tactic(auto)]

ghost use Rattle.basis.specs.Laws.{CriterionMakesBasis, CriticalPolynomials, LinesStandForRelations, OneHead, RemaindersAreUnique};

use formula::PolynomialRing;
use ring::Ring;
use term::Order;

/// Lines whose A- and S-polynomials are low, and whose heads cover where two heads meet, are a strong basis.
#[tactic(auto, using(crate::proofs::Criteria::criterion_makes_basis))]
pub fn criterion_makes_basis<R: Ring, O: Order>(polynomials: &PolynomialRing<R, O>)
    ensures { CriterionMakesBasis (R.Ring.meaning polynomials.now.ring) (O.Order.meaning polynomials.now.order) }
{}

/// Lines that are combinations of relations and give every relation have the relations' combinations and no others.
pub fn lines_stand_for_relations<R: Ring>(ring: &R)
    ensures { LinesStandForRelations (R.Ring.meaning ring.now) }
{}

/// For a strong basis, two reduced polynomials whose difference is a combination are the same.
pub fn remainders_are_unique<R: Ring, O: Order>(polynomials: &PolynomialRing<R, O>)
    ensures { RemaindersAreUnique (R.Ring.meaning polynomials.now.ring) (O.Order.meaning polynomials.now.order) }
{}

/// The head of a G-polynomial is the gcd at the lcm, and A- and S-polynomials lose their heads.
#[tactic(auto, using(crate::proofs::CriticalPolynomials::critical_polynomials))]
pub fn critical_polynomials<R: Ring, O: Order>(polynomials: &PolynomialRing<R, O>)
    ensures { CriticalPolynomials (R.Ring.meaning polynomials.now.ring) (O.Order.meaning polynomials.now.order) }
{}

/// A polynomial that is not zero has a head, and only one.
#[tactic(auto, using(crate::proofs::Heads::one_head))]
pub fn one_head<R: Ring, O: Order>(polynomials: &PolynomialRing<R, O>)
    ensures { OneHead (R.Ring.meaning polynomials.now.ring) (O.Order.meaning polynomials.now.order) }
{}
