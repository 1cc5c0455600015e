//! The theorems about the calls, for every coefficient ring and every term order. Each function does nothing and promises a law.
ghost use Rattle.model.specs.Grants.{AdvanceLaws, GrantedExactly, LimitsOfRuns, OnlyRelateAndAdvance};
ghost use Rattle.model.specs.Host.{HostLaw};
ghost use Rattle.model.specs.Law.{Law, PassesExactlyWhatKeepsTheRules};
ghost use Rattle.model.specs.Scanning.{RemaindersGoDown};
ghost use Rattle.model.specs.Refusals.{LimitsAsStated, RefusedInOrder};

use formula::PolynomialRing;
use ring::Ring;
use term::Order;

/// The law over every list of calls on a workbook just opened, and over all bytes that an audit is given.
#[tactic(auto, using(crate::proofs::Theorems::law))]
pub fn law_over_runs<R: Ring, O: Order>(polynomials: &PolynomialRing<R, O>)
    ensures law { Law (R.Ring.meaning polynomials.now.ring) (O.Order.meaning polynomials.now.order) }
{}

/// The audit passes exactly the sheets that keep the rules.
#[tactic(auto, using(crate::proofs::Audits::audited_exactly))]
pub fn audit_passes_exactly<R: Ring, O: Order>(polynomials: &PolynomialRing<R, O>)
    ensures passes_exactly_what_keeps_the_rules { PassesExactlyWhatKeepsTheRules (R.Ring.meaning polynomials.now.ring) (O.Order.meaning polynomials.now.order) }
{}

/// A remainder is what going down the formula leaves: each monomial is lowered as long as a line lowers it, and then the next is looked at.
#[tactic(auto, using(crate::proofs::Scans::remainders_go_down))]
pub fn remainders_go_down<R: Ring, O: Order>(polynomials: &PolynomialRing<R, O>)
    ensures remainders_go_down { RemaindersGoDown (R.Ring.meaning polynomials.now.ring) (O.Order.meaning polynomials.now.order) }
{}

/// Each call that may be refused is granted exactly where its checks pass, and leaves what it is to leave then, and else everything as it was.
#[tactic(auto, using(crate::proofs::Theorems::granted_exactly))]
pub fn calls_granted_exactly<R: Ring, O: Order>(polynomials: &PolynomialRing<R, O>)
    ensures granted_exactly { GrantedExactly (R.Ring.meaning polynomials.now.ring) (O.Order.meaning polynomials.now.order) }
{}

/// An advance settles jobs one by one, and stops for the reason that it gives.
pub fn advance_stops_for_its_reason<R: Ring, O: Order>(polynomials: &PolynomialRing<R, O>)
    ensures advance_law { AdvanceLaws (R.Ring.meaning polynomials.now.ring) (O.Order.meaning polynomials.now.order) }
{}

/// Every workbook of a list of calls keeps the limits, and its lines name earlier lines only.
pub fn runs_keep_limits<R: Ring, O: Order>(polynomials: &PolynomialRing<R, O>)
    ensures limits { LimitsOfRuns (R.Ring.meaning polynomials.now.ring) (O.Order.meaning polynomials.now.order) }
{}

/// Only a granted relate and an advance change a workbook.
pub fn only_relate_and_advance_change<R: Ring, O: Order>(polynomials: &PolynomialRing<R, O>)
    ensures others_keep { OnlyRelateAndAdvance (R.Ring.meaning polynomials.now.ring) (O.Order.meaning polynomials.now.order) }
{}

/// What a C host gets: a number for the modulus, then one for the order, then what the audit says.
#[tactic(auto, using(crate::proofs::Hosts::host_law))]
pub fn host_answers_in_order()
    ensures host_law { HostLaw }
{}

/// What is refused, by which call and by the audit, with which refusal and in which order, and where a job comes to an end instead.
pub fn refusals_come_in_order<R: Ring, O: Order>(polynomials: &PolynomialRing<R, O>)
    ensures refused_in_order { RefusedInOrder (R.Ring.meaning polynomials.now.ring) (O.Order.meaning polynomials.now.order) }
{}

/// Each limit and each refusal has its number.
pub fn limits_as_stated()
    ensures limits { LimitsAsStated }
{}
