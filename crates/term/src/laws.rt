//! The laws of terms, packing and orders, as functions that do nothing and promise a law, for others to call.
ghost use Rattle.std.specs.Prelude.{◌≡◌};
ghost use Rattle.order.specs.TermLaws.{DivisionLaws, LcmLaws, ProductLaws};
ghost use Rattle.term.specs.Laws.{DegreeThenLastRegisterDecides, FirstRegisterDecides, PackingLaws, WeightDecides};
ghost use Rattle.term.specs.Orders.{lex, reverse, weight};
ghost use Rattle.term.specs.Packed.{term_of};

use crate::{Monomial, Order};

/// A packed number is its term and its code.
#[tactic(auto, using(crate::proofs::Packing::packing_laws))]
pub(crate) fn packing_laws()
    ensures { PackingLaws }
{}

/// The laws of products of terms.
#[tactic(auto, using(order::proofs::Terms::product_laws))]
pub(crate) fn product_laws()
    ensures { ProductLaws }
{}

/// The laws of quotients of terms.
#[tactic(auto, using(order::proofs::Terms::division_laws))]
pub(crate) fn division_laws()
    ensures { DivisionLaws }
{}

/// The laws of least common multiples of terms.
#[tactic(auto, using(order::proofs::Terms::lcm_laws))]
pub(crate) fn lcm_laws()
    ensures { LcmLaws }
{}

/// What lex is.
pub(crate) fn lex_laws()
    ensures kind { lex.kind ≡ 1 }
    ensures in_words { FirstRegisterDecides lex }
{}

/// What reverse is.
pub(crate) fn reverse_laws()
    ensures kind { reverse.kind ≡ 2 }
    ensures in_words { DegreeThenLastRegisterDecides reverse }
{}

/// What weight is.
#[tactic(auto, using(crate::proofs::PackedOrders::weight_decides), unfolding(crate::specs::Orders::weight))]
pub(crate) fn weight_laws<O: Order>(weights: Monomial, below: &O)
    ensures kind { (weight (term_of weights.bits) (O.Order.meaning below.now)).kind ≡ 3 }
    ensures in_words { WeightDecides (term_of weights.bits) (O.Order.meaning below.now) (weight (term_of weights.bits) (O.Order.meaning below.now)) }
{}
