//! The orders lex, reverse and weight.
ghost use Rattle.std.specs.Prelude.{◌≡◌};
ghost use Rattle.order.specs.TermOrder.{compared};
ghost use Rattle.term.specs.Orders.{lex, reverse, weight};
ghost use Rattle.term.specs.Packed.{term_of};
ghost use Rattle.term.specs.Laws.{DegreeThenLastRegisterDecides, FirstRegisterDecides, WeightDecides};

use crate::laws::{lex_laws, reverse_laws, weight_laws};
use crate::monomial::CODES;
use crate::{Monomial, Order};
use std::cmp::Ordering;

/// The number of the weight orders' kind. A constant of its own, since nothing is known of `Self::KIND` in a generic impl.
const WEIGHT_KIND: u8 = 3;

/// Kind 1: the first register from a that differs decides, and the larger exponent is greater.
#[derive(Clone, Copy, PartialEq, Eq, Debug)]
pub struct Lex;

/// As `Reverse`, it states its own law in each method, so no function serves both.
impl Order for Lex {
    const KIND: u8 = 1;

    ghost meaning = { λ _. lex };

    fn kind_number(&self) -> u8 {
        lex_laws();
        Self::KIND
    }

    #[tactic(auto, using(crate::proofs::PackedOrders::lex_compared))]
    fn compare(&self, a: Monomial, b: Monomial) -> Ordering
        ensures value { result ≡ compared lex (term_of a.bits) (term_of b.bits) }
        ensures in_words { FirstRegisterDecides lex }
    {
        lex_laws();
        (a.bits / CODES).cmp(&(b.bits / CODES))
    }
}

/// Kind 2: the larger total degree is greater; on a tie the last register that differs decides, and the smaller exponent is greater.
#[derive(Clone, Copy, PartialEq, Eq, Debug)]
pub struct Reverse;

impl Order for Reverse {
    const KIND: u8 = 2;

    ghost meaning = { λ _. reverse };

    fn kind_number(&self) -> u8 {
        reverse_laws();
        Self::KIND
    }

    fn compare(&self, a: Monomial, b: Monomial) -> Ordering
        ensures value { result ≡ compared reverse (term_of a.bits) (term_of b.bits) }
        ensures in_words { DegreeThenLastRegisterDecides reverse }
    {
        reverse_laws();
        // Both comparisons are worked out: by cases of the first the compiled code takes longer.
        a.degree()
            .cmp(&b.degree())
            .then(b.mirrored().cmp(&a.mirrored()))
    }
}

/// Kind 3, over any order: the larger sum of exponent times weight is greater, and a tie is left to the order below.
#[derive(Clone, Copy, PartialEq, Eq, Debug)]
pub struct Weight<O> {
    /// Six weights packed like exponents; the low 16 bits count for nothing.
    pub weights: Monomial,
    /// What decides a tie.
    pub below: O,
}

impl<O: Order> Weight<O> {
    /// The order by these weights over another order. It refuses nothing.
    pub fn new(weights: Monomial, below: O) -> Weight<O>
        ensures weights { result.weights ≡ weights }
        ensures below { result.below ≡ below }
        ensures in_words { WeightDecides (term_of weights.bits) (O.Order.meaning below) (weight (term_of weights.bits) (O.Order.meaning below)) }
    {
        weight_laws(weights, &below);
        Weight { weights, below }
    }
}

impl<O: Order> Order for Weight<O> {
    const KIND: u8 = WEIGHT_KIND;

    ghost meaning = { λ w. weight (term_of w.weights.bits) (O.Order.meaning w.below) };

    fn kind_number(&self) -> u8 {
        weight_laws(self.weights, &self.below);
        WEIGHT_KIND
    }

    fn compare(&self, a: Monomial, b: Monomial) -> Ordering {
        // A return in place of `then_with`, with which the compiled code takes longer.
        let by_weight = a
            .weighted_degree(self.weights)
            .cmp(&b.weighted_degree(self.weights));
        if by_weight.is_ne() {
            return by_weight;
        }
        self.below.compare(a, b)
    }
}
