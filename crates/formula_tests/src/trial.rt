//! A ring and an order that are tested against the same in plain words.
use crate::model::Model;
use crate::plain::Rule;
use formula::PolynomialRing;
use std::alloc::Global;
use term::Order;

/// A ring and an order, the same in plain words, and what a test runs with.
#[derive(Drop)]
pub(crate) struct Trial<'a, R, O, A> {
    pub(crate) rt: &'a A,
    pub(crate) heap: Global,
    pub(crate) polynomials: PolynomialRing<R, O>,
    pub(crate) model: Model,
}

impl<'a, R, O: Drop, A> Trial<'a, R, O, A> {
    /// The same ring under another order.
    pub(crate) fn under<P: Order>(self, order: P, rule: Rule) -> Trial<'a, R, P, A> {
        let Trial {
            rt,
            heap,
            polynomials,
            model,
        } = self;
        Trial {
            rt,
            heap,
            polynomials: PolynomialRing {
                ring: polynomials.ring,
                order,
            },
            model: Model { rule, ..model },
        }
    }
}
