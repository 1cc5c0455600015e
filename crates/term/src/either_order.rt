//! One of two orders as an order: each answer is that of the order which the value holds.
ghost use Rattle.term.specs.EitherOrder.{order_meaning};

use crate::{Monomial, Order};
use either::{Either, for_both};
use std::cmp::Ordering;

impl<L: Order, R: Order> Order for Either<L, R> {
    /// A value's own kind is for `kind_number` to tell.
    const KIND: u8 = 1;

    ghost meaning = { order_meaning L.Order.meaning R.Order.meaning };

    fn kind_number(&self) -> u8 {
        for_both!(self, order => order.kind_number())
    }

    fn compare(&self, a: Monomial, b: Monomial) -> Ordering {
        for_both!(self, order => order.compare(a, b))
    }
}
