//! A reference to an order as an order: each answer is that of the order which it refers to.
use crate::{Monomial, Order};
use std::cmp::Ordering;

impl<O: Order> Order for &O {
    const KIND: u8 = O::KIND;

    ghost meaning = { λ order. O.Order.meaning order.now };

    fn kind_number(&self) -> u8 {
        (**self).kind_number()
    }

    fn compare(&self, a: Monomial, b: Monomial) -> Ordering {
        (**self).compare(a, b)
    }
}
