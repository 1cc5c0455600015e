//! Packed monomials of the registers a to f, and the orders by which terms are compared.
#![tactic(auto)]

mod either_order;
mod kinds;
mod laws;
mod monomial;
mod order_trait;
mod ref_order;

pub use kinds::{Lex, Reverse, Weight};
pub use monomial::{Monomial, Step};
pub use order_trait::Order;
