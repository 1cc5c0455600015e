//! Arithmetic modulo n on whole numbers: greatest common divisors, and the least solution of x·b = c.
#![tactic(auto)]

mod euclid;
mod solving;

pub use solving::{common_divisor, multiplier};
