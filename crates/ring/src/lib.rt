//! Coefficient rings: what a ring means, the trait by which code reaches one, and what holds in every ring.
#![tactic(auto)]

mod derived;
mod either_ring;
mod ref_ring;
mod ring;

pub use derived::{difference, divides};
pub use ring::Ring;

/// A code of a ring, 0 to its size less one. A number that is no code is the ring's to answer.
pub type Code = u16;

/// The fewest codes that a ring has.
pub const MIN_SIZE: u32 = 2;

/// The most codes that a ring has.
pub const MAX_SIZE: u32 = 65_536;

/// A greatest common divisor g of two codes a and b, with g = u·a + v·b.
#[derive(Clone, Copy, PartialEq, Eq, Default, Debug)]
pub struct Bezout {
    pub g: Code,
    pub u: Code,
    pub v: Code,
}
