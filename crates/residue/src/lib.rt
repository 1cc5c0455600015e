//! The residue ring: the integers modulo n, for n from 2 to 65,536.
#![tactic(auto)]

mod clock;
mod modulus;
mod operations;

pub use clock::clock_hours;
pub use modulus::ResidueRing;
