//! The residue ring as a value: its modulus.
ghost use Rattle.std.specs.Prelude.{◌≤◌};
ghost use Rattle.ring.specs.CoefficientRing.{smallest_size, largest_size};

pub mod making;

/// The integers modulo n. Code a stands for a itself.
#[derive(Clone, Copy)]
pub struct ResidueRing {
    n: u32,
    ghost lawful: { (smallest_size ≤ n) × (n ≤ largest_size) },
}
