//! Making a residue ring, and reading its modulus.
ghost use Rattle.std.specs.Prelude.{◌≡◌, ◌<◌, nat_lt};
ghost use Rattle.residue.specs.Made.{granted, modulus_of};

use super::ResidueRing;
use refusal::Refusal;
use ring::{Code, MAX_SIZE, MIN_SIZE};

impl ResidueRing {
    /// The integers modulo n; refused where n is not from 2 to 65,536.
    pub fn new(n: u32) -> Result<ResidueRing, Refusal>
        ensures { modulus_of result ≡ granted n }
    {
        if n < MIN_SIZE || n > MAX_SIZE {
            return Err(Refusal::RingSize);
        }
        Ok(ResidueRing { n })
    }

    /// The modulus n, the number of codes.
    pub fn modulus(&self) -> u32
        ensures { result ≡ self.now.n }
    {
        self.n
    }

    /// Whether a is a code of the ring.
    pub(crate) fn holds(&self, a: Code) -> bool
        ensures { result ≡ nat_lt a self.now.n }
    {
        (a as u32) < self.n
    }
}
