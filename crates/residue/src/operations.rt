//! The residue ring's answers, each by at most a few times as many divisions as n has binary digits.
ghost use Rattle.std.specs.Prelude.{◌≡◌, ◌<◌, ◌≤◌};
ghost use Rattle.modular.specs.Modular.{modular_gcd};
ghost use Rattle.residue.specs.Residues.{residues};

use crate::modulus::ResidueRing;
use modular::{common_divisor, multiplier};
use ring::{Bezout, Code, Ring};

impl ResidueRing {
    /// The gcd of the codes a and b with its least cofactors: u solves u·a = g modulo the divisor of b and n, and v solves what is then missing.
    #[tactic(auto, using(modular::proofs::Residues::gcd_worked_out))]
    fn least_cofactors(&self, a: u32, b: u32) -> Bezout
        requires left_code { a < self.now.n }
        requires right_code { b < self.now.n }
        ensures { result ≡ modular_gcd self.now.n a b }
    {
        let n = self.modulus();
        let right = common_divisor(b, n);
        let g = common_divisor(a, right);
        let u = multiplier(right, a, g).unwrap_or(0);
        let missing = g + (n - u * a % n);
        let v = multiplier(n, b, missing).unwrap_or(0);
        Bezout {
            g: (g % n) as Code,
            u: u as Code,
            v: v as Code,
        }
    }
}

// Each method tests its numbers itself: a helper that takes the operation would have to say again what the operation asks.
impl Ring for ResidueRing {
    const KIND: u8 = 1;

    ghost meaning = { λ r. residues r.n r.lawful.0 r.lawful.1 };

    fn kind_number(&self) -> u8 {
        Self::KIND
    }

    fn size(&self) -> u32 {
        self.modulus()
    }

    fn one(&self) -> Code {
        1
    }

    fn sum(&self, a: Code, b: Code) -> Code {
        if !self.holds(a) || !self.holds(b) {
            return 0;
        }
        ((a as u32 + b as u32) % self.modulus()) as Code
    }

    fn negative(&self, a: Code) -> Code {
        if !self.holds(a) {
            return 0;
        }
        let n = self.modulus();
        ((n - a as u32) % n) as Code
    }

    fn product(&self, a: Code, b: Code) -> Code {
        if !self.holds(a) || !self.holds(b) {
            return 0;
        }
        (a as u32 * b as u32 % self.modulus()) as Code
    }

    fn quotient(&self, a: Code, b: Code) -> Option<Code> {
        if !self.holds(a) || !self.holds(b) {
            return None;
        }
        if a == b {
            return Some(1);
        }
        multiplier(self.modulus(), b as u32, a as u32).map(|q| q as Code)
    }

    fn gcd(&self, a: Code, b: Code) -> Bezout {
        if !self.holds(a) || !self.holds(b) {
            return Bezout::default();
        }
        self.least_cofactors(a as u32, b as u32)
    }

    fn annihilator(&self, a: Code) -> Code {
        if !self.holds(a) {
            return 0;
        }
        let n = self.modulus();
        (n / common_divisor(a as u32, n) % n) as Code
    }

    fn residue(&self, a: Code, b: Code) -> Code {
        if !self.holds(a) || !self.holds(b) {
            return 0;
        }
        (a as u32 % common_divisor(b as u32, self.modulus())) as Code
    }
}
