//! Rings by trying every code: slow, and independent of how the rings of the library work.
ghost use Rattle.std.specs.Prelude.{◌<◌};

use crate::agreement::Expected;
use ring::{Bezout, Code};

/// The integers modulo n.
#[derive(Clone, Copy)]
pub(crate) struct Integers {
    n: u16,
    ghost positive: { 0 < n },
}

impl Integers {
    /// The integers modulo n.
    pub(crate) fn modulo(n: u16) -> Integers
        requires { 0 < n }
    {
        Integers { n }
    }

    /// Whether a is a code.
    fn has(&self, a: Code) -> bool {
        a < self.n
    }

    /// The code of x.
    fn code(&self, x: u64) -> Code {
        (x % self.n as u64) as Code
    }

    /// Whether u·a + v·b and c are alike modulo n.
    fn alike(&self, u: Code, a: Code, v: Code, b: Code, c: Code) -> bool {
        let combination = u as u64 * a as u64 + v as u64 * b as u64;
        self.code(combination) == self.code(c as u64)
    }

    /// The greatest number that divides a, b and n.
    fn divisor(&self, a: Code, b: Code) -> Code {
        (1..=self.n)
            .rev()
            .find(|d| [a, b, self.n].iter().all(|x| x.is_multiple_of(*d)))
            .unwrap_or(1)
    }

    /// The least v with u·a + v·b = g.
    fn completed(&self, a: Code, b: Code, g: Code, u: Code) -> Option<Code> {
        (0..self.n).find(|v| self.alike(u, a, *v, b, g))
    }
}

/// Each method tests its numbers itself, as the rings' own rule has it.
impl Expected for Integers {
    fn sum(&self, a: Code, b: Code) -> Code {
        if !self.has(a) || !self.has(b) {
            return 0;
        }
        self.code(a as u64 + b as u64)
    }

    /// The code that added to a gives 0.
    fn negative(&self, a: Code) -> Code {
        (0..self.n)
            .find(|x| self.has(a) && self.alike(1, a, 1, *x, 0))
            .unwrap_or(0)
    }

    fn product(&self, a: Code, b: Code) -> Code {
        if !self.has(a) || !self.has(b) {
            return 0;
        }
        self.code(a as u64 * b as u64)
    }

    /// One for equal codes, else the least code whose product with b is a.
    fn quotient(&self, a: Code, b: Code) -> Option<Code> {
        if !self.has(a) || !self.has(b) {
            return None;
        }
        if a == b {
            return Some(1);
        }
        (0..self.n).find(|q| self.alike(*q, b, 0, 0, a))
    }

    /// The divisor modulo n, the least u for which there is a v, and the least v for that u.
    fn gcd(&self, a: Code, b: Code) -> Bezout {
        if !self.has(a) || !self.has(b) {
            return Bezout::default();
        }
        let divisor = self.divisor(a, b);
        let g = self.code(divisor as u64);
        let n = self.n;
        (0..n)
            .find_map(|u| { self.completed(a, b, divisor, u).map(|v| Bezout { g, u, v }) })
            .unwrap_or(Bezout { g: n, u: n, v: n })
    }

    /// The least number above 0 whose product with a is 0, modulo n.
    fn annihilator(&self, a: Code) -> Code {
        (1..=self.n)
            .find(|d| self.has(a) && self.alike(*d, a, 0, 0, 0))
            .map_or(0, |d| self.code(d as u64))
    }

    /// The least code that differs from a by a multiple of b.
    fn residue(&self, a: Code, b: Code) -> Code {
        if !self.has(a) || !self.has(b) {
            return 0;
        }
        (0..self.n)
            .find(|r| (0..self.n).any(|q| self.alike(1, *r, q, b, a)))
            .unwrap_or(0)
    }
}

/// The pairs of the integers modulo two numbers, which work on each side.
#[derive(Clone, Copy)]
pub(crate) struct Pairs {
    pub(crate) left: Integers,
    pub(crate) right: Integers,
}

impl Pairs {
    /// The code of a pair.
    fn code(&self, x: Code, y: Code) -> Code {
        x.wrapping_mul(self.right.n).wrapping_add(y)
    }

    /// The two sides of a code; none for another number.
    fn sides(&self, a: Code) -> Option<(Code, Code)> {
        let (x, y) = (a / self.right.n, a % self.right.n);
        (x < self.left.n).then_some((x, y))
    }

    /// The code of what `answer` gives on each side of a; 0 where a is no code.
    fn on_sides<F: Fn(&Integers, Code) -> Code>(&self, a: Code, answer: F) -> Code
        requires { F.IsAlwaysCallable answer }
    {
        let Some((x, y)) = self.sides(a) else {
            return 0;
        };
        self.code(answer(&self.left, x), answer(&self.right, y))
    }

    /// The code of what `answer` gives on each side of a and b; 0 where either is no code.
    fn on_both_sides<F: Fn(&Integers, Code, Code) -> Code>(
        &self,
        a: Code,
        b: Code,
        answer: F,
    ) -> Code
        requires { F.IsAlwaysCallable answer }
    {
        let (Some((x, y)), Some((z, w))) = (self.sides(a), self.sides(b)) else {
            return 0;
        };
        self.code(answer(&self.left, x, z), answer(&self.right, y, w))
    }
}

impl Expected for Pairs {
    fn sum(&self, a: Code, b: Code) -> Code {
        self.on_both_sides(a, b, |side, x, y| side.sum(x, y))
    }

    fn negative(&self, a: Code) -> Code {
        self.on_sides(a, |side, x| side.negative(x))
    }

    fn product(&self, a: Code, b: Code) -> Code {
        self.on_both_sides(a, b, |side, x, y| side.product(x, y))
    }

    /// The code of two quotients, none if either is.
    fn quotient(&self, a: Code, b: Code) -> Option<Code> {
        let (x, y) = self.sides(a)?;
        let (z, w) = self.sides(b)?;
        Some(self.code(self.left.quotient(x, z)?, self.right.quotient(y, w)?))
    }

    /// The codes of the three numbers of two gcds.
    fn gcd(&self, a: Code, b: Code) -> Bezout {
        Bezout {
            g: self.on_both_sides(a, b, |side, x, y| side.gcd(x, y).g),
            u: self.on_both_sides(a, b, |side, x, y| side.gcd(x, y).u),
            v: self.on_both_sides(a, b, |side, x, y| side.gcd(x, y).v),
        }
    }

    fn annihilator(&self, a: Code) -> Code {
        self.on_sides(a, |side, x| side.annihilator(x))
    }

    fn residue(&self, a: Code, b: Code) -> Code {
        self.on_both_sides(a, b, |side, x, y| side.residue(x, y))
    }
}
