//! Euclid's algorithm, with the factor by which a number gives its greatest common divisor with n, modulo n.
ghost use Rattle.std.specs.Prelude.{◌≡◌, ◌+◌, ◌-◌, ◌*◌, ◌%◌, ◌<◌, MatchOption};
ghost use Rattle.modular.specs.Solved.{Solves};

/// The greatest common divisor of two numbers b and n, and a factor whose product with b is that divisor, modulo n.
#[derive(Clone, Copy)]
pub(crate) struct Cofactor {
    pub(crate) divisor: u32,
    pub(crate) factor: u32,
}

/// x − q·y modulo n.
fn less_multiple(n: u32, x: u32, q: u32, y: u32) -> u32
    requires { 0 < n }
    ensures { result ≡ (x + (n - q * y % n)) % n }
{
    let modulus = n as u64;
    let taken = q as u64 * y as u64 % modulus;
    ((x as u64 + (modulus - taken)) % modulus) as u32
}

/// The greatest common divisor of b and n with its factor, by at most about twice as many divisions as n has binary digits.
/// None where n is 0.
pub(crate) fn divisor_with_factor(b: u32, n: u32) -> Option<Cofactor>
    ensures { MatchOption result (n ≡ 0) (λ euclid. Solves b n euclid.divisor euclid.factor) }
{
    if n == 0 {
        return None;
    }
    let mut r = n;
    let mut s = b % n;
    let mut x = 0;
    let mut y = 1;
    while s > 0 {
        (x, y) = (y, less_multiple(n, x, r / s, y));
        (r, s) = (s, r % s);
    }
    Some(Cofactor {
        divisor: r,
        factor: x,
    })
}
