//! The codes of a pair of rings, taken apart into their sides and joined.
ghost use Rattle.std.specs.Prelude.{◌≡◌, ◌<◌};
ghost use Rattle.ring.specs.Pair.{pair_size, joined as joined_of};
ghost use Rattle.pair.specs.Split.{both_split, split};

use crate::PairRing;
use ring::{Code, Ring};

/// The two codes that a code of the pair stands for.
#[derive(Clone, Copy)]
pub(crate) struct Sides {
    pub(crate) left: Code,
    pub(crate) right: Code,
}

impl<L: Ring, R: Ring> PairRing<L, R> {
    /// How many pairs there are.
    pub(crate) fn pair_size(&self) -> u32
        ensures { result ≡ pair_size (L.Ring.meaning self.now.left) (R.Ring.meaning self.now.right) }
    {
        self.left.size() * self.right.size()
    }

    /// The sides of a code, or none where a is no code of the pair.
    pub(crate) fn sides(&self, a: Code) -> Option<Sides>
        ensures { result ≡ split (L.Ring.meaning self.now.left) (R.Ring.meaning self.now.right) a }
    {
        if a as u32 >= self.pair_size() {
            return None;
        }
        let size = self.right.size();
        Some(Sides {
            left: (a as u32 / size) as Code,
            right: (a as u32 % size) as Code,
        })
    }

    /// The sides of two codes, or none where either is no code of the pair.
    pub(crate) fn both_sides(&self, a: Code, b: Code) -> Option<(Sides, Sides)>
        ensures { result ≡ both_split (L.Ring.meaning self.now.left) (R.Ring.meaning self.now.right) a b }
    {
        Some((self.sides(a)?, self.sides(b)?))
    }

    /// The code of the pair of x and y.
    pub(crate) fn joined(&self, x: Code, y: Code) -> Code
        requires left_code { x < (L.Ring.meaning self.now.left).size }
        requires right_code { y < (R.Ring.meaning self.now.right).size }
        ensures { result ≡ joined_of (L.Ring.meaning self.now.left) (R.Ring.meaning self.now.right) x y }
    {
        (x as u32 * self.right.size() + y as u32) as Code
    }
}
