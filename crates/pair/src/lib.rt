//! Pairs of coefficient rings: two rings that work side by side as one.
#![tactic(auto)]

ghost use Rattle.std.specs.Prelude.{◌≤◌};
ghost use Rattle.ring.specs.CoefficientRing.{largest_size};
ghost use Rattle.ring.specs.Pair.{pair_size};

mod making;
mod operations;
mod sides;

use ring::Ring;

/// The pairs of a code of one ring and a code of another. With Q the size of the right ring, (x, y) has code x·Q + y.
#[derive(Drop)]
pub struct PairRing<L: Ring, R: Ring> {
    left: L,
    right: R,
    ghost fits: { pair_size (L.Ring.meaning left) (R.Ring.meaning right) ≤ largest_size },
}
