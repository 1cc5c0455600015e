//! Making a pair of rings.
ghost use Rattle.std.specs.Prelude.{◌≡◌};
ghost use Rattle.pair.specs.Made.{made, parts_of};
ghost use Rattle.pair.specs.Paired.{TooLargeIsLeft};

use crate::PairRing;
use refusal::Refusal;
use ring::{MAX_SIZE, Ring};

impl<L: Ring + Drop, R: Ring + Drop> PairRing<L, R> {
    /// The ring of pairs; refused with `RingSize` exactly when the product of the sizes is above 65,536. Two rings that have too many pairs would stand for the left one.
    pub fn new(left: L, right: R) -> Result<PairRing<L, R>, Refusal>
        ensures value { parts_of result ≡ made (L.Ring.meaning left) (R.Ring.meaning right) left right }
        ensures too_large { TooLargeIsLeft (L.Ring.meaning left) (R.Ring.meaning right) }
    {
        too_large_is_left(&left, &right);
        if left.size() as u64 * right.size() as u64 > MAX_SIZE as u64 {
            return Err(Refusal::RingSize);
        }
        Ok(PairRing { left, right })
    }
}

/// Two rings that have too many pairs stand for the left one.
#[tactic(auto, using(crate::proofs::TooLarge::too_large_is_left))]
fn too_large_is_left<L: Ring, R: Ring>(left: &L, right: &R)
    ensures { TooLargeIsLeft (L.Ring.meaning left.now) (R.Ring.meaning right.now) }
{}
