//! Making the ring of a plan.
ghost use Rattle.std.specs.Prelude.{◌≡◌};
ghost use Rattle.ring_plan.specs.Rings.{described, described_pair, described_triple, granted, seen};

use crate::{AnyRing, ResiduePair, ResidueTriple, RingPlan};
use either::Either;
use pair::PairRing;
use refusal::Refusal;
use residue::ResidueRing;

impl RingPlan {
    /// The ring of the plan; refused with `RingSize` exactly where it or a part of it has too few or too many codes.
    pub fn ring(self) -> Result<AnyRing, Refusal>
        ensures { seen described result ≡ granted self }
    {
        match self {
            RingPlan::Residue(n) => Ok(Either::Left(ResidueRing::new(n)?)),
            RingPlan::Pair(p, q) => Ok(Either::Right(Either::Left(residue_pair(p, q)?))),
            RingPlan::Triple(p, q, r) => Ok(Either::Right(Either::Right(residue_triple(p, q, r)?))),
        }
    }
}

/// The pair of the residues of p and of q.
fn residue_pair(p: u32, q: u32) -> Result<ResiduePair, Refusal>
    ensures { seen described_pair result ≡ granted (RingPlan.Pair p q) }
{
    let left = ResidueRing::new(p)?;
    let right = ResidueRing::new(q)?;
    PairRing::new(left, right)
}

/// The pair of that pair and the residues of r.
fn residue_triple(p: u32, q: u32, r: u32) -> Result<ResidueTriple, Refusal>
    ensures { seen described_triple result ≡ granted (RingPlan.Triple p q r) }
{
    let left = residue_pair(p, q)?;
    let right = ResidueRing::new(r)?;
    PairRing::new(left, right)
}
