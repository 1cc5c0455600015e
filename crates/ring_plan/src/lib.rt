//! The rings that a script can ask for: residues, pairs of residues, and pairs whose left part is such a pair.
#![tactic(auto)]

mod making;

use either::Either;
use pair::PairRing;
use residue::ResidueRing;

/// A pair of residue rings.
pub type ResiduePair = PairRing<ResidueRing, ResidueRing>;

/// A pair of such a pair and a residue ring.
pub type ResidueTriple = PairRing<ResiduePair, ResidueRing>;

/// A ring of a script.
pub type AnyRing = Either<ResidueRing, Either<ResiduePair, ResidueTriple>>;

/// A ring that a script asks for, by the sizes of the residue rings that it is made of.
#[derive(Clone, Copy)]
pub enum RingPlan {
    Residue(u32),
    Pair(u32, u32),
    /// The pair of the pair of the first two and the third.
    Triple(u32, u32, u32),
}
