//! A formula in memory, to which steps are added.
ghost use Rattle.std.specs.Prelude.{◌≤◌, length};

use crate::MAX_MONOMIALS;
use arrayvec::ArrayVec;
use term::Monomial;

mod methods;

/// Memory for 64 monomials, which holds a formula. Its room is fixed, so that no call refuses for want of memory.
#[derive(Drop)]
pub struct WorkingFormula {
    monomials: ArrayVec<Monomial, MAX_MONOMIALS>,
    ghost few: { length monomials.items ≤ 64 },
}
