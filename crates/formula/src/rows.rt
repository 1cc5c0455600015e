//! A formula in memory, read as a line.
ghost use Rattle.formula.specs.Held.{held};

use crate::{Row, WorkingFormula};
use term::Monomial;

impl Row for WorkingFormula {
    ghost monomials = { held };

    fn length(&self) -> usize {
        self.monomials().len()
    }

    fn monomial(&self, k: usize) -> Monomial {
        self.monomials().get(k).copied().unwrap_or_default()
    }
}
