//! The trait by which the monomials of a line are read, wherever they are kept.
ghost use Rattle.std.specs.Prelude.{◌≡◌, List, length, slice_index_or};
ghost use Rattle.formula.specs.Formula.{blank};
ghost use Rattle.term.specs.declared.monomial.Monomial.{Monomial};

use term::Monomial;

/// A list of monomials that is read by number.
pub trait Row {
    ghost monomials: { Self → List Monomial };

    /// How many monomials there are.
    fn length(&self) -> usize
        ensures { result ≡ length (monomials self.now) };

    /// The monomial of a number, counted from 0, and the number 0 past the end.
    fn monomial(&self, k: usize) -> Monomial
        ensures { result ≡ slice_index_or (monomials self.now) k blank };
}
