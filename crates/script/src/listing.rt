//! The monomials that a line lists.
ghost use Rattle.std.specs.Prelude.{◌≡◌, ◌≤◌, length};

use term::Monomial;

mod methods;

/// How many monomials are kept: one more than a formula has at most, so that a list that is too long is known.
pub(crate) const MAX_LISTED: usize = 65;

/// The monomials that a line lists, or the first 65 of them where there are more.
#[derive(Clone, Copy)]
pub struct Listing {
    items: [Monomial; MAX_LISTED],
    len: usize,
    ghost few: { (len ≤ 65) × (length items ≡ 65) },
}
