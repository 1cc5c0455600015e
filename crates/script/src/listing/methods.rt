//! What is listed, and listing one more.
ghost use Rattle.std.specs.Prelude.{◌≡◌, [], ◌∷◌, ◌++◌, take};
ghost use Rattle.script.specs.Listed.{listed, max_listed};

use crate::listing::{Listing, MAX_LISTED};
use term::Monomial;

impl Listing {
    /// The empty list.
    pub(crate) fn new() -> Listing
        ensures { listed result ≡ [] }
    {
        Listing {
            items: [Monomial { bits: 0 }; MAX_LISTED],
            len: 0,
        }
    }

    /// The monomials that are kept.
    pub fn monomials(&self) -> &[Monomial]
        ensures { result.now ≡ listed self.now }
    {
        let len = self.len;
        &self.items[0..len]
    }

    /// Lists one more monomial, which is kept where fewer than 65 are.
    pub(crate) fn push(&mut self, m: Monomial)
        ensures { listed self.new ≡ take max_listed (listed self.old ++ (m ∷ [])) }
    {
        if self.len < MAX_LISTED {
            let n = self.len;
            self.items[n] = m;
            self.len = n + 1;
        }
    }
}
