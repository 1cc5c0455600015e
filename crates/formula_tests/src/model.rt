//! A ring and an order in plain words, and random formulas over them.
use crate::plain::{Plain, Rule, Term};
use crate::random::Random;
use std::alloc::{AllocError, Global};
use std::array;
use term::Monomial;

/// A ring as two counters side by side; the left one of a residue ring has one place only.
#[derive(Clone, Copy, Debug)]
pub(crate) struct Counters {
    pub(crate) left: u32,
    pub(crate) right: u32,
}

/// The rest of x by n, and 0 where n is 0.
fn rest(x: u32, n: u32) -> u32 {
    x.checked_rem(n).unwrap_or(0)
}

/// How often n goes into x, and 0 where n is 0.
fn times_in(x: u32, n: u32) -> u32 {
    x.checked_div(n).unwrap_or(0)
}

impl Counters {
    /// The number of codes.
    pub(crate) fn size(self) -> u32 {
        self.left.wrapping_mul(self.right)
    }

    /// The code of what the two counters show after they wrap.
    fn wrapped(self, left: u32, right: u32) -> u32 {
        rest(left, self.left)
            .wrapping_mul(self.right)
            .wrapping_add(rest(right, self.right))
    }

    /// The sum of two codes: both counters go on. As the product it works on each counter, in words of its own.
    pub(crate) fn sum(self, a: u32, b: u32) -> u32 {
        let left = times_in(a, self.right).wrapping_add(times_in(b, self.right));
        let right = rest(a, self.right).wrapping_add(rest(b, self.right));
        self.wrapped(left, right)
    }

    /// The product of two codes, on each counter.
    pub(crate) fn product(self, a: u32, b: u32) -> u32 {
        let left = times_in(a, self.right).wrapping_mul(times_in(b, self.right));
        let right = rest(a, self.right).wrapping_mul(rest(b, self.right));
        self.wrapped(left, right)
    }

    /// A random code that is not 0, every other time a multiple of a large part of the ring's size, so that products vanish.
    fn random_code(self, random: &mut Random) -> u32 {
        let size = self.size();
        let code = if random.below(2) == 0 {
            random.below(size)
        } else {
            let part = times_in(size, random.below(3).wrapping_add(2));
            rest(part.wrapping_mul(random.below(3).wrapping_add(1)), size)
        };
        code.max(1)
    }
}

/// A ring and an order in plain words.
#[derive(Clone, Copy, Debug)]
pub(crate) struct Model {
    pub(crate) counters: Counters,
    pub(crate) rule: Rule,
}

/// A random term with exponents below a bound.
pub(crate) fn random_term(random: &mut Random, bound: u32) -> Term {
    array::from_fn(|_| random.below(bound))
}

impl Model {
    /// The greatest term of a list, of those before the last one so far.
    fn next_term(self, terms: &[Term], last: Option<Term>) -> Option<Term> {
        terms
            .iter()
            .copied()
            .filter(|t| last.is_none_or(|s| self.rule.is_before(*t, s)))
            .max_by(|s, t| self.rule.compare(*s, *t))
    }

    /// The terms of a list once each, greatest first, with random coefficients.
    fn sorted(
        self,
        random: &mut Random,
        terms: &[Term],
        heap: Global,
    ) -> Result<Vec<Plain>, AllocError> {
        let mut formula = Vec::new(heap);
        let mut last = None;
        // As many turns as there are terms, since every loop is proved to end.
        for _ in terms {
            let Some(t) = self.next_term(terms, last) else {
                return Ok(formula);
            };
            formula.push(Plain::new(t, self.counters.random_code(random)))?;
            last = Some(t);
        }
        Ok(formula)
    }

    /// A random formula of at most so many monomials, with exponents below a bound.
    pub(crate) fn random_formula(
        self,
        random: &mut Random,
        most: u32,
        bound: u32,
        heap: Global,
    ) -> Result<Vec<Plain>, AllocError> {
        let mut terms = Vec::new(heap);
        for _ in 0..random.below(most.wrapping_add(1)) {
            terms.push(random_term(random, bound))?;
        }
        self.sorted(random, terms.as_slice(), heap)
    }
}

/// The packed monomials of a list, with 0 for one that does not pack.
pub(crate) fn packed_list(list: &[Plain], heap: Global) -> Result<Vec<Monomial>, AllocError> {
    list.iter()
        .map(|m| Monomial::try_from(*m).unwrap_or_default())
        .collect(heap)
}
