//! Adding a step, against the sum worked out at each term.
use crate::checks::{Answer, with_answer};
use crate::model::{Counters, Model, packed_list, random_term};
use crate::plain;
use crate::plain::{Plain, Term};
use crate::random::Random;
use crate::trial::Trial;
use formula::WorkingFormula;
use refusal::Refusal;
use ring::Ring;
use std::alloc::Global;
use std::process::Abort;
use std::test::*;
use term::{Monomial, Order};

/// A formula, and a step that is added to it.
#[derive(Clone, Copy)]
pub(crate) struct Parts<'a> {
    pub(crate) formula: &'a [Plain],
    pub(crate) factor: Plain,
    pub(crate) line: &'a [Plain],
}

/// The coefficient of a list at a term.
fn coefficient(counters: Counters, list: &[Plain], t: Term) -> u32 {
    list.iter()
        .filter(|m| m.term == t)
        .fold(0, |code, m| counters.sum(code, m.code))
}

impl Parts<'_> {
    /// The term of the product of the factor and a monomial.
    fn product(&self, m: &Plain) -> Term {
        plain::product(self.factor.term, m.term)
    }

    /// The coefficient of the sum at a term.
    fn coefficient(&self, counters: Counters, t: Term) -> u32 {
        let product = plain::quotient(t, self.factor.term).map_or(0, |s| {
            counters.product(self.factor.code, coefficient(counters, self.line, s))
        });
        counters.sum(coefficient(counters, self.formula, t), product)
    }

    /// Whether a term is in the formula.
    fn in_formula(&self, t: Term) -> bool {
        self.formula.iter().any(|m| m.term == t)
    }

    /// The number of terms at which the sum is not 0.
    fn count(&self, counters: Counters) -> usize {
        let in_formula = self
            .formula
            .iter()
            .filter(|m| self.coefficient(counters, m.term) != 0)
            .count();
        let elsewhere = self
            .line
            .iter()
            .map(|m| self.product(m))
            .filter(|t| !self.in_formula(*t) && self.coefficient(counters, *t) != 0)
            .count();
        in_formula.saturating_add(elsewhere)
    }

    /// Whether an exponent of a product passes 255.
    fn passes_255(&self) -> bool {
        self.line
            .iter()
            .any(|m| plain::bare(self.product(m)).is_none())
    }

    /// What adding the step is to answer.
    fn verdict(&self, counters: Counters) -> Answer {
        if self.passes_255() {
            Err(Refusal::ExponentTooLarge)
        } else if self.count(counters) > 64 {
            Err(Refusal::SumTooLong)
        } else {
            Ok(())
        }
    }

    /// Whether a monomial has the coefficient that the sum has at its term, one that is not 0.
    fn has(&self, counters: Counters, m: Plain) -> bool {
        m.code != 0 && m.code == self.coefficient(counters, m.term)
    }

    /// Whether a list is the sum: as many monomials as the sum has terms, each with its coefficient and before the one in front of it.
    fn is_sum(&self, model: Model, list: &[Monomial]) -> bool {
        list.len() == self.count(model.counters)
            && list
                .iter()
                .all(|m| self.has(model.counters, Plain::from(*m)))
            && list.is_sorted_by(|m, n| {
                model
                    .rule
                    .is_before(Plain::from(*n).term, Plain::from(*m).term)
            })
    }
}

/// A list in memory.
fn held(list: &[Plain], heap: Global) -> Result<WorkingFormula, Fail> {
    let packed = packed_list(list, heap)?;
    Ok(WorkingFormula::holding(packed.as_slice())?)
}

/// A random factor with exponents below a bound, every other time the unit term.
fn random_factor(random: &mut Random, size: u32, bound: u32) -> Plain {
    let code = random.below(size);
    if random.below(2) == 0 {
        Plain::new([0; 6], code)
    } else {
        Plain::new(random_term(random, bound), code)
    }
}

/// A bound of exponents: small ones make like terms, large ones pass 255.
fn random_bound(random: &mut Random) -> u32 {
    match random.below(4) {
        0 => 2,
        1 => 3,
        2 => 5,
        _ => 140,
    }
}

impl<R: Ring, O: Order, A: Abort> Trial<'_, R, O, A> {
    /// Compares adding a step with the sum worked out at each term, or with the refusal that is due and memory as it was, and gives the answer.
    pub(crate) fn sum_agrees(&self, parts: &Parts<'_>) -> Result<Answer, Fail> {
        let model = self.model;
        let before = held(parts.formula, self.heap)?;
        let mut work = held(parts.formula, self.heap)?;
        let line = held(parts.line, self.heap)?;
        let factor = Monomial::try_from(parts.factor).unwrap_or_default();
        let answer = self.polynomials.add_step(&mut work, factor, &line);
        assert_eq!(self.rt; answer, parts.verdict(model.counters), "answer, {model:?}");
        let right = match answer {
            Ok(()) => parts.is_sum(model, work.monomials()),
            Err(_) => work.monomials() == before.monomials(),
        };
        assert!(self.rt; right, "what is held after {answer:?}, {model:?}");
        Ok(answer)
    }

    /// Compares adding random steps, every fourth time of the formula itself; each answer is to come.
    pub(crate) fn sums_agree(&self, random: &mut Random) -> Result<(), Fail> {
        let model = self.model;
        let mut seen = 0;
        for _ in 0..400u32 {
            let bound = random_bound(random);
            let formula = model.random_formula(random, 64, bound, self.heap)?;
            let other = model.random_formula(random, 64, bound, self.heap)?;
            let factor = random_factor(random, model.counters.size(), bound);
            let line = if random.below(4) == 0 {
                formula.as_slice()
            } else {
                other.as_slice()
            };
            let parts = Parts {
                formula: formula.as_slice(),
                factor,
                line,
            };
            seen = with_answer(seen, self.sum_agrees(&parts)?);
        }
        assert_eq!(self.rt;
            seen,
            0b11_0000_0001,
            "granted, 8 and 9 are to come, {model:?}"
        );
        Ok(())
    }
}
