//! The limits: exponents of 255, 64 monomials, products of coefficients that vanish, and which refusal comes first.
use crate::checks::Answer;
use crate::model::{Counters, Model};
use crate::plain::{Below, Plain, Rule, Term};
use crate::sums::Parts;
use crate::trial::Trial;
use formula::PolynomialRing;
use refusal::Refusal;
use residue::ResidueRing;
use std::alloc::{AllocError, Global};
use std::array;
use std::process::Abort;
use std::test::*;
use term::Reverse;

/// The ring of six codes with the order reverse, in plain words.
const SIX: Model = Model {
    counters: Counters { left: 1, right: 6 },
    rule: Rule {
        weights: [0; 6],
        below: Below::Reverse,
    },
};

const GRANTED: Answer = Ok(());

const OUT_OF_RANGE: Answer = Err(Refusal::CoefficientOutOfRange);

const NOT_FALLING: Answer = Err(Refusal::TermsNotFalling);

const TOO_MANY: Answer = Err(Refusal::TooManyMonomials);

const TOO_LARGE: Answer = Err(Refusal::ExponentTooLarge);

const TOO_LONG: Answer = Err(Refusal::SumTooLong);

/// A power of a register, which is counted from 0.
fn power(register: usize, exponent: u32) -> Term {
    array::from_fn(|k| if k == register { exponent } else { 0 })
}

/// A sum of powers of a: so many of them, from an exponent on, each with one code.
#[derive(Clone, Copy)]
struct Powers {
    first: u32,
    count: u32,
    code: u32,
}

impl Powers {
    /// Some powers of a.
    const fn new(first: u32, count: u32, code: u32) -> Powers {
        Powers { first, count, code }
    }

    /// The monomials, the largest exponent first.
    fn monomials(self, heap: Global) -> Result<Vec<Plain>, AllocError> {
        let end = self.first.saturating_add(self.count);
        (self.first..end)
            .rev()
            .map(|exponent| Plain::new(power(0, exponent), self.code))
            .collect(heap)
    }
}

impl<'a, A: Abort> Trial<'a, ResidueRing, Reverse, A> {
    /// Six codes under reverse.
    fn six(rt: &'a A, heap: Global) -> Result<Trial<'a, ResidueRing, Reverse, A>, Fail> {
        Ok(Trial {
            rt,
            heap,
            polynomials: PolynomialRing {
                ring: ResidueRing::new(6)?,
                order: Reverse,
            },
            model: SIX,
        })
    }

    /// The answer to adding a factor times powers to others.
    fn powers_added(&self, powers: Powers, factor: Plain, line: Powers) -> Result<Answer, Fail> {
        let formula = powers.monomials(self.heap)?;
        let line = line.monomials(self.heap)?;
        self.sum_agrees(&Parts {
            formula: formula.as_slice(),
            factor,
            line: line.as_slice(),
        })
    }
}

#[test]
fn exponents_up_to_255(rt: HostRuntime) -> Result<(), Fail> {
    let six = Trial::six(&rt, rt.alloc())?;
    let cases = [
        (0, 1, GRANTED),
        (0, 2, GRANTED),
        (1, 1, TOO_LARGE),
        (1, 2, TOO_LARGE),
        (1, 0, TOO_LARGE),
        (255, 5, TOO_LARGE),
    ];
    for k in 0..6usize {
        let line = [Plain::new(power(k, 255), 3), Plain::new([0; 6], 3)];
        for (exponent, code, answer) in cases {
            let parts = Parts {
                formula: &line,
                factor: Plain::new(power(k, exponent), code),
                line: &line,
            };
            assert_eq!(rt; six.sum_agrees(&parts)?, answer, "{}", k);
        }
    }
    Ok(())
}

#[test]
fn sums_of_64_and_65(rt: HostRuntime) -> Result<(), Fail> {
    let six = Trial::six(&rt, rt.alloc())?;
    let cases = [
        (63, 0, 1, Powers::new(63, 1, 1), GRANTED),
        (63, 0, 1, Powers::new(63, 2, 1), TOO_LONG),
        (64, 0, 1, Powers::new(63, 2, 1), TOO_LONG),
        (64, 0, 5, Powers::new(63, 2, 1), GRANTED),
        (64, 0, 5, Powers::new(0, 64, 1), GRANTED),
        (64, 0, 2, Powers::new(64, 1, 3), GRANTED),
        (64, 0, 3, Powers::new(64, 1, 3), TOO_LONG),
        (64, 0, 0, Powers::new(64, 64, 3), GRANTED),
        (0, 192, 1, Powers::new(0, 64, 1), GRANTED),
        (64, 191, 1, Powers::new(0, 64, 1), TOO_LONG),
        (64, 193, 1, Powers::new(0, 64, 1), TOO_LARGE),
        (64, 192, 2, Powers::new(64, 1, 3), TOO_LARGE),
        (64, 192, 0, Powers::new(64, 1, 3), TOO_LARGE),
    ];
    for (count, exponent, code, line, answer) in cases {
        let factor = Plain::new(power(0, exponent), code);
        let got = six.powers_added(Powers::new(0, count, 1), factor, line)?;
        assert_eq!(rt; got, answer, "{count} {exponent} {code}");
    }
    Ok(())
}

#[test]
fn lists_of_64_and_65(rt: HostRuntime) -> Result<(), Fail> {
    let six = Trial::six(&rt, rt.alloc())?;
    let cases = [
        (64, 1, GRANTED),
        (64, 0, OUT_OF_RANGE),
        (64, 6, OUT_OF_RANGE),
        (65, 1, TOO_MANY),
        (65, 0, TOO_MANY),
    ];
    for (count, code, answer) in cases {
        let list = Powers::new(0, count, code).monomials(rt.alloc())?;
        assert_eq!(rt; six.check_agrees(list.as_slice())?, answer);
    }
    Ok(())
}

#[test]
fn the_first_refusal_is_given(rt: HostRuntime) -> Result<(), Fail> {
    let six = Trial::six(&rt, rt.alloc())?;
    let cases = [
        ([(3, 1), (2, 1), (1, 1)], GRANTED),
        ([(2, 1), (3, 1), (1, 1)], NOT_FALLING),
        ([(2, 1), (2, 1), (1, 1)], NOT_FALLING),
        ([(3, 1), (1, 1), (2, 1)], NOT_FALLING),
        ([(2, 1), (3, 1), (1, 0)], OUT_OF_RANGE),
        ([(2, 1), (2, 1), (1, 6)], OUT_OF_RANGE),
        ([(3, 5), (1, 7), (2, 1)], OUT_OF_RANGE),
    ];
    for (list, answer) in cases {
        let list = list.map(|(exponent, code)| Plain::new(power(2, exponent), code));
        assert_eq!(rt; six.check_agrees(&list)?, answer);
    }
    Ok(())
}
