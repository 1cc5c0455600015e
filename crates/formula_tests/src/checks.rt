//! The checks of a list, on random lists with no fault, one or two.
use crate::model::{Counters, Model, packed_list};
use crate::plain::{Plain, Rule};
use crate::random::Random;
use crate::trial::Trial;
use formula::WorkingFormula;
use refusal::Refusal;
use ring::Ring;
use std::alloc::{AllocError, Global};
use std::process::Abort;
use std::test::*;
use term::Order;

/// What a call answers that gives nothing.
pub(crate) type Answer = Result<(), Refusal>;

/// Whether every code is a coefficient.
fn coded(counters: Counters, list: &[Plain]) -> bool {
    list.iter().all(|m| m.code != 0 && m.code < counters.size())
}

/// Whether each term is before every one in front of it.
fn falling(rule: Rule, list: &[Plain]) -> bool {
    list.iter().enumerate().all(|(k, m)| {
        list.iter()
            .take(k)
            .all(|earlier| rule.is_before(m.term, earlier.term))
    })
}

/// What the checks of a list are to answer.
fn verdict(model: Model, list: &[Plain]) -> Answer {
    if list.len() > 64 {
        Err(Refusal::TooManyMonomials)
    } else if !coded(model.counters, list) {
        Err(Refusal::CoefficientOutOfRange)
    } else if !falling(model.rule, list) {
        Err(Refusal::TermsNotFalling)
    } else {
        Ok(())
    }
}

/// A monomial with a fault, which a random number names: its code 0 or too large, or the least or the greatest term.
fn faulty(m: Plain, fault: u32, size: u32) -> Plain {
    match fault {
        0 => Plain::new(m.term, 0),
        1 => Plain::new(m.term, size.min(65_535)),
        2 => Plain::new([0; 6], m.code),
        3 => Plain::new([255; 6], m.code),
        _ => m,
    }
}

/// A list with a fault in a random place: a faulty monomial, or one that stands there twice.
fn spoiled(
    random: &mut Random,
    size: u32,
    list: &[Plain],
    heap: Global,
) -> Result<Vec<Plain>, AllocError> {
    let fault = random.below(5);
    let place = random.below((list.len() & 0xff) as u32) as usize;
    let mut out = Vec::new(heap);
    for (k, m) in list.iter().enumerate() {
        if k == place {
            out.push(faulty(*m, fault, size))?;
        }
        if k != place || fault == 4 {
            out.push(*m)?;
        }
    }
    Ok(out)
}

/// A set of the numbers of answers, 0 for one that is granted, with one more.
pub(crate) fn with_answer(seen: u32, answer: Answer) -> u32 {
    let number = answer.err().map_or(0, Refusal::number);
    seen | 1u32.wrapping_shl(number.into())
}

/// A random formula of up to 70 monomials, with no fault, one or two.
fn random_list(model: Model, random: &mut Random, heap: Global) -> Result<Vec<Plain>, AllocError> {
    let mut list = model.random_formula(random, 70, 4, heap)?;
    for _ in 0..random.below(3) {
        list = spoiled(random, model.counters.size(), list.as_slice(), heap)?;
    }
    Ok(list)
}

impl<R: Ring, O: Order, A: Abort> Trial<'_, R, O, A> {
    /// Compares what the checks answer with what they are to answer, and gives that; above 64 monomials memory refuses the list too.
    pub(crate) fn check_agrees(&self, list: &[Plain]) -> Result<Answer, Fail> {
        let model = self.model;
        let packed = packed_list(list, self.heap)?;
        let answer = self.polynomials.check(packed.as_slice());
        let is_held = WorkingFormula::holding(packed.as_slice()).is_ok();
        assert_eq!(self.rt;
            (answer, is_held),
            (verdict(model, list), list.len() <= 64),
            "check, {model:?}"
        );
        Ok(answer)
    }

    /// Compares the checks on random lists; each answer is to come.
    pub(crate) fn checks_agree(&self, random: &mut Random) -> Result<(), Fail> {
        let model = self.model;
        let mut seen = 0;
        for _ in 0..1_000u32 {
            let list = random_list(model, random, self.heap)?;
            seen = with_answer(seen, self.check_agrees(list.as_slice())?);
        }
        assert_eq!(self.rt;
            seen,
            0b1_1101,
            "granted, 2, 3 and 4 are to come, {model:?}"
        );
        Ok(())
    }
}
