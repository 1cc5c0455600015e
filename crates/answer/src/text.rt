//! The text of an answer.
ghost use Rattle.std.specs.Prelude.{Some};
ghost use Rattle.answer.specs.Texts.{text_of_answer, text_of_formula_answer};

use crate::{Answer, FormulaAnswer};
use formula::FormulaText;
use ring::Bezout;
use std::cmp::Ordering;
use std::fmt;

impl fmt::Display for Answer {
    ghost output = { λ answer. Some (text_of_answer answer) };

    fn fmt<W: fmt::Write>(&self, f: &mut fmt::Formatter<W>) -> fmt::Result {
        match self {
            Answer::Ring(size) => write!(f, "ring {size}"),
            Answer::Order(kind) => write!(f, "order {kind}"),
            Answer::Code(code) | Answer::Quotient(Some(code)) => write!(f, "{code}"),
            Answer::Quotient(None) => write!(f, "none"),
            Answer::Gcd(Bezout { g, u, v }) => write!(f, "{g} {u} {v}"),
            Answer::Comparison(Ordering::Less) => write!(f, "less"),
            Answer::Comparison(Ordering::Equal) => write!(f, "equal"),
            Answer::Comparison(Ordering::Greater) => write!(f, "greater"),
        }
    }
}

impl fmt::Display for FormulaAnswer {
    ghost output = { λ answer. Some (text_of_formula_answer answer) };

    fn fmt<W: fmt::Write>(&self, f: &mut fmt::Formatter<W>) -> fmt::Result {
        let text = FormulaText::with_one(self.one, self.formula.monomials());
        write!(f, "formula {text}")
    }
}
