//! The text of a formula.
ghost use Rattle.std.specs.Prelude.{◌≡◌, ◌||◌, Some, nat_lt};
ghost use Rattle.order.specs.Term.{exponents};
ghost use Rattle.formula.specs.Formula.{term};
ghost use Rattle.formula.specs.Text.{TextReadings, formula_text, monomial_text, power_text, powers_text, rest_text};

use crate::laws::text_readings;
use ring::{Code, Ring};
use std::fmt;
use term::Monomial;

/// A power of a register, with `*` before it where a factor stands before it.
#[derive(Clone, Copy)]
struct Power {
    after: bool,
    letter: char,
    exponent: u8,
}

impl fmt::Display for Power {
    ghost output = { λ p. Some (power_text p.after p.letter p.exponent) };

    fn fmt<W: fmt::Write>(&self, f: &mut fmt::Formatter<W>) -> fmt::Result {
        let letter = self.letter;
        let exponent = self.exponent;
        match (self.after, self.exponent) {
            (_, 0) => Ok(()),
            (false, 1) => write!(f, "{letter}"),
            (true, 1) => write!(f, "*{letter}"),
            (false, _) => write!(f, "{letter}^{exponent}"),
            (true, _) => write!(f, "*{letter}^{exponent}"),
        }
    }
}

/// The powers of a term, with `*` before the first where a coefficient stands before it.
#[derive(Clone, Copy)]
struct Powers {
    after: bool,
    monomial: Monomial,
}

impl fmt::Display for Powers {
    ghost output = { λ p. Some (powers_text p.after 97 (exponents (term p.monomial))) };

    fn fmt<W: fmt::Write>(&self, f: &mut fmt::Formatter<W>) -> fmt::Result {
        let mut after = self.after;
        for (letter, exponent) in ('a'..='f').zip(self.monomial.exponents()) {
            let power = Power {
                after,
                letter,
                exponent,
            };
            write!(f, "{power}")?;
            after |= 0 < exponent;
        }
        Ok(())
    }
}

/// A monomial, and the code that is left out where a register follows.
#[derive(Clone, Copy)]
struct MonomialText {
    one: Code,
    monomial: Monomial,
}

impl fmt::Display for MonomialText {
    ghost output = { λ t. Some (monomial_text t.one t.monomial) };

    fn fmt<W: fmt::Write>(&self, f: &mut fmt::Formatter<W>) -> fmt::Result {
        let monomial = self.monomial;
        let code = monomial.coefficient();
        if code == self.one && 0 < monomial.degree() {
            let powers = Powers {
                after: false,
                monomial,
            };
            write!(f, "{powers}")
        } else {
            let powers = Powers {
                after: true,
                monomial,
            };
            write!(f, "{code}{powers}")
        }
    }
}

/// Monomials, each with `+` before it.
#[derive(Clone, Copy)]
struct RestText<'a> {
    one: Code,
    monomials: &'a [Monomial],
}

impl fmt::Display for RestText<'_> {
    ghost output = { λ t. Some (rest_text t.one t.monomials.now) };

    fn fmt<W: fmt::Write>(&self, f: &mut fmt::Formatter<W>) -> fmt::Result {
        let one = self.one;
        for m in self.monomials {
            let text = MonomialText { one, monomial: *m };
            write!(f, "+{text}")?;
        }
        Ok(())
    }
}

/// A formula as text: its monomials joined by `+`, each a coefficient and powers of registers joined by `*`.
/// A coefficient that is the ring's one is left out where a register follows, and the empty formula is `0`.
#[derive(Clone, Copy)]
pub struct FormulaText<'a> {
    one: Code,
    monomials: &'a [Monomial],
}

impl<'a> FormulaText<'a> {
    /// The text of a list of monomials over a ring.
    pub fn new<R: Ring>(ring: &R, monomials: &'a [Monomial]) -> FormulaText<'a>
        ensures one { result.one ≡ (R.Ring.meaning ring.now).one }
        ensures monomials { result.monomials.now ≡ monomials.now }
        ensures readings { TextReadings }
    {
        text_readings();
        FormulaText {
            one: ring.one(),
            monomials,
        }
    }

    /// The text of a list of monomials over a ring whose one has this code.
    pub fn with_one(one: Code, monomials: &'a [Monomial]) -> FormulaText<'a>
        ensures one { result.one ≡ one }
        ensures monomials { result.monomials.now ≡ monomials.now }
    {
        FormulaText { one, monomials }
    }
}

impl fmt::Display for FormulaText<'_> {
    ghost output = { λ t. Some (formula_text t.one t.monomials.now) };

    fn fmt<W: fmt::Write>(&self, f: &mut fmt::Formatter<W>) -> fmt::Result {
        match self.monomials {
            [] => write!(f, "0"),
            [head, rest @ ..] => {
                let head = MonomialText {
                    one: self.one,
                    monomial: *head,
                };
                let rest = RestText {
                    one: self.one,
                    monomials: rest,
                };
                write!(f, "{head}{rest}")
            }
        }
    }
}
