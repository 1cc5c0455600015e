//! Terms, monomials and orders in plain words: six exponents in an array, packed and unpacked byte by byte.
use std::array;
use std::cmp::Ordering;
use std::num::TryFromIntError;
use term::Monomial;

/// The exponents of a to f.
pub(crate) type Term = [u32; 6];

/// A term and a coefficient code.
#[derive(Clone, Copy)]
pub(crate) struct Plain {
    pub(crate) term: Term,
    pub(crate) code: u32,
}

impl Plain {
    /// A term with a code.
    pub(crate) fn new(term: Term, code: u32) -> Plain {
        Plain { term, code }
    }
}

/// A packed monomial taken apart: a byte for each exponent, then two for the code.
impl From<Monomial> for Plain {
    fn from(m: Monomial) -> Plain {
        let [a, b, c, d, e, f, high, low] = m.bits.to_be_bytes();
        Plain {
            term: [a, b, c, d, e, f].map(u32::from),
            code: u16::from_be_bytes([high, low]).into(),
        }
    }
}

/// A monomial packed, or an error where an exponent passes 255 or the code 65,535.
impl TryFrom<Plain> for Monomial {
    type Error = TryFromIntError;

    fn try_from(m: Plain) -> Result<Monomial, TryFromIntError> {
        let [a, b, c, d, e, f] = m.term.try_map(u8::try_from)?;
        let [high, low] = u16::try_from(m.code)?.to_be_bytes();
        Ok(Monomial {
            bits: u64::from_be_bytes([a, b, c, d, e, f, high, low]),
        })
    }
}

/// The packed form of a term with code 0, or none where an exponent passes 255.
pub(crate) fn bare(term: Term) -> Option<Monomial> {
    Monomial::try_from(Plain::new(term, 0)).ok()
}

/// The product of two terms: exponents are added.
pub(crate) fn product(s: Term, t: Term) -> Term {
    array::from_fn(|k| s[k].wrapping_add(t[k]))
}

/// The term s by the term t: exponents are subtracted, and there is none where one of t is larger.
pub(crate) fn quotient(s: Term, t: Term) -> Option<Term> {
    array::try_from_fn(|k| s[k].checked_sub(t[k]).ok_or(())).ok()
}

/// The least common multiple of two terms: the larger exponent of each register.
pub(crate) fn lcm(s: Term, t: Term) -> Term {
    array::from_fn(|k| s[k].max(t[k]))
}

/// The sum of exponent times weight.
pub(crate) fn weighted(weights: Term, t: Term) -> u32 {
    weights
        .iter()
        .zip(&t)
        .fold(0u32, |sum, (weight, exponent)| {
            sum.wrapping_add(weight.wrapping_mul(*exponent))
        })
}

/// The sum of the exponents.
pub(crate) fn degree(t: Term) -> u32 {
    weighted([1; 6], t)
}

/// How s stands to t by the last register that differs: the smaller exponent is greater.
fn by_last_register(s: Term, t: Term) -> Ordering {
    t.iter().rev().cmp(s.iter().rev())
}

/// The two orders that weights stand over.
#[derive(Clone, Copy, Debug)]
pub(crate) enum Below {
    Lex,
    Reverse,
}

/// An order in plain words: weights and what decides a tie. Weights that are all 0 leave every tie, as an order without weights does.
#[derive(Clone, Copy, Debug)]
pub(crate) struct Rule {
    pub(crate) weights: Term,
    pub(crate) below: Below,
}

impl Rule {
    /// The order by weights over another.
    pub(crate) fn new(weights: Term, below: Below) -> Rule {
        Rule { weights, below }
    }

    /// An order without weights.
    pub(crate) fn unweighted(below: Below) -> Rule {
        Rule::new([0; 6], below)
    }

    /// How s stands to t: by weights, then under lex by the first register that differs, under reverse by the degree and then the last register.
    pub(crate) fn compare(self, s: Term, t: Term) -> Ordering {
        let by_weights = weighted(self.weights, s).cmp(&weighted(self.weights, t));
        by_weights.then_with(|| match self.below {
            Below::Lex => s.cmp(&t),
            Below::Reverse => degree(s)
                .cmp(&degree(t))
                .then_with(|| by_last_register(s, t)),
        })
    }

    /// Whether s is before t.
    pub(crate) fn is_before(self, s: Term, t: Term) -> bool {
        self.compare(s, t).is_lt()
    }
}
