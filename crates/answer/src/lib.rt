//! What the commands of a script answer in any ring and by any order, and the text of each answer.
#![tactic(auto)]

mod calls;
mod formulas;
mod text;

pub use calls::{add, compare, operate, show};
use formula::WorkingFormula;
use ring::{Bezout, Code};
use std::cmp::Ordering;

/// What a command without formulas answers that is not refused, one line of the output.
#[derive(Clone, Copy)]
pub enum Answer {
    /// A new ring, by its number of codes.
    Ring(u32),
    /// A new order, by the number of its kind.
    Order(u8),
    Code(Code),
    /// A quotient, if there is one.
    Quotient(Option<Code>),
    Gcd(Bezout),
    /// How a term stands to another.
    Comparison(Ordering),
}

/// A formula that a command answers, one line of the output. It is no `Answer`, since each of these would have its room.
#[derive(Drop)]
pub struct FormulaAnswer {
    /// The ring's one, which the text leaves out.
    pub one: Code,
    pub formula: WorkingFormula,
}
