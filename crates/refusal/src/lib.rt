//! Why a call is refused: one enum for the whole library, and the number by which each case is known outside.
#![tactic(auto)]

ghost use Rattle.std.specs.Prelude.{◌≡◌, Some, decimal};
ghost use Rattle.refusal.specs.Number.{number};

use std::fmt;

/// Why a call was refused. A refused call leaves everything as it was.
#[derive(Clone, Copy, PartialEq, Eq, Debug)]
pub enum Refusal {
    /// The ring would not have 2 to 65,536 codes.
    RingSize = 1,
    /// A formula has more than 64 monomials.
    TooManyMonomials = 2,
    /// A coefficient is 0 or not below the size of the ring.
    CoefficientOutOfRange = 3,
    /// The terms of a formula do not fall strictly.
    TermsNotFalling = 4,
    /// A relation is the empty formula.
    EmptyFormula = 5,
    /// The workbook holds 64 lines.
    LinesFull = 6,
    /// The workbook's lines would have more than 2,048 monomials or more than 2,048 steps altogether.
    TablesFull = 7,
    /// An exponent would pass 255.
    ExponentTooLarge = 8,
    /// A sum would have more than 64 monomials.
    SumTooLong = 9,
    /// The steps allowed are used up, and another would be needed.
    AllowanceUsed = 10,
    /// The memory lent is too short for what would be written.
    MemoryTooShort = 11,
    /// The workbook is not complete.
    NotComplete = 12,
    /// The sheet is of another kind of ring or order.
    OtherKinds = 13,
    /// The bytes are no sheet: they end early or go on, a count is out of range, or a line is no formula.
    NotASheet = 14,
    /// A step of a sheet names no earlier line, or its coefficient is 0 or not below the size of the ring.
    StepOutOfRange = 15,
    /// A line of a sheet is not the sum of its steps.
    NotTheSum = 16,
    /// A job over the lines of a sheet is not settled.
    NotSettled = 17,
}

impl Refusal {
    /// The number by which the refusal is known on sheets, to hosts and in what a program prints.
    pub fn number(self) -> u8
        ensures { result ≡ number self }
    {
        self as u8
    }
}

/// The refusal's number.
impl From<Refusal> for u8 {
    ghost from_gives = { λ refusal byte. byte ≡ number refusal };

    fn from(refusal: Refusal) -> u8 {
        refusal.number()
    }
}

/// A refusal prints as its number.
impl fmt::Display for Refusal {
    ghost output = { λ refusal. Some (decimal (number refusal)) };

    fn fmt<W: fmt::Write>(&self, f: &mut fmt::Formatter<W>) -> fmt::Result {
        write!(f, "{}", self.number())
    }
}
