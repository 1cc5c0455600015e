//! What commands ask for, with their words read.
use crate::Listing;
use either::Either;
use ring::Code;
use term::{Lex, Monomial, Reverse, Weight};

/// An order that a weight can stand over.
pub type PlainOrder = Either<Lex, Reverse>;

/// An order of a script: lex, reverse, or a weight over one of them.
pub type AnyOrder = Either<PlainOrder, Weight<PlainOrder>>;

/// An operation of the ring on codes.
#[derive(Clone, Copy)]
pub enum Operation {
    One,
    Sum(Code, Code),
    Negative(Code),
    Product(Code, Code),
    Annihilator(Code),
    Residue(Code, Code),
    Quotient(Code, Code),
    Gcd(Code, Code),
}

/// A sum that a script asks for: a formula plus a monomial times another.
#[derive(Clone, Copy)]
pub struct Addition {
    pub formula: Listing,
    pub factor: Monomial,
    pub line: Listing,
}
