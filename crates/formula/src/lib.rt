//! Formulas, which are lists of packed monomials: their checks, and adding a step to one.
#![tactic(auto)]

mod checks;
mod laws;
mod polynomial_ring;
mod row;
mod rows;
mod sum;
mod text;
mod working;

pub use checks::MAX_MONOMIALS;
pub use polynomial_ring::PolynomialRing;
pub use row::Row;
pub use text::FormulaText;
pub use working::WorkingFormula;
