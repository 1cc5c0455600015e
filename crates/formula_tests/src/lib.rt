//! Tests of terms, orders and formulas: random ones against plain implementations, and the limits.
#![tactic(auto)]

#[cfg(test)]
mod checks;
#[cfg(test)]
mod formulas;
#[cfg(test)]
mod limits;
#[cfg(test)]
mod model;
#[cfg(test)]
mod plain;
#[cfg(test)]
mod random;
#[cfg(test)]
mod sums;
#[cfg(test)]
mod terms;
#[cfg(test)]
mod trial;
