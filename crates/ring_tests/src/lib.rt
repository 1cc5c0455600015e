//! Tests of the rings: every code of small rings against brute force, the corners of the largest ring, and numbers that are no codes.
#![tactic(auto)]

#[cfg(test)]
mod agreement;
#[cfg(test)]
mod brute;
#[cfg(test)]
mod pairs;
#[cfg(test)]
mod residues;
