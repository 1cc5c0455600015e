//! What polynomials are worked out with.

/// A coefficient ring and a term order side by side: what polynomials are worked out with.
#[derive(Clone, Copy, Drop)]
pub struct PolynomialRing<R, O> {
    pub ring: R,
    pub order: O,
}
