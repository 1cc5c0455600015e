//! Adding a step, which is a monomial times a line, to a formula in memory.
ghost use Rattle.std.specs.Prelude.{◌≡◌, true, length, slice_index_or, MatchResult};
ghost use Rattle.std.specs.List.{prefix_len};
ghost use Rattle.order.specs.Term.{product};
ghost use Rattle.term.specs.Packed.{fits};
ghost use Rattle.term.specs.declared.monomial.Monomial.{Monomial};
ghost use Rattle.formula.specs.Formula.{blank, is_after, term};
ghost use Rattle.formula.specs.Held.{Appended, NoRoom, ProductIn, Unchanged, held, outcome, shown};
ghost use Rattle.formula.specs.Laws.{AdditionLaw};
ghost use Rattle.formula.specs.Sum.{added, is_beside, joined, merged, multiplied, plus, products_fit, times, unjoined};

use crate::laws::addition_law;
use crate::{PolynomialRing, Row, WorkingFormula};
use refusal::Refusal;
use ring::Ring;
use term::{Monomial, Order};

impl<R: Ring, O: Order> PolynomialRing<R, O> {
    /// Adds factor times line to the formula in memory. It refuses where an exponent of a product passes 255, then where the sum has more than 64 monomials, and changes nothing then.
    pub fn add_step<M: Row>(
        &self,
        work: &mut WorkingFormula,
        factor: Monomial,
        line: &M,
    ) -> Result<(), Refusal>
        ensures value { shown result (held work.new) ≡ added (R.Ring.meaning self.now.ring) (O.Order.meaning self.now.order) (held work.old) factor (M.Row.monomials line.now) }
        ensures unchanged { Unchanged result work.old work.new }
        ensures law { AdditionLaw (R.Ring.meaning self.now.ring) (O.Order.meaning self.now.order) }
    {
        addition_law(self);
        let sum = self.step_sum(work.monomials(), &Multiple { factor, line })?;
        *work = sum;
        Ok(())
    }

    /// The sum of a formula and a multiple of a line, in new memory.
    fn step_sum<M: Row>(
        &self,
        formula: &[Monomial],
        multiple: &Multiple<'_, M>,
    ) -> Result<WorkingFormula, Refusal>
        ensures { outcome result ≡ added (R.Ring.meaning self.now.ring) (O.Order.meaning self.now.order) formula.now multiple.now.factor (M.Row.monomials multiple.now.line.now) }
    {
        if !multiple.fits() {
            return Err(Refusal::ExponentTooLarge);
        }
        let mut sum = WorkingFormula::new();
        self.put_sum(formula, multiple, &mut sum)?;
        Ok(sum)
    }

    /// Puts the sum of a formula and a multiple of a line behind what is held.
    fn put_sum<M: Row>(
        &self,
        formula: &[Monomial],
        multiple: &Multiple<'_, M>,
        sum: &mut WorkingFormula,
    ) -> Result<(), Refusal>
        requires { products_fit multiple.now.factor (M.Row.monomials multiple.now.line.now) ≡ true }
        ensures { Appended (held sum.old) (merged (R.Ring.meaning self.now.ring) (O.Order.meaning self.now.order) formula.now (multiplied (R.Ring.meaning self.now.ring) multiple.now.factor (M.Row.monomials multiple.now.line.now))) result (held sum.new) }
    {
        let mut rest = formula;
        // By number, as a row is read: its monomials may be bytes of a sheet, of which there is no slice of monomials.
        for k in 0..multiple.length() {
            rest = self.put_product(rest, multiple.product(&self.ring, k), sum)?;
        }
        sum.put_all(rest)
    }

    /// Puts a product behind what is held, and in front of it the monomials of a list whose terms are after its own. It gives what is left of the list.
    fn put_product<'a>(
        &self,
        list: &'a [Monomial],
        product: Monomial,
        sum: &mut WorkingFormula,
    ) -> Result<&'a [Monomial], Refusal>
        ensures { MatchResult result
            (λ left. ProductIn (R.Ring.meaning self.now.ring) (O.Order.meaning self.now.order) (held sum.old) list.now product left.now (held sum.new))
            (λ e. NoRoom (R.Ring.meaning self.now.ring) (O.Order.meaning self.now.order) (held sum.old) list.now product e) }
    {
        let (greater, others) = list.split_at(leading(&self.order, list, product));
        sum.put_all(greater)?;
        let (next, left) = self.join(others, product);
        sum.put(next)?;
        Ok(left)
    }

    /// A product with the first monomial of a list added where that has the same term, and what is left of the list.
    fn join<'a>(&self, list: &'a [Monomial], product: Monomial) -> (Monomial, &'a [Monomial])
        ensures joined { result.0 ≡ joined (R.Ring.meaning self.now.ring) (O.Order.meaning self.now.order) list.now product }
        ensures rest { result.1.now ≡ unjoined (O.Order.meaning self.now.order) list.now product }
    {
        match list {
            [m, rest @ ..] if self.is_beside(*m, product) => {
                (plus(&self.ring, *m, product), rest)
            }
            _ => (product, list),
        }
    }

    /// Whether the terms of two monomials stand alike: they do exactly where they are one term, so they are not compared once more.
    fn is_beside(&self, m: Monomial, n: Monomial) -> bool
        ensures { result ≡ is_beside (O.Order.meaning self.now.order) m n }
    {
        m.with_coefficient(0) == n.with_coefficient(0)
    }
}

/// A monomial times a line.
#[derive(Drop)]
struct Multiple<'a, M> {
    factor: Monomial,
    line: &'a M,
}

impl<M: Row> Multiple<'_, M> {
    /// How many products there are.
    fn length(&self) -> usize
        ensures { result ≡ length (M.Row.monomials self.now.line.now) }
    {
        self.line.length()
    }

    /// Whether no exponent of the products passes 255.
    fn fits(&self) -> bool
        ensures { result ≡ products_fit self.now.factor (M.Row.monomials self.now.line.now) }
    {
        (0..self.length()).all(|k| product_fits(self.factor, self.line.monomial(k)))
    }

    /// The product of a number, counted from 0.
    fn product<R: Ring>(&self, ring: &R, k: usize) -> Monomial
        requires { fits (product (term self.now.factor) (term (slice_index_or (M.Row.monomials self.now.line.now) k blank))) ≡ true }
        ensures { result ≡ times (R.Ring.meaning ring.now) self.now.factor (slice_index_or (M.Row.monomials self.now.line.now) k blank) }
    {
        times(ring, self.factor, self.line.monomial(k))
    }
}

/// Whether no exponent of the product of two terms passes 255.
fn product_fits(factor: Monomial, m: Monomial) -> bool
    ensures { result ≡ fits (product (term factor) (term m)) }
{
    factor.product(m).is_some()
}

/// The product of two monomials.
fn times<R: Ring>(ring: &R, factor: Monomial, m: Monomial) -> Monomial
    requires { fits (product (term factor) (term m)) ≡ true }
    ensures { result ≡ times (R.Ring.meaning ring.now) factor m }
{
    let code = ring.product(factor.coefficient(), m.coefficient());
    factor.product(m).unwrap().with_coefficient(code)
}

/// The sum of two monomials that have one term.
fn plus<R: Ring>(ring: &R, m: Monomial, n: Monomial) -> Monomial
    ensures { result ≡ plus (R.Ring.meaning ring.now) m n }
{
    m.with_coefficient(ring.sum(m.coefficient(), n.coefficient()))
}

/// How many monomials in front of a list have terms after that of a product.
fn leading<O: Order>(order: &O, list: &[Monomial], product: Monomial) -> usize
    ensures { result ≡ prefix_len (is_after (O.Order.meaning order.now) product) list.now }
{
    list.iter()
        .take_while(|m| order.compare(**m, product).is_gt())
        .count()
}
