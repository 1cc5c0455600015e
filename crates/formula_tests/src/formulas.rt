//! Random formulas over residue rings and a pair, under each order.
use crate::model::{Counters, Model};
use crate::plain::{Below, Plain, Rule};
use crate::random::Random;
use crate::trial::Trial;
use formula::PolynomialRing;
use pair::PairRing;
use residue::ResidueRing;
use ring::Ring;
use std::alloc::Global;
use std::process::Abort;
use std::test::*;
use term::{Lex, Monomial, Order, Reverse, Weight};

impl<R: Ring, O: Order, A: Abort> Trial<'_, R, O, A> {
    /// Compares checks and sums.
    fn formulas_agree(&self) -> Result<(), Fail> {
        let mut random = Random::new(2);
        self.checks_agree(&mut random)?;
        self.sums_agree(&mut random)
    }
}

/// Compares checks and sums over a ring under each order.
fn orders_agree<R: Ring + Drop, A: Abort>(
    rt: &A,
    heap: Global,
    ring: R,
    counters: Counters,
    weights: Monomial,
) -> Result<(), Fail> {
    let plain_weights = Plain::from(weights).term;
    let lex = Trial {
        rt,
        heap,
        polynomials: PolynomialRing { ring, order: Lex },
        model: Model {
            counters,
            rule: Rule::unweighted(Below::Lex),
        },
    };
    lex.formulas_agree()?;
    let reverse = lex.under(Reverse, Rule::unweighted(Below::Reverse));
    reverse.formulas_agree()?;
    let weight_lex = reverse.under(
        Weight::new(weights, Lex),
        Rule::new(plain_weights, Below::Lex),
    );
    weight_lex.formulas_agree()?;
    let weight_reverse = weight_lex.under(
        Weight::new(weights, Reverse),
        Rule::new(plain_weights, Below::Reverse),
    );
    weight_reverse.formulas_agree()
}

#[test]
fn formulas_over_residue_rings(rt: HostRuntime) -> Result<(), Fail> {
    let cases = [
        (6, 0x0000_0102_0000_ffff),
        (12, 0x0101_0101_0101_0000),
        (1_440, 0xff00_fe01_0005_0001),
        (65_536, 0x0005_0403_02ff_1234),
    ];
    for (n, bits) in cases {
        let ring = ResidueRing::new(n)?;
        let counters = Counters { left: 1, right: n };
        orders_agree(&rt, rt.alloc(), ring, counters, Monomial { bits })?;
    }
    Ok(())
}

#[test]
fn formulas_over_a_pair(rt: HostRuntime) -> Result<(), Fail> {
    let ring = PairRing::new(ResidueRing::new(24)?, ResidueRing::new(60)?)?;
    let counters = Counters {
        left: 24,
        right: 60,
    };
    let weights = Monomial {
        bits: 0x0300_0000_0101_0000,
    };
    orders_agree(&rt, rt.alloc(), ring, counters, weights)
}
