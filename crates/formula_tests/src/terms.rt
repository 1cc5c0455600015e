//! Packed terms and the three orders against plain ones, on random numbers.
use crate::plain;
use crate::plain::{Below, Plain, Rule};
use crate::random::Random;
use std::array;
use std::test::*;
use term::{Lex, Monomial, Order, Reverse, Weight};

/// A random packed number.
fn random_number(random: &mut Random) -> [u8; 8] {
    array::from_fn(|_| random.byte())
}

/// A packed number that is like another one: two exponents exchanged, the code changed, or two exponents changed.
fn alike(random: &mut Random, number: [u8; 8]) -> [u8; 8] {
    let [a, b, c, d, e, f, high, low] = number;
    match random.below(5) {
        0 => [b, a, c, d, e, f, high, low],
        1 => [f, b, c, d, e, a, high, low],
        2 => [a, b, c, d, e, f, low, high],
        3 => [random.byte(), b, c, d, e, f, high, low],
        _ => [a, b, c, random.byte(), e, random.byte(), high, low],
    }
}

/// The monomial of eight bytes.
fn monomial(bytes: [u8; 8]) -> Monomial {
    Monomial {
        bits: u64::from_be_bytes(bytes),
    }
}

/// Whether the parts of a packed number are its bytes.
fn parts_agree(bytes: [u8; 8], other: Monomial) -> bool {
    let m = monomial(bytes);
    let [a, b, c, d, e, f, high, low] = bytes;
    let recoded = Plain::new(Plain::from(m).term, Plain::from(other).code);
    m.exponents() == [a, b, c, d, e, f]
        && m.coefficient() == u16::from_be_bytes([high, low])
        && Some(m.with_coefficient(other.coefficient())) == Monomial::try_from(recoded).ok()
}

/// Whether degrees, products and lcms of two packed terms are those of plain ones.
fn products_agree(m: Monomial, n: Monomial) -> bool {
    let s = Plain::from(m).term;
    let t = Plain::from(n).term;
    m.degree() == plain::degree(s) as u64
        && m.weighted_degree(n) == plain::weighted(t, s) as u64
        && m.product(n) == plain::bare(plain::product(s, t))
        && Some(m.lcm(n)) == plain::bare(plain::lcm(s, t))
}

/// Whether a packed term is divided by another as plain ones are.
fn quotients_agree(m: Monomial, n: Monomial) -> bool {
    match plain::quotient(Plain::from(m).term, Plain::from(n).term) {
        Some(q) => n.divides(m) && m.quotient(n) == plain::bare(q),
        None => !n.divides(m) && m.quotient(n).is_none(),
    }
}

/// Whether an order compares two packed terms, either way round, as in plain words.
fn order_agrees<O: Order>(order: &O, rule: Rule, m: Monomial, n: Monomial) -> bool {
    let s = Plain::from(m).term;
    let t = Plain::from(n).term;
    order.compare(m, n) == rule.compare(s, t) && order.compare(n, m) == rule.compare(t, s)
}

/// Whether lex, reverse and weight over both compare two packed terms as in plain words.
fn orders_agree(weights: Monomial, m: Monomial, n: Monomial) -> bool {
    let plain_weights = Plain::from(weights).term;
    let lex = Rule::new(plain_weights, Below::Lex);
    let reverse = Rule::new(plain_weights, Below::Reverse);
    order_agrees(&Lex, Rule::unweighted(Below::Lex), m, n)
        && order_agrees(&Reverse, Rule::unweighted(Below::Reverse), m, n)
        && order_agrees(&Weight::new(weights, Lex), lex, m, n)
        && order_agrees(&Weight::new(weights, Reverse), reverse, m, n)
}

/// Whether two packed terms are as plain ones in everything, under these weights and under weights that are all 1.
fn terms_agree(weights: Monomial, m: Monomial, n: Monomial) -> bool {
    let ones = Monomial {
        bits: 0x0101_0101_0101_0007,
    };
    products_agree(m, n)
        && quotients_agree(m, n)
        && quotients_agree(m.lcm(n), n)
        && orders_agree(weights, m, n)
        && orders_agree(ones, m, n)
}

#[test]
fn terms_agree_with_plain_ones(rt: HostRuntime) -> Result<(), Fail> {
    let mut random = Random::new(1);
    for _ in 0..20_000u32 {
        let bytes = random_number(&mut random);
        let m = monomial(bytes);
        let near = monomial(alike(&mut random, bytes));
        let far = monomial(random_number(&mut random));
        let agree = parts_agree(bytes, far)
            && terms_agree(far, m, near)
            && terms_agree(near, m, far);
        assert!(rt; agree, "{m:?} {near:?} {far:?}");
    }
    Ok(())
}

#[test]
fn kinds_of_the_orders(rt: HostRuntime) -> Result<(), Fail> {
    let weights = Monomial { bits: 0 };
    let unweighted = (Lex.kind_number(), Reverse.kind_number());
    let over_lex = Weight::new(weights, Lex).kind_number();
    let over_reverse = Weight::new(weights, Reverse).kind_number();
    assert_eq!(rt; (unweighted, over_lex, over_reverse), ((1, 2), 3, 3));
    Ok(())
}
