//! Pair rings against brute force on each side, and what every ring keeps at a residue ring, a pair and a pair of pairs.
use crate::agreement::all_answers_agree;
use crate::brute::{Integers, Pairs};
use pair::PairRing;
use refusal::Refusal;
use residue::ResidueRing;
use ring::{Ring, difference, divides};
use std::process::Abort;
use std::test::Fail;

/// The pair of two residue rings, without the crate that reads plans of rings.
fn residue_pair(p: u32, q: u32) -> Result<PairRing<ResidueRing, ResidueRing>, Refusal> {
    PairRing::new(ResidueRing::new(p)?, ResidueRing::new(q)?)
}

#[test]
fn all_codes_of_small_pairs(rt: HostRuntime) -> Result<(), Fail> {
    for p in 2..7u16 {
        for q in 2..6u16 {
            let ring = residue_pair(p as u32, q as u32)?;
            let pairs = Pairs {
                left: Integers::modulo(p),
                right: Integers::modulo(q),
            };
            all_answers_agree(&rt, &ring, &pairs, p * q + 3);
        }
    }
    Ok(())
}

/// Whether some code times b is a.
fn some_code_times<R: Ring>(ring: &R, b: u16, a: u16) -> bool {
    (0..ring.size().min(65_535) as u16).any(|q| ring.product(q, b) == a)
}

/// Checks what every ring keeps, for all codes of a small ring.
fn ring_keeps_its_laws<R: Ring>(rt: &impl Abort, ring: &R) {
    let codes = ring.size().min(1_000) as u16;
    for a in 0..codes {
        assert_eq!(rt; ring.product(a, ring.one()), a, "one");
        assert_eq!(rt; ring.product(ring.annihilator(a), a), 0, "annihilator");
        for b in 0..codes {
            assert_eq!(rt; ring.sum(difference(ring, a, b), b), a, "difference");
            assert_eq!(rt; divides(ring, b, a), some_code_times(ring, b, a), "divides");
            let gcd = ring.gcd(a, b);
            let combination = ring.sum(ring.product(gcd.u, a), ring.product(gcd.v, b));
            assert_eq!(rt; combination, gcd.g, "gcd");
            assert!(rt; ring.residue(a, b) <= a, "residue");
        }
    }
}

#[test]
fn generic_code_at_three_rings(rt: HostRuntime) -> Result<(), Fail> {
    ring_keeps_its_laws(&rt, &ResidueRing::new(36)?);
    ring_keeps_its_laws(&rt, &residue_pair(6, 4)?);
    ring_keeps_its_laws(
        &rt,
        &PairRing::new(residue_pair(2, 4)?, residue_pair(2, 3)?)?,
    );
    Ok(())
}

#[test]
fn hour_and_minute(rt: HostRuntime) -> Result<(), Fail> {
    let clock = residue_pair(24, 60)?;
    assert_eq!(rt; clock.size(), 1_440);
    assert_eq!(rt; clock.one(), 61);
    assert_eq!(rt; clock.sum(23 * 60 + 59, 61), 0);
    assert_eq!(rt; clock.sum(59, 1), 0);
    assert_eq!(rt; clock.negative(60), 23 * 60);
    Ok(())
}

#[test]
fn pairs_that_are_too_large_are_refused(rt: HostRuntime) -> Result<(), Fail> {
    assert!(rt; residue_pair(256, 256).is_ok());
    assert!(rt; PairRing::new(residue_pair(256, 128)?, ResidueRing::new(2)?).is_ok());
    let refusal = PairRing::new(residue_pair(256, 128)?, ResidueRing::new(3)?).err();
    assert_eq!(rt; refusal.map(u8::from), Some(1), "98,304 codes");
    Ok(())
}
