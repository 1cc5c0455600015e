//! The residue ring against brute force, and at n = 65,536.
use crate::agreement::all_answers_agree;
use crate::brute::Integers;
use residue::ResidueRing;
use ring::{Bezout, Ring};
use std::test::Fail;

#[test]
fn all_codes_of_small_rings(rt: HostRuntime) -> Result<(), Fail> {
    for n in 2..21u16 {
        let ring = ResidueRing::new(n as u32)?;
        assert_eq!(rt; ring.size(), n as u32);
        all_answers_agree(&rt, &ring, &Integers::modulo(n), n + 3);
    }
    Ok(())
}

#[test]
fn corners_of_the_largest_ring(rt: HostRuntime) -> Result<(), Fail> {
    let ring = ResidueRing::new(65_536)?;
    assert_eq!(rt; ring.size(), 65_536);
    assert_eq!(rt; ring.one(), 1);
    assert_eq!(rt; ring.sum(65_535, 1), 0);
    assert_eq!(rt; ring.sum(65_535, 65_535), 65_534);
    assert_eq!(rt; ring.negative(0), 0);
    assert_eq!(rt; ring.negative(1), 65_535);
    assert_eq!(rt; ring.product(65_535, 65_535), 1);
    assert_eq!(rt; ring.product(256, 256), 0);
    assert_eq!(rt; ring.quotient(32_768, 65_535), Some(32_768));
    assert_eq!(rt; ring.quotient(1, 2), None);
    assert_eq!(rt; ring.quotient(0, 0), Some(1));
    Ok(())
}

#[test]
fn divisors_in_the_largest_ring(rt: HostRuntime) -> Result<(), Fail> {
    let ring = ResidueRing::new(65_536)?;
    assert_eq!(rt; ring.gcd(0, 0), Bezout { g: 0, u: 0, v: 0 });
    assert_eq!(rt;
        ring.gcd(65_534, 32_768),
        Bezout {
            g: 2,
            u: 16_383,
            v: 1
        }
    );
    assert_eq!(rt; ring.annihilator(32_768), 2);
    assert_eq!(rt; ring.annihilator(0), 1);
    assert_eq!(rt; ring.annihilator(1), 0);
    assert_eq!(rt; ring.residue(65_535, 48), 15);
    assert_eq!(rt; ring.residue(65_535, 0), 65_535);
    Ok(())
}

/// The number of the refusal that the ring modulo n meets, if it meets one.
fn refusal_number(n: u32) -> Option<u8> {
    ResidueRing::new(n).err().map(u8::from)
}

#[test]
fn sizes_outside_the_limits_are_refused(rt: HostRuntime) {
    assert_eq!(rt; refusal_number(0), Some(1));
    assert_eq!(rt; refusal_number(1), Some(1));
    assert_eq!(rt; refusal_number(2), None);
    assert_eq!(rt; refusal_number(65_536), None);
    assert_eq!(rt; refusal_number(65_537), Some(1));
    assert_eq!(rt; refusal_number(4_294_967_295), Some(1));
}
