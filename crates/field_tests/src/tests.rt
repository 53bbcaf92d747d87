ghost use Rattle.std.specs.Prelude.{◌<◌};

use field::{F3, F7, F101, F4294967291, Field, bits, half};
use field29::F29;
use montgomery::F2013265921;
use std::process::Abort;
use std::test::Fail;

// What is known of a prime from outside: its bits, its half, and what the least and the greatest signed number of 64 bits and the greatest
// number of 32 bits leave.
#[derive(Drop)]
struct Known {
    prime: u32,
    bits: u32,
    half: u32,
    least: u32,
    greatest: u32,
    greatest_word: u32,
    ghost odd: { 2 < prime },
    ghost below: { half < prime },
}

// Numbers are read as they must be at both ends.
fn reads_at_the_ends<F: Field>(rt: &impl Abort, known: &Known) {
    assert_eq!(rt; F::characteristic(), known.prime);
    assert_eq!(rt; bits::<F>(), known.bits);
    assert_eq!(rt; half::<F>(), known.half);
    assert_eq!(rt; F::from_i64(i64::MIN).to_number(), known.least);
    assert_eq!(rt; F::from_i64(i64::MAX).to_number(), known.greatest);
    assert_eq!(rt; F::from_number(u32::MAX).to_number(), known.greatest_word);
    assert_eq!(rt; F::from_number(known.prime).to_number(), 0);
    assert_eq!(rt; F::from_i64(known.prime as i64).to_number(), 0);
    assert_eq!(rt; F::from_i64(-(known.prime as i64)).to_number(), 0);
    assert_eq!(rt; F::from_i64(-1).to_number(), known.prime - 1);
    assert_eq!(rt; F::zero().to_number(), 0);
    assert_eq!(rt; F::one().to_number(), 1);
    assert!(rt; F::zero().is_zero());
    assert!(rt; !F::one().is_zero());
}

// Sums and doubles of 1, p - 1, h and h + 1.
fn adds_at_the_ends<F: Field>(rt: &impl Abort, known: &Known) {
    let top = F::from_number(known.prime - 1);
    let half = F::from_number(known.half);
    let next = F::from_number(known.half + 1);
    assert!(rt; top.add(F::one()).is_zero());
    assert_eq!(rt; top.add(top).to_number(), known.prime - 2);
    assert_eq!(rt; top.double().to_number(), known.prime - 2);
    assert_eq!(rt; half.add(half).to_number(), known.prime - 1);
    assert_eq!(rt; half.double().to_number(), known.prime - 1);
    assert!(rt; half.add(next).is_zero());
    assert_eq!(rt; next.add(next).to_number(), 1);
    assert_eq!(rt; next.double().to_number(), 1);
    assert!(rt; F::zero().double().is_zero());
}

// Differences and negatives of 0, 1, p - 1, h and h + 1.
fn subtracts_at_the_ends<F: Field>(rt: &impl Abort, known: &Known) {
    let top = F::from_number(known.prime - 1);
    let half = F::from_number(known.half);
    let next = F::from_number(known.half + 1);
    assert_eq!(rt; F::zero().sub(F::one()).to_number(), known.prime - 1);
    assert_eq!(rt; F::one().sub(top).to_number(), 2);
    assert!(rt; top.sub(top).is_zero());
    assert_eq!(rt; half.sub(next).to_number(), known.prime - 1);
    assert!(rt; F::zero().neg().is_zero());
    assert_eq!(rt; top.neg().to_number(), 1);
    assert_eq!(rt; half.neg().to_number(), known.half + 1);
}

// Products of 0, p - 1, h and h + 1.
fn multiplies_at_the_ends<F: Field>(rt: &impl Abort, known: &Known) {
    let top = F::from_number(known.prime - 1);
    let half = F::from_number(known.half);
    let next = F::from_number(known.half + 1);
    assert_eq!(rt; top.mul(top).to_number(), 1);
    assert_eq!(rt; top.mul(half).to_number(), known.half + 1);
    assert_eq!(rt; next.mul(top).to_number(), known.half);
    assert!(rt; top.mul(F::zero()).is_zero());
}

// The inverse of an element; an error where it has none.
fn inverse<F: Field>(x: F) -> Result<F, Fail> {
    match x.inverse() {
        Some(y) => Ok(y),
        None => Err(Fail::new("an element has no inverse")),
    }
}

// The inverses at the ends: p - 1 is its own, h + 1 has 2, and h has p - 2.
fn inverts_at_the_ends<F: Field>(rt: &impl Abort, known: &Known) -> Result<(), Fail> {
    assert!(rt; F::zero().inverse().is_none());
    assert_eq!(rt; inverse(F::one())?.to_number(), 1);
    assert_eq!(rt;
        inverse(F::from_number(known.prime - 1))?.to_number(),
        known.prime - 1
    );
    assert_eq!(rt; inverse(F::from_number(known.half + 1))?.to_number(), 2);
    assert_eq!(rt;
        inverse(F::from_number(known.half))?.to_number(),
        known.prime - 2
    );
    Ok(())
}

fn holds_at_the_ends<F: Field>(rt: &impl Abort, known: &Known) -> Result<(), Fail> {
    reads_at_the_ends::<F>(rt, known);
    adds_at_the_ends::<F>(rt, known);
    subtracts_at_the_ends::<F>(rt, known);
    multiplies_at_the_ends::<F>(rt, known);
    inverts_at_the_ends::<F>(rt, known)
}

// Each inverse multiplies to one, in numbers of 64 bits too.
fn inverts_everywhere<F: Field>(rt: &impl Abort) -> Result<(), Fail> {
    for n in 1..F::characteristic() {
        let x = F::from_number(n);
        let y = inverse(x)?;
        assert_eq!(rt; x.mul(y).to_number(), 1);
        assert_eq!(rt;
            n as u64 * y.to_number() as u64 % F::characteristic() as u64,
            1
        );
    }
    assert!(rt; F::zero().inverse().is_none());
    Ok(())
}

#[test]
fn three_elements(rt: HostRuntime) -> Result<(), Fail> {
    let known = Known {
        prime: 3,
        bits: 2,
        half: 1,
        least: 1,
        greatest: 1,
        greatest_word: 0,
    };
    holds_at_the_ends::<F3>(&rt, &known)?;
    inverts_everywhere::<F3>(&rt)
}

#[test]
fn seven_elements(rt: HostRuntime) -> Result<(), Fail> {
    let known = Known {
        prime: 7,
        bits: 3,
        half: 3,
        least: 6,
        greatest: 0,
        greatest_word: 3,
    };
    holds_at_the_ends::<F7>(&rt, &known)?;
    inverts_everywhere::<F7>(&rt)
}

#[test]
fn elements_of_a_prime_added_elsewhere(rt: HostRuntime) -> Result<(), Fail> {
    let known = Known {
        prime: 29,
        bits: 5,
        half: 14,
        least: 17,
        greatest: 11,
        greatest_word: 15,
    };
    holds_at_the_ends::<F29>(&rt, &known)?;
    inverts_everywhere::<F29>(&rt)
}

#[test]
fn elements_modulo_101(rt: HostRuntime) -> Result<(), Fail> {
    let known = Known {
        prime: 101,
        bits: 7,
        half: 50,
        least: 11,
        greatest: 89,
        greatest_word: 67,
    };
    holds_at_the_ends::<F101>(&rt, &known)?;
    inverts_everywhere::<F101>(&rt)
}

#[test]
fn elements_in_montgomery_form(rt: HostRuntime) -> Result<(), Fail> {
    let known = Known {
        prime: 2013265921,
        bits: 31,
        half: 1006632960,
        least: 420548879,
        greatest: 1592717041,
        greatest_word: 268435453,
    };
    holds_at_the_ends::<F2013265921>(&rt, &known)
}

#[test]
fn elements_of_the_largest_prime(rt: HostRuntime) -> Result<(), Fail> {
    let known = Known {
        prime: 4294967291,
        bits: 32,
        half: 2147483645,
        least: 2147483633,
        greatest: 2147483657,
        greatest_word: 4,
    };
    holds_at_the_ends::<F4294967291>(&rt, &known)
}

#[test]
fn codes_are_stored(rt: HostRuntime) {
    let known = [
        (0, 0),
        (1, 268435454),
        (2, 536870908),
        (2013265920, 1744830467),
        (1006632960, 1879048194),
        (1006632961, 134217727),
    ];
    for (number, code) in known {
        assert_eq!(rt; F2013265921::from_number(number).code(), code);
        assert_eq!(rt; F4294967291::from_number(number).code(), number);
    }
}
