// The field of 101 elements: signed numbers, sums that wrap, and inverses.
use field::{F101, Field};
use std::test::Fail;

#[test]
fn signed_numbers_are_read(rt: HostRuntime) {
    assert_eq!(rt; F101::from_i64(i64::MAX).to_number(), 89);
    assert_eq!(rt; F101::from_i64(i64::MIN).to_number(), 11);
    assert_eq!(rt; F101::from_i64(-1).to_number(), 100);
    assert_eq!(rt; F101::from_i64(-101).to_number(), 0);
    assert_eq!(rt; F101::from_number(u32::MAX).to_number(), 67);
}

#[test]
fn sums_wrap(rt: HostRuntime) {
    let top = F101::from_number(100);
    let two = F101::from_number(2);
    assert_eq!(rt; top.add(two).to_number(), 1);
    assert_eq!(rt; F101::one().sub(two).to_number(), 100);
    assert_eq!(rt; top.double().to_number(), 99);
    assert_eq!(rt; two.neg().to_number(), 99);
    assert!(rt; F101::zero().neg().is_zero());
    assert!(rt; top.add(F101::one()).is_zero());
    assert_eq!(rt; top.code(), 100);
    assert_eq!(rt; F101::characteristic(), 101);
}

#[test]
fn each_inverse_multiplies_to_one(rt: HostRuntime) -> Result<(), Fail> {
    for n in 1..F101::characteristic() {
        let x = F101::from_number(n);
        let Some(y) = x.inverse() else {
            return Err(Fail::new("an element has no inverse"));
        };
        assert_eq!(rt; x.mul(y).to_number(), 1);
    }
    assert!(rt; F101::zero().inverse().is_none());
    Ok(())
}
