use crate::Counts;
use crate::writer::Writer;

/// Two combinations, 2 input + 3 and then 4 times the first + 5 witness, and the sum of the second + 6, modulo 7.
#[test]
fn sum_of_combinations(rt: HostRuntime) {
    let terms: [u32; 16] = [1, 2, 0, 3, 20, 0, 19, 4, 2, 5, 20, 0, 43, 1, 0, 6];
    let counts = Counts {
        inputs: 1,
        witnesses: 1,
        lcs: 2,
        front: 6,
    };
    let mut out: [u32; 10] = [9; 10];
    let writer = Writer {
        terms: &terms,
        counts,
        modulus: 7,
    };
    let done = writer.write_out(&mut out, 6, 2);
    assert!(rt; done.is_ok());
    assert_eq!(rt; out[0], 4);
    assert_eq!(rt; out[1], 1);
    assert_eq!(rt; out[2], 5);
    assert_eq!(rt; out[9], 9);
}

/// One cell too few: nothing is written.
#[test]
fn too_short(rt: HostRuntime) {
    let terms: [u32; 16] = [1, 2, 0, 3, 20, 0, 19, 4, 2, 5, 20, 0, 43, 1, 0, 6];
    let counts = Counts {
        inputs: 1,
        witnesses: 1,
        lcs: 2,
        front: 6,
    };
    let mut out: [u32; 8] = [9; 8];
    let writer = Writer {
        terms: &terms,
        counts,
        modulus: 7,
    };
    let done = writer.write_out(&mut out, 6, 2);
    assert!(rt; done.is_err());
    assert_eq!(rt; out[0], 9);
    assert_eq!(rt; out[7], 9);
}
