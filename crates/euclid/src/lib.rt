#![tactic(auto)]

ghost use Rattle.std.specs.Prelude.{◌≡◌, ◌*◌, ◌%◌, ◌<◌, ◌≤◌, pos, ◌-ℤ◌, ◌*ℤ◌, unsigned_abs};
ghost use Rattle.arith.specs.Number.{Prime, residue};

// A signed number read modulo `p`.
pub fn residue_of(v: i64, p: u32) -> u32
    requires { 1 < p }
    ensures { result ≡ residue p v }
{
    v.rem_euclid(p as i64) as u32
}

// One step of a cofactor.
fn stepped(t0: i64, q: u64, t1: i64) -> i64
    requires times { q ≤ 4294967296 }
    requires first { unsigned_abs t0 ≤ 4294967296 }
    requires second { q * unsigned_abs t1 ≤ 4294967296 }
    ensures { result ≡ t0 -ℤ pos q *ℤ t1 }
{
    t0 - q as i64 * t1
}

// The inverse of `a` modulo the prime `p`, by Euclid's algorithm: `r0` and `r1` are remainders of `p` and `a`, and `t0` and `t1` times `a`
// are `r0` and `r1` modulo `p`.
pub fn inverse_of(a: u32, p: u32) -> u32
    requires prime { Prime p }
    requires some { 0 < a }
    requires below { a < p }
    ensures below { result < p }
    ensures is { (a * result) % p ≡ 1 }
{
    let mut r0 = p as u64;
    let mut r1 = a as u64;
    let mut t0: i64 = 0;
    let mut t1: i64 = 1;
    while r1 > 0 {
        let q = r0 / r1;
        let r2 = r0 % r1;
        let t2 = stepped(t0, q, t1);
        r0 = r1;
        r1 = r2;
        t0 = t1;
        t1 = t2;
    }
    residue_of(t0, p)
}
