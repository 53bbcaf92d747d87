ghost use Rattle.std.specs.Prelude.{◌≡◌, ◌<◌, ◌≤◌, length, MatchOption};
ghost use Rattle.fp_bits.specs.declared.bits.TheConstants.{MOST_BITS};

use boolean::Boolean;

/// The most bits of a list of bits: as many as a bound on bits may have.
pub const MOST_BITS: usize = 64;

/// How many bits are wanted: at most `MOST_BITS`.
#[derive(Clone, Copy)]
pub struct BitCount {
    pub(crate) count: usize,
    pub ghost few: { count ≤ MOST_BITS },
}

/// The bits of a number, the lowest first: at most `MOST_BITS`.
// An array with a count, as the answers of a command have it: no memory is asked for.
#[derive(Clone, Copy)]
pub struct Bits {
    pub(crate) list: [Boolean; MOST_BITS],
    pub(crate) count: usize,
    pub ghost few: { count ≤ MOST_BITS },
}

impl BitCount {
    /// So many bits, unless they are too many.
    pub fn new(count: usize) -> Option<BitCount>
        ensures { MatchOption result (MOST_BITS < count) (λ k. k.count ≡ count) }
    {
        if count <= MOST_BITS {
            Some(BitCount { count })
        } else {
            None
        }
    }
}

impl Bits {
    ghost use Rattle.gates.specs.Walk.{place};
    ghost use Rattle.fp_bits.specs.Listed.{bits_listed};

    /// Some bits, unless they are too many.
    pub fn new(bits: &[Boolean]) -> Option<Bits>
        ensures { MatchOption result (MOST_BITS < length bits.now) (λ b. bits_listed b ≡ bits.now) }
    {
        if bits.len() > MOST_BITS {
            return None;
        }
        let mut list = [Boolean::Constant(false); MOST_BITS];
        list[..bits.len()].copy_from_slice(bits);
        Some(Bits {
            list,
            count: bits.len(),
        })
    }

    /// The bits as a slice.
    pub fn as_slice(&self) -> &[Boolean]
        ensures { result.now ≡ bits_listed self.now }
    {
        &self.list[..self.count]
    }

    /// The lowest bit; of no bits it is the constant 0.
    pub fn lowest(&self) -> Boolean
        ensures { result ≡ place (bits_listed self.now) 0 }
    {
        self.as_slice()
            .first()
            .copied()
            .unwrap_or(Boolean::Constant(false))
    }
}
