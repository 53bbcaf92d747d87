ghost use Rattle.std.specs.Prelude.{◌≡◌, ℕ, ◌<◌, ◌≤◌, length, MatchOption};
ghost use Rattle.relations.specs.Meaning.{Ran, Adds};
ghost use Rattle.relations.specs.Script.{Script, run};
ghost use Rattle.gates.specs.declared.members.TheConstants.{MOST_MEMBERS};
ghost use Rattle.gates.specs.Kary.{chain_script, summed_script, kary_script, nand_script, enforce_nand_script};

use crate::sum::{chain_from, compare, sum};
use crate::wide::{Wide, sums};
use boolean::Boolean;
use field::Field;
use relations::{GadgetFault, System};

/// The most members of a gate: as many bits as a bound of 64 bits has, and the one that closes a run of them.
pub const MOST_MEMBERS: usize = 65;

/// The members of a gate, at most `MOST_MEMBERS` of them.
#[derive(Clone, Copy)]
pub struct Members<'a> {
    pub(crate) bits: &'a [Boolean],
    pub ghost few: { length bits.now ≤ MOST_MEMBERS },
}

impl<'a> Members<'a> {
    /// Some bits as the members of a gate, unless they are too many.
    pub fn new(bits: &'a [Boolean]) -> Option<Members<'a>>
        ensures { MatchOption result (MOST_MEMBERS < length bits.now) (λ m. m.bits.now ≡ bits.now) }
    {
        if bits.len() <= MOST_MEMBERS {
            Some(Members { bits })
        } else {
            None
        }
    }

    /// The members.
    pub fn bits(&self) -> &'a [Boolean]
        ensures { result.now ≡ self.now.bits.now }
    {
        self.bits
    }

    /// The steps of a chain: each member with what came before it.
    fn chain_steps<F: Field, S: System<F>>(
        &self,
        gate: Wide,
        cs: &mut S,
    ) -> Result<Boolean, GadgetFault>
        ensures does { Ran (run F.Field.modulus (chain_script gate F.Field.modulus self.now.bits.now)) (S.System.meaning cs.old) result (S.System.meaning cs.new) }
        ensures adds { Adds S.System.meaning S.System.stored S.System.knows cs.old cs.new }
    {
        match self.bits {
            [] => Ok(Boolean::Constant(gate.of_none())),
            [first, rest @ ..] => chain_from(gate.gate(), *first, rest, cs),
        }
    }

    /// The steps of a compared sum: constants fold.
    fn summed_steps<F: Field, S: System<F>>(
        &self,
        gate: Wide,
        cs: &mut S,
    ) -> Result<Boolean, GadgetFault>
        ensures does { Ran (run F.Field.modulus (summed_script gate F.Field.modulus self.now.bits.now)) (S.System.meaning cs.old) result (S.System.meaning cs.new) }
        ensures adds { Adds S.System.meaning S.System.stored S.System.knows cs.old cs.new }
    {
        if let Some(value) = gate.folded(self.bits) {
            return Ok(Boolean::Constant(value));
        }
        let total = sum(self.bits, cs)?;
        compare(gate, self.bits.len() as u32, total, cs).map(Boolean::Var)
    }

    /// The steps of a gate: a chain of few members, and else a compared sum, which is refused where it could come to p.
    pub fn kary_steps<F: Field, S: System<F>>(
        &self,
        gate: Wide,
        cs: &mut S,
    ) -> Result<Boolean, GadgetFault>
        ensures does { Ran (run F.Field.modulus (kary_script gate F.Field.modulus self.now.bits.now)) (S.System.meaning cs.old) result (S.System.meaning cs.new) }
        ensures adds { Adds S.System.meaning S.System.stored S.System.knows cs.old cs.new }
    {
        if !sums(self.bits.len()) {
            return self.chain_steps(gate, cs);
        }
        if F::characteristic() <= self.bits.len() as u32 {
            return Err(GadgetFault::TooManyMembers);
        }
        self.summed_steps(gate, cs)
    }

    /// The steps of whether not all members are one.
    pub fn nand_steps<F: Field, S: System<F>>(&self, cs: &mut S) -> Result<Boolean, GadgetFault>
        ensures does { Ran (run F.Field.modulus (nand_script F.Field.modulus self.now.bits.now)) (S.System.meaning cs.old) result (S.System.meaning cs.new) }
        ensures adds { Adds S.System.meaning S.System.stored S.System.knows cs.old cs.new }
    {
        self.kary_steps(Wide::And, cs)?.not_steps(cs)
    }

    /// The steps of the statement that not all members are one.
    pub fn enforce_nand_steps<F: Field, S: System<F>>(&self, cs: &mut S) -> Result<(), GadgetFault>
        ensures does { Ran (run F.Field.modulus (enforce_nand_script F.Field.modulus self.now.bits.now)) (S.System.meaning cs.old) result (S.System.meaning cs.new) }
        ensures adds { Adds S.System.meaning S.System.stored S.System.knows cs.old cs.new }
    {
        self.kary_steps(Wide::And, cs)?.enforce_zero_steps(cs)
    }
}
