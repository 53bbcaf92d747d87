ghost use Rattle.std.specs.Prelude.{◌≡◌, ℕ};
ghost use Rattle.relations.specs.Meaning.{Meaning, Stored, Ran, Adds, Leaves};
ghost use Rattle.relations.specs.Script.{Script, run, whole};

use crate::fault::GadgetFault;
use crate::system::System;
use field::Field;

// A trait, and not a closure: what a call does is said by the script `model`, and a bound on `FnOnce` has no ghost member to name one.
/// A gadget with its operands: the steps that it asks of a system are those of the script `model`, at the field's prime.
pub trait Gadget<F: Field, S: System<F>> {
    type Out;

    ghost model: { Self → Script Self.Out };

    /// The steps, as they come: a refusal leaves what was added before it.
    fn steps(&self, cs: &mut S) -> Result<Self::Out, GadgetFault>
        ensures does { Ran (run F.Field.modulus (model self.now)) (S.System.meaning cs.old) result (S.System.meaning cs.new) }
        ensures adds { Adds S.System.meaning S.System.stored S.System.knows cs.old cs.new };
}

/// One gadget's call: draws a mark, runs the steps, and keeps what they added, or rewinds where one was refused.
pub fn call<F: Field, S: System<F>, G: Gadget<F, S>>(
    gadget: &G,
    cs: &mut S,
) -> Result<G::Out, GadgetFault>
    ensures does { Ran (whole (run F.Field.modulus (G.Gadget.model gadget.now))) (S.System.meaning cs.old) result (S.System.meaning cs.new) }
    ensures adds { Adds S.System.meaning S.System.stored S.System.knows cs.old cs.new }
    ensures leaves { Leaves result (S.System.stored cs.old) (S.System.stored cs.new) }
{
    let mark = cs.mark();
    match gadget.steps(cs) {
        Ok(answer) => {
            cs.keep(mark);
            Ok(answer)
        }
        Err(fault) => {
            cs.rewind(mark)?;
            Err(fault)
        }
    }
}
