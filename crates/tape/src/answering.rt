ghost use Rattle.std.specs.Prelude.{◌≡◌, ◌≤◌, [], ◌∷◌, length};
ghost use Rattle.relations.specs.Meaning.{Ran, Adds, Leaves};
ghost use Rattle.relations.specs.Script.{run, whole, over};
ghost use Rattle.command.specs.Answers.{kary_steps};
ghost use Rattle.command.specs.Listed.{listed};

use boolean::Boolean;
use command::{Answer, Answers, Kary};
use field::Field;
use fp_var::FpVar;
use gates::Members;
use relations::{GadgetFault, System};

/// A bit as the one answer of a command.
pub(crate) fn one_bit(bit: Result<Boolean, GadgetFault>) -> Result<Answers, GadgetFault>
    ensures { over listed result ≡ over (λ b. Answer.Bit b ∷ []) bit }
{
    Ok(Answers::one(Answer::Bit(bit?)))
}

/// A number as the one answer of a command.
pub(crate) fn one_number(number: Result<FpVar, GadgetFault>) -> Result<Answers, GadgetFault>
    ensures { over listed result ≡ over (λ x. Answer.Number x ∷ []) number }
{
    Ok(Answers::one(Answer::Number(number?)))
}

/// No answer, where a statement is accepted.
pub(crate) fn no_answer(stated: Result<(), GadgetFault>) -> Result<Answers, GadgetFault>
    ensures { over listed result ≡ over (λ u. []) stated }
{
    stated?;
    Ok(Answers::none())
}

/// A question or the statement on many bits.
pub(crate) fn kary<F: Field, S: System<F>>(
    question: Kary,
    bits: &[Boolean],
    cs: &mut S,
) -> Result<Answers, GadgetFault>
    requires { length bits.now ≤ 64 }
    ensures does { Ran (whole (run F.Field.modulus (kary_steps question F.Field.modulus bits.now))) (S.System.meaning cs.old) (over listed result) (S.System.meaning cs.new) }
    ensures adds { Adds S.System.meaning S.System.stored S.System.knows cs.old cs.new }
    ensures leaves { Leaves result (S.System.stored cs.old) (S.System.stored cs.new) }
{
    // Never so: a range has at most 64 bits.
    let Some(members) = Members::new(bits) else {
        return Err(GadgetFault::TooManyMembers);
    };
    match question {
        Kary::And => one_bit(members.kary_and(cs)),
        Kary::Or => one_bit(members.kary_or(cs)),
        Kary::Nand => one_bit(members.kary_nand(cs)),
        Kary::EnforceNand => no_answer(members.enforce_kary_nand(cs)),
    }
}
