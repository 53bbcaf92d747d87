ghost use Rattle.std.specs.Prelude.{◌≡◌, length};
ghost use Rattle.std.specs.Option.{option_map};
ghost use Rattle.relations.specs.Meaning.{Meaning, Stored, Ran, ask, new_variable, new_lc, admit, enforce, rewind, cut, Adds, Leaves, Cuts, Sane};
ghost use Rattle.relations.specs.Rows.{RowsFit, RowsLocal};
ghost use Rattle.relations.specs.Unmet.{is_met};
ghost use Rattle.relations.specs.Told.{told};

use crate::fault::SystemFault;
use crate::term::{Mark, Side, Term, Variable};
use field::Field;

// Each call says what it does, what it adds and what it leaves: facts about the system before and after it, which no invariant of a value can hold.
/// A constraint system over a field. What it is stands in `meaning`, and each call does one step of that; the words in which it
/// is stored stand in `stored`. No call asks for anything: what has to hold of the words is an invariant of the type.
pub trait System<F: Field> {
    ghost meaning: { Self → Meaning };

    ghost stored: { Self → Stored };

    // What every call keeps true, once it is: a layer that remembers something of its rows says here that it is so. It is no invariant of a
    // type, since it speaks of the system below, which is changed by its own calls.
    ghost knows: { Self → Type 0 };

    /// A new input or witness, with its value where there is one.
    fn new_variable(&mut self, side: Side, value: Option<F>) -> Result<Variable, SystemFault>
        ensures does { Ran (new_variable side (option_map F.Field.number value)) (meaning self.old) result (meaning self.new) }
        ensures adds { Adds meaning stored knows self.old self.new }
        ensures leaves { Leaves result (stored self.old) (stored self.new) };

    /// A new combination of terms.
    fn new_lc(&mut self, terms: &[Term]) -> Result<Variable, SystemFault>
        ensures does { Ran (new_lc F.Field.modulus terms.now) (meaning self.old) result (meaning self.new) }
        ensures adds { Adds meaning stored knows self.old self.new }
        ensures leaves { Leaves result (stored self.old) (stored self.new) };

    // Three slices, here and below, and not a struct: gates hand on three literals, and a struct would only add the name of a field to each.
    /// A new row.
    fn enforce_constraint(&mut self, a: &[Term], b: &[Term], c: &[Term]) -> Result<(), SystemFault>
        ensures does { Ran (enforce F.Field.modulus a.now b.now c.now) (meaning self.old) result (meaning self.new) }
        ensures adds { Adds meaning stored knows self.old self.new }
        ensures leaves { Leaves result (stored self.old) (stored self.new) };

    /// Whether a row's variables are there and its terms find room; nothing is added.
    fn admits(&self, a: &[Term], b: &[Term], c: &[Term]) -> Result<(), SystemFault>
        ensures { result ≡ (admit F.Field.modulus a.now b.now c.now (meaning self.now)).0 };

    /// The value that is kept for a variable.
    fn value(&self, variable: Variable) -> Result<Option<F>, SystemFault>
        ensures { told F.Field.number result ≡ (ask variable (meaning self.now)).0 };

    // What holds of the rows whatever calls were made is told here, to the layers above: a layer has its own limit to compare with the
    // rows' number, or remembers which of them are met while variables are added.
    /// How many rows there are.
    fn row_count(&self) -> u32
        ensures count { result ≡ length (meaning self.now).rows }
        ensures fit { RowsFit (meaning self.now) }
        ensures local { RowsLocal (meaning self.now) };

    /// Whether the kept values meet a row; none where no values are kept, or there is no such row.
    fn is_met(&self, row: u32) -> Option<bool>
        ensures { result ≡ is_met F.Field.modulus row (meaning self.now) };

    /// A mark of how long the lists are.
    fn mark(&self) -> Mark
        ensures inputs { result.inputs ≡ length (meaning self.now).inputs }
        ensures witnesses { result.witnesses ≡ length (meaning self.now).witnesses }
        ensures combinations { result.combinations ≡ length (meaning self.now).combos }
        ensures rows { result.rows ≡ length (meaning self.now).rows }
        ensures sane { Sane (meaning self.now) }
        ensures words { cut (meaning self.now) (stored self.now) ≡ stored self.now };

    /// Spends a mark, and keeps what came since.
    fn keep(&mut self, mark: Mark)
        ensures does { meaning self.new ≡ meaning self.old }
        ensures leaves { stored self.new ≡ stored self.old }
        ensures knowing { knows self.old → knows self.new };

    /// Spends a mark, and cuts the lists to its lengths.
    fn rewind(&mut self, mark: Mark) -> Result<(), SystemFault>
        ensures does { Ran (rewind mark.inputs mark.witnesses mark.combinations mark.rows) (meaning self.old) result (meaning self.new) }
        ensures cuts { Cuts result (meaning self.new) (stored self.old) (stored self.new) }
        ensures knowing { knows self.old → knows self.new };
}
