#![tactic(auto)]

ghost use Rattle.readings.specs.State.{State};
ghost use Rattle.marked.specs.Lines.{AllHold, Blank};
ghost use Rattle.marked.specs.Table.{table};

/// Every line of the table of marked circuits holds over the prime 7: see `table`, and `Holds` for what a line says. It speaks of
/// blank states, and there are such.
pub fn marked_circuits_stand()
    ensures stand { AllHold 7 table }
    ensures blank { (s : State) × Blank s }
{}
