// What the scripts of gates on bits mean, for the proofs of other crates: there is nothing here to run. See specs/Bits.antt first.
#![tactic(auto)]
