// What the scripts of the calls on numbers mean, for the proofs of other crates: there is nothing here to run. See specs/Numbers.antt first.
#![tactic(auto)]
