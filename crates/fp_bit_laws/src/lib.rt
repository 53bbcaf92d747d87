// What the scripts of numbers' bits and of comparison mean, for the proofs of other crates: there is nothing here to run. See specs/Spelled.antt first.
#![tactic(auto)]
