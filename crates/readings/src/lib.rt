// The plain readings of the commands, what decides each of them, runs, and the promises over runs, for the contracts of other crates: there is
// nothing here to run. See `Promise` in specs/Runs.antt first.
#![tactic(auto)]
