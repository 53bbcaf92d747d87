// Tests of the system that keeps no values, beside the one that keeps them.
#![tactic(auto)]

#[cfg(test)]
mod edges;
#[cfg(test)]
mod fields;
#[cfg(test)]
mod lent;
#[cfg(test)]
mod sequences;
#[cfg(test)]
mod tapes;
#[cfg(test)]
mod told;
