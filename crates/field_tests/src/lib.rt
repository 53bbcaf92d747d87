// Tests of every field that is served, and of one that another crate adds.
#![tactic(auto)]

#[cfg(test)]
mod f101;
#[cfg(test)]
mod tests;
