#![tactic(auto)]

#[cfg(test)]
mod converted;
#[cfg(test)]
mod edges;
#[cfg(test)]
mod knowing;
#[cfg(test)]
mod piles;
#[cfg(test)]
mod steps;
#[cfg(test)]
mod watches;
