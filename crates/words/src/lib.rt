#![tactic(auto)]

pub mod merge;
pub mod read;
pub mod scan;
