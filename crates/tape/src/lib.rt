#![tactic(auto)]

mod action;
mod answering;
mod book;
mod circuit;
mod executing;
mod resolving;
mod running;

pub use action::Action;
pub use book::Book;
pub use circuit::Circuit;
pub use executing::execute;
pub use running::run;
