#![tactic(auto)]

mod laid;
mod reading;
mod rooms;
mod setup;
mod setup_calls;
mod store;
mod system;
mod valued;

pub use reading::Verdict;
pub use rooms::{Counts, OpenFault, OutlineFault, Rooms, open, open_setup};
pub use setup::Setup;
pub use store::{Part, Store};
pub use valued::Valued;
