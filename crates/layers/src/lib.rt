#![tactic(auto)]

mod converted;
mod quota;
mod watch;

pub use converted::Converted;
pub use quota::Quota;
pub use watch::Watch;
