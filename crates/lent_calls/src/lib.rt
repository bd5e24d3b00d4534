// The manager's calls that are lent a buffer for what they hand out: the tick, and those by which trouble is reported.
#![tactic(auto)]

mod ticking;
mod troubles;

pub use ticking::tick;
pub use troubles::{bus_off, stall};
