// One network's tick: what it decides, and the record after it.
#![tactic(auto)]

mod moving;
mod ticking;

pub use ticking::{rests, tick};
