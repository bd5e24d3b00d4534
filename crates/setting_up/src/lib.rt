// Setting up a manager: a new one, its sheet, and its start.
#![tactic(auto)]

mod setting_up;
mod starting;

pub use setting_up::{new, read, write};
pub use starting::start;
