// The manager's calls that name an id and hand out nothing: requests and polls from above, answers and reports from below.
// They stay beside `hearing::heard`, which promises the same of a message: the wrong programs of this crate are edits of each call.
#![tactic(auto)]

mod answering;
mod requesting;

pub use answering::{check_done, clear_done, controller_answer, transceiver_mode};
pub use requesting::{poll, request};
