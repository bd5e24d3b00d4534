// The state manager of 1 to 8 networks: its public calls. Each takes the manager and gives back the next one, beside its answer.
#![tactic(auto)]

pub use lent_calls::{bus_off, stall, tick};
pub use listen_calls::listen;
pub use quiet_calls::{check_done, clear_done, controller_answer, poll, request, transceiver_mode};
pub use setting_up::{new, read, start, write};
pub use slots::{Answer, CallRefusal, Manager, Outcome, Stage};
