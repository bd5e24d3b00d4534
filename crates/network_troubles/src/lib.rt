// What befalls one network, a bus-off of one of its controllers or a stall of its sending: the record after it, and what is handed out.
#![tactic(auto)]

mod striking;

pub use striking::strike;
