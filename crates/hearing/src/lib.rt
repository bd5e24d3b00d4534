// A message to a manager that is lent: the network is found, and its record is updated where it stands. What the network makes of the message is
// worked out by value, from one record and the settings of one network; nothing here copies more than that.
#![tactic(auto)]

ghost use Rattle.std.specs.Prelude.{◌≡◌, ◌<◌};
ghost use Rattle.slots.specs.Calls.{answer_of, call_of, outcome, Hears};
ghost use Rattle.hearing.specs.Heard.{HeardIn, HeardAt};

use finding::slot_in;
pub use network::Message;
use network::{Refusal, State, part_of};
use settings::Network;
use slots::{Answer, CallRefusal, Manager, Outcome};

// R2, N16: the record of a network after a message, where it stands: a refusal leaves it as it was.
fn hear_in(state: &mut State, network: Network, message: Message) -> Result<(), Refusal>
    ensures { HeardIn network state.old message result state.new }
{
    let part = part_of(network, *state, message);
    *state = part.state;
    part.reply
}

// The record of this slot is lent on.
fn hear_at(manager: &mut Manager, at: usize, message: Message) -> Result<(), Refusal>
    requires { at < 8 }
    ensures { HeardAt manager.old at message result manager.new }
{
    let network = manager.settings.networks[at];
    hear_in(&mut manager.states[at], network, message)
}

// The manager's answer for a network's reply. Stays a match: by `map_err` it stayed open in `hear` that a refusal is given as the manager's.
fn answer_of(reply: Result<(), Refusal>) -> Answer
    ensures { result ≡ answer_of reply }
{
    match reply {
        Ok(()) => Ok(()),
        Err(refusal) => Err(CallRefusal::Network(refusal)),
    }
}

// R6, K7: the answer to a message; the manager that is lent is the next one afterwards.
#[tactic(auto, using(crate::proofs::Laws::unknown_hears))]
pub fn hear(manager: &mut Manager, message: Message) -> Answer
    ensures { Hears manager.old message result manager.new }
{
    let at = slot_in(manager, message.names())?;
    answer_of(hear_at(manager, at, message))
}

// The same for callers that have the manager by value. Stays: it is public, and has a promise of its own.
pub fn heard(manager: Manager, message: Message) -> Outcome
    ensures { result ≡ outcome manager (call_of message) }
{
    let mut lent = manager;
    let answer = hear(&mut lent, message);
    Outcome {
        answer,
        ..Outcome::accept(lent)
    }
}
