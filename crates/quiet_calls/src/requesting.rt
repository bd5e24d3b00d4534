// Calls from above: a mode is requested, the mode told is polled.
ghost use Rattle.std.specs.Prelude.{◌≡◌};
ghost use Rattle.slots.specs.Manager.{state_at};
ghost use Rattle.slots.specs.Calls as calls;

use finding::{slot_in, slot_of};
use settings::Id;
use slots::{Manager, Outcome, settle};

// A communication mode is wanted of the network with this handle.
// The two arms stay in each call: a function of both would take a closure, and say by a clause what the second arm says by itself.
pub fn request(manager: Manager, handle: u8, mode: u8) -> Outcome
    ensures { result ≡ calls.outcome manager (calls.request handle mode) }
{
    match slot_in(&manager, Id::OfNetwork(handle)) {
        Err(refusal) => Outcome::refuse(manager, Err(refusal)),
        Ok(at) => settle(
            manager,
            at,
            network::request_part(manager.state_at(at), mode),
            0,
        ),
    }
}

fn poll_at(manager: Manager, at: usize) -> Outcome
    ensures { result ≡ calls.polled manager (state_at manager at).told }
{
    Outcome {
        mode: u8::from(manager.state_at(at).told),
        ..Outcome::accept(manager)
    }
}

// N6: the mode that was last told of the network with this handle.
pub fn poll(manager: Manager, handle: u8) -> Outcome
    ensures { result ≡ calls.outcome manager (calls.poll handle) }
{
    match slot_of(manager, Id::OfNetwork(handle)) {
        Err(refusal) => Outcome::refuse(manager, Err(refusal)),
        Ok(at) => poll_at(manager, at),
    }
}
