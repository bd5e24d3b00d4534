// A network's part in a call, lifted to its slot.
ghost use Rattle.std.specs.Prelude.{◌≡◌};
ghost use Rattle.slots.specs.Calls.{settled};

use crate::{CallRefusal, Manager, Outcome};
use network::Part;

// R2, N16: what is taken stores its record in this slot, beside the number of records handed out; a refusal changes nothing.
pub fn settle(manager: Manager, at: usize, part: Part, count: usize) -> Outcome
    ensures { result ≡ settled manager at part.reply part.state count }
{
    match part.reply {
        Ok(()) => Outcome {
            count,
            ..Outcome::accept(manager.with_state(at, part.state))
        },
        Err(refusal) => Outcome::refuse(manager, Err(CallRefusal::Network(refusal))),
    }
}
