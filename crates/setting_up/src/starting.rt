// The start of the manager.
ghost use Rattle.std.specs.Prelude.{◌≡◌};
ghost use Rattle.slots.specs.Manager.{with_listening};
ghost use Rattle.slots.specs.Calls as calls;

use network::State;
use slots::{CallRefusal, Manager, Outcome, Stage};

// N7, N8: every network in its first down step.
fn start_networks(manager: Manager) -> Manager
    ensures { result ≡ with_listening (calls.started_from manager) manager.listening }
{
    let mut states = manager.states;
    for (i, network) in lists::in_use(&manager.settings.networks, manager.settings.count)
        .iter()
        .enumerate()
    {
        states[i] = State::start(*network);
    }
    Manager {
        stage: Stage::Started,
        states,
        ..manager
    }
}

// R7, R8, N9, L5: starts the manager, which does not listen then, and hands out nothing.
pub fn start(manager: Manager) -> Outcome
    ensures { result ≡ calls.outcome manager calls.start }
{
    match manager.stage {
        Stage::Empty => Outcome::refuse(manager, Err(CallRefusal::NotReady)),
        Stage::Loaded => Outcome::accept(start_networks(manager).with_listening(false)),
        Stage::Started => Outcome::refuse(manager, Err(CallRefusal::Running)),
    }
}
