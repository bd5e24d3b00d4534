// Answers of controllers, and reports of a transceiver.
ghost use Rattle.std.specs.Prelude.{◌≡◌, eqb, position};
ghost use Rattle.settings.specs.Settings.{controllers_of};
ghost use Rattle.network.specs.Answers.{awaits, takes_report, after_answer, after_report};

use crate::{LastAnswer, Report, State};
use settings::Network;
use steps::Ask;

// A2 to A5: this is just what the step asks for.
fn is_awaited(ask: Ask, report: Report) -> bool
    ensures { result ≡ awaits ask report }
{
    match (ask, report) {
        (Ask::Controllers(asked), Report::Controller(mode)) => u8::from(asked) == mode,
        (Ask::Transceiver(asked), Report::Transceiver(mode)) => u8::from(asked) == mode,
        (Ask::ClearWake, Report::Cleared) | (Ask::CheckWake, Report::Checked) => true,
        _ => false,
    }
}

// A2 to A5: the step has asked, and takes what it asks for.
pub fn takes(state: State, report: Report) -> bool
    ensures { result ≡ takes_report state report }
{
    state.asked && is_awaited(state.step.asks(), report)
}

// The slot of the controller with this id.
fn slot_of(network: Network, id: u8) -> Option<usize>
    ensures { result ≡ position (λ x. eqb x id) (controllers_of network) }
{
    lists::in_use(&network.controllers, network.count)
        .iter()
        .position(|&x| x == id)
}

// N3, A2: the record with this answer of the controller, in place of an earlier one.
// A changed copy: one slot is new, which a literal cannot say.
pub fn with_answer(network: Network, state: State, id: u8, ok: bool) -> State
    ensures { result ≡ after_answer network state id ok }
{
    let mut next = state;
    if let Some(i) = slot_of(network, id) {
        next.answers[i] = LastAnswer::from(ok);
    }
    next
}

// N3: the record with the report that was asked for.
#[tactic(auto, unfolding(crate::specs::Answers::after_report))]
pub fn with_report(state: State) -> State
    ensures { result ≡ after_report state }
{
    State {
        reported: true,
        ..state
    }
}
