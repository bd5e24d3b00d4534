// Calls from below: answers of controllers, reports of transceivers.
ghost use Rattle.std.specs.Prelude.{◌≡◌};
ghost use Rattle.network.specs.Parts.{a_report};
ghost use Rattle.slots.specs.Calls as calls;

use finding::slot_in;
use network::Report;
use settings::Id;
use slots::{Manager, Outcome, settle};

// A1: a controller answers the request for a mode with ok (1) or not (0).
pub fn controller_answer(manager: Manager, id: u8, mode: u8, ok: u8) -> Outcome
    ensures { result ≡ calls.outcome manager (calls.answer id mode ok) }
{
    match slot_in(&manager, Id::OfController(id)) {
        Err(refusal) => Outcome::refuse(manager, Err(refusal)),
        Ok(at) => settle(
            manager,
            at,
            network::answer_part(manager.network_at(at), manager.state_at(at), id, mode, ok),
            0,
        ),
    }
}

// A transceiver reports.
fn take_report(manager: Manager, id: u8, report: Report) -> Outcome
    ensures { result ≡ calls.named manager (Id.OfTransceiver id) (a_report report) }
{
    match slot_in(&manager, Id::OfTransceiver(id)) {
        Err(refusal) => Outcome::refuse(manager, Err(refusal)),
        Ok(at) => settle(
            manager,
            at,
            network::report_part(manager.state_at(at), report),
            0,
        ),
    }
}

// A3: a transceiver reports its mode.
#[tactic(auto, unfolding(slots::specs::Calls::outcome))]
pub fn transceiver_mode(manager: Manager, id: u8, mode: u8) -> Outcome
    ensures { result ≡ calls.outcome manager (calls.transceiver_mode id mode) }
{
    take_report(manager, id, Report::Transceiver(mode))
}

// A4: the wake flag of a transceiver was cleared.
#[tactic(auto, unfolding(slots::specs::Calls::outcome))]
pub fn clear_done(manager: Manager, id: u8) -> Outcome
    ensures { result ≡ calls.outcome manager (calls.clear_done id) }
{
    take_report(manager, id, Report::Cleared)
}

// A5: the wake flag of a transceiver was checked.
#[tactic(auto, unfolding(slots::specs::Calls::outcome))]
pub fn check_done(manager: Manager, id: u8) -> Outcome
    ensures { result ≡ calls.outcome manager (calls.check_done id) }
{
    take_report(manager, id, Report::Checked)
}
