// What a network makes of a call that names it.
ghost use Rattle.std.specs.Prelude.{◌≡◌};
ghost use Rattle.network.specs.Replies.{silent_reply, request_reply};
ghost use Rattle.network.specs.Parts.{wanted_part, request_part, out_of_range_part, taken_part, report_part, answer_part, part_of, said};

use crate::answers::{takes, with_answer, with_report};
use crate::{LastAnswer, Message, Part, Refusal, Report, State};
use records::{ControllerMode, Mode, TransceiverMode};
use settings::Network;
use steps::{Phase, Step};

// N15, R14, R22, R23: silent is taken while the network is up; else the refusal says where it is instead.
fn silent_reply(phase: Phase) -> Result<(), Refusal>
    ensures { result ≡ silent_reply phase }
{
    match phase {
        Phase::Off => Err(Refusal::Asleep),
        Phase::Rising => Err(Refusal::ComingUp),
        Phase::Falling => Err(Refusal::GoingDown),
        Phase::Checking | Phase::Full | Phase::Silent => Ok(()),
        Phase::Recovering | Phase::Resetting => Ok(()),
    }
}

// N15: no and full may be asked for in every step.
fn request_reply(step: Step, mode: Mode) -> Result<(), Refusal>
    ensures { result ≡ request_reply step mode }
{
    match mode {
        Mode::No | Mode::Full => Ok(()),
        Mode::Silent => silent_reply(step.phase()),
    }
}

// N14: the mode is stored where it may be asked for.
fn want_mode(state: State, mode: Mode) -> Part
    ensures { result ≡ wanted_part state mode }
{
    match request_reply(state.step, mode) {
        Ok(()) => Part::take(state.want(mode)),
        Err(refusal) => Part::decline(state, refusal),
    }
}

// R13: a communication mode is wanted, by its number.
#[tactic(auto, unfolding(crate::specs::Parts::request_part))]
pub fn request_part(state: State, mode: u8) -> Part
    ensures { result ≡ request_part state mode }
{
    match Mode::try_from(mode) {
        Ok(wanted) => want_mode(state, wanted),
        Err(_) => Part::decline(state, Refusal::OutOfRange),
    }
}

// R13, A1, A3: a mode above 2 is reported.
fn is_out_of_range(report: Report) -> bool
    ensures { result ≡ out_of_range_part report }
{
    match report {
        Report::Controller(mode) => ControllerMode::MOST_NUMBER < mode,
        Report::Transceiver(mode) => TransceiverMode::MOST_NUMBER < mode,
        Report::Cleared | Report::Checked => false,
    }
}

// R13, R15, A6: the record after it, where the step takes the report.
#[tactic(auto, unfolding(crate::specs::Parts::taken_part))]
fn take_report(state: State, report: Report, after: State) -> Part
    ensures { result ≡ taken_part state report after }
{
    if is_out_of_range(report) {
        return Part::decline(state, Refusal::OutOfRange);
    }
    if takes(state, report) {
        return Part::take(after);
    }
    Part::decline(state, Refusal::NotTaken)
}

// A report of the transceiver.
#[tactic(auto, unfolding(crate::specs::Parts::report_part))]
pub fn report_part(state: State, report: Report) -> Part
    ensures { result ≡ report_part state report }
{
    take_report(state, report, with_report(state))
}

// R13, A1: a controller answers the request for a mode with ok (1) or not (0).
pub fn answer_part(network: Network, state: State, id: u8, mode: u8, ok: u8) -> Part
    ensures { result ≡ answer_part network state id mode ok }
{
    if LastAnswer::OKAY < ok {
        return Part::decline(state, Refusal::OutOfRange);
    }
    let after = with_answer(network, state, id, ok == LastAnswer::OKAY);
    take_report(state, Report::Controller(mode), after)
}

// What a network makes of a message that names it: by value, one record and the settings of one network.
#[tactic(auto, unfolding(crate::specs::Parts::part_of))]
pub fn part_of(network: Network, state: State, message: Message) -> Part
    ensures { result ≡ part_of network state (said message) }
{
    match message {
        Message::Request { mode, .. } => request_part(state, mode),
        Message::Answer {
            controller,
            mode,
            ok,
        } => answer_part(network, state, controller, mode, ok),
        Message::TransceiverMode { mode, .. } => report_part(state, Report::Transceiver(mode)),
        Message::ClearDone { .. } => report_part(state, Report::Cleared),
        Message::CheckDone { .. } => report_part(state, Report::Checked),
    }
}
