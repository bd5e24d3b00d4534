// The tick's one decision. What a tick can decide, and the definition of the decision, stand with the steps.
#![tactic(auto)]

ghost use Rattle.std.specs.Prelude.{◌≡◌};
ghost use Rattle.steps.specs.Decision.{by_mode, by_partial, by_transceiver, when_done, risen, goes_down, rule_of, decision};

use records::Mode;
use steps::{Move, Outfit, Step};

// ---- what the rules are put together from

// One of three moves, where no, silent or full is wanted.
fn by_mode(wanted: Mode, no: Move, silent: Move, full: Move) -> Move
    ensures { result ≡ by_mode wanted no silent full }
{
    match wanted {
        Mode::No => no,
        Mode::Silent => silent,
        Mode::Full => full,
    }
}

// One of two moves: without partial networking, and with it.
fn by_partial(outfit: Outfit, without: Move, with: Move) -> Move
    ensures { result ≡ by_partial outfit without with }
{
    match outfit {
        Outfit::Bare | Outfit::Fitted => without,
        Outfit::Partial => with,
    }
}

// One of two moves: without a transceiver, and with one.
fn by_transceiver(outfit: Outfit, without: Move, with: Move) -> Move
    ensures { result ≡ by_transceiver outfit without with }
{
    match outfit {
        Outfit::Bare => without,
        Outfit::Fitted | Outfit::Partial => with,
    }
}

// N12: an asking step that is not done asks again.
fn when_done(done: bool, to: Move) -> Move
    ensures { result ≡ when_done done to }
{
    if done { to } else { Move::AskAgain }
}

// T9, T12: one tick more. The count stays at the largest number, which no rule reaches.
fn rise(ticks: u16) -> u16
    ensures { result ≡ risen ticks }
{
    ticks.saturating_add(1)
}

// ---- the rules

// T3: no is wanted in a step from 1 to 8, in 15 or in 16.
fn goes_down(step: Step, wanted: Mode) -> bool
    ensures { result ≡ goes_down step wanted }
{
    wanted == Mode::No && step.is_on()
}

// T4 to T22, T29, T30: a rule for each step, where the network does not go down.
fn rule_of(
    step: Step,
    wanted: Mode,
    done: bool,
    refused: bool,
    reached: bool,
    outfit: Outfit,
) -> Move
    ensures { result ≡ rule_of step wanted done refused reached outfit }
{
    match step {
        Step::NoCommunication => {
            let up = by_transceiver(
                outfit,
                Move::Enter(Step::ControllersStopped),
                Move::Enter(Step::TransceiverNormal),
            );
            by_mode(wanted, Move::Stay, Move::Stay, up)
        }
        Step::TransceiverNormal => when_done(done, Move::Enter(Step::ControllersStopped)),
        Step::ControllersStopped => when_done(done, Move::Enter(Step::ControllersStarted)),
        Step::ControllersStarted => when_done(done, Move::EnterFull),
        Step::Checking(ticks) => {
            let checked = if reached {
                Move::Pass
            } else {
                Move::Count(Step::Checking(rise(ticks)))
            };
            by_mode(wanted, checked, Move::EnterSilent, checked)
        }
        Step::Full => by_mode(wanted, Move::Stay, Move::EnterSilent, Move::Stay),
        Step::Restarting => when_done(done, Move::Wait),
        Step::Waiting(ticks) => {
            if reached {
                by_mode(wanted, Move::EnterFull, Move::EnterSilent, Move::EnterFull)
            } else {
                Move::Count(Step::Waiting(rise(ticks)))
            }
        }
        Step::Silent => by_mode(wanted, Move::Stay, Move::Stay, Move::EnterFull),
        Step::ClearWake => {
            let next = by_partial(outfit, Move::Stay, Move::Enter(Step::DownStopped));
            when_done(done, next)
        }
        Step::DownStopped => {
            let next = by_partial(
                outfit,
                Move::Enter(Step::ControllersSleep),
                Move::Enter(Step::TransceiverStandby),
            );
            when_done(done, next)
        }
        Step::TransceiverStandby => {
            let next = by_partial(
                outfit,
                Move::EnterNoCommunication,
                Move::Enter(Step::ControllersSleep),
            );
            when_done(done, next)
        }
        Step::ControllersSleep => {
            let slept = by_transceiver(
                outfit,
                Move::EnterNoCommunication,
                Move::Enter(Step::TransceiverStandby),
            );
            let woken = if refused {
                Move::Enter(Step::CheckWakeAgain)
            } else {
                when_done(done, Move::Enter(Step::CheckWake))
            };
            by_partial(outfit, when_done(done, slept), woken)
        }
        Step::CheckWake => {
            let next = by_partial(outfit, Move::Stay, Move::EnterNoCommunication);
            when_done(done, next)
        }
        Step::CheckWakeAgain => {
            let next = by_partial(outfit, Move::Stay, Move::Enter(Step::ClearWake));
            when_done(done, next)
        }
        Step::ResetStopped => when_done(done, Move::Enter(Step::ResetStarted)),
        Step::ResetStarted => {
            let back = by_mode(wanted, Move::EnterFull, Move::EnterSilent, Move::EnterFull);
            when_done(done, back)
        }
    }
}

// T3: what a tick decides, where going down is looked at first. Its six parameters stay: they go through two functions, and the definition `decision`
// takes the same six.
#[tactic(auto, unfolding(steps::specs::Decision::decision))]
pub fn decide(
    step: Step,
    wanted: Mode,
    done: bool,
    refused: bool,
    reached: bool,
    outfit: Outfit,
) -> Move
    ensures { result ≡ decision step wanted done refused reached outfit }
{
    if goes_down(step, wanted) {
        return Move::GoDown;
    }
    rule_of(step, wanted, done, refused, reached, outfit)
}
