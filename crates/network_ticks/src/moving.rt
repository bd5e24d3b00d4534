// The record of a network after a move.
ghost use Rattle.std.specs.Prelude.{◌≡◌};
ghost use Rattle.network.specs.Moving.{lowered, told_after, count_after, asks_after, keeps_answers, after_move};

use network::State;
use records::Mode;
use settings::Network;
use steps::Move;

// T25: going down tells silent where full was told.
fn lower(told: Mode) -> Mode
    ensures { result ≡ lowered told }
{
    match told {
        Mode::No | Mode::Silent => told,
        Mode::Full => Mode::Silent,
    }
}

fn told_after(to: Move, told: Mode) -> Mode
    ensures { result ≡ told_after to told }
{
    match to {
        Move::EnterFull => Mode::Full,
        Move::EnterSilent => Mode::Silent,
        Move::GoDown => lower(told),
        Move::EnterNoCommunication => Mode::No,
        Move::Stay | Move::AskAgain | Move::Count(_) | Move::Pass | Move::Wait | Move::Enter(_) =>
            told,
    }
}

// T10: only passed lets the bus-offs count from 0.
fn count_after(to: Move, count: u8) -> u8
    ensures { result ≡ count_after to count }
{
    match to {
        Move::Pass => 0,
        _ => count,
    }
}

// N11, N12: whether the step after a move has asked.
fn asks_after(to: Move, asked: bool) -> bool
    ensures { result ≡ asks_after to asked }
{
    match to {
        Move::Stay | Move::Count(_) => asked,
        Move::AskAgain | Move::GoDown | Move::Enter(_) => true,
        Move::EnterFull | Move::EnterSilent | Move::Pass => false,
        Move::Wait | Move::EnterNoCommunication => false,
    }
}

// N11, N12: where the step stays, what was answered stays with it.
fn keeps_answers(to: Move) -> bool
    ensures { result ≡ keeps_answers to }
{
    matches!(to, Move::Stay | Move::AskAgain | Move::Count(_))
}

pub fn after_move(network: Network, state: State, to: Move) -> State
    ensures { result ≡ after_move network state to }
{
    let moved = State {
        step: steps::step_after(to, state.step, network.partial),
        told: told_after(to, state.told),
        count: count_after(to, state.count),
        asked: asks_after(to, state.asked),
        ..state
    };
    if keeps_answers(to) {
        return moved;
    }
    State {
        answers: State::NO_ANSWERS,
        reported: false,
        ..moved
    }
}
