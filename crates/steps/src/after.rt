// The step after a move.
ghost use Rattle.std.specs.Prelude.{◌≡◌};
ghost use Rattle.steps.specs.After.{first_down, step_after};

use crate::{Move, Step};

// N7: the first down step is 9 with partial networking, else 10.
pub fn first_down(partial: bool) -> Step
    ensures { result ≡ first_down partial }
{
    if partial {
        Step::ClearWake
    } else {
        Step::DownStopped
    }
}

// The step after a move, of a network with or without partial networking.
pub fn step_after(to: Move, step: Step, partial: bool) -> Step
    ensures { result ≡ step_after to step partial }
{
    match to {
        Move::Stay | Move::AskAgain => step,
        Move::Count(next) | Move::Enter(next) => next,
        Move::EnterFull => Step::Checking(0),
        Move::EnterSilent => Step::Silent,
        Move::Pass => Step::Full,
        Move::Wait => Step::Waiting(0),
        Move::GoDown => first_down(partial),
        Move::EnterNoCommunication => Step::NoCommunication,
    }
}
