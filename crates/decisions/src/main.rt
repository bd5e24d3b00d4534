// Writes all 1,224 decisions of the tick: a line for each step, with the step and its 72 next steps, each choice in this order: wanted no,
// silent, full; done, not done; a refusal present, absent; the timer reached, not; no transceiver, a transceiver, a transceiver with partial
// networking. The last varies fastest.
#![tactic(auto)]

use records::Mode;
use std::io;
use std::io::Write;
use steps::{Outfit, Step};

// The steps, in the order of their numbers.
const STEPS: [Step; 17] = [
    Step::NoCommunication,
    Step::TransceiverNormal,
    Step::ControllersStopped,
    Step::ControllersStarted,
    Step::Checking(0),
    Step::Full,
    Step::Restarting,
    Step::Waiting(0),
    Step::Silent,
    Step::ClearWake,
    Step::DownStopped,
    Step::TransceiverStandby,
    Step::ControllersSleep,
    Step::CheckWake,
    Step::CheckWakeAgain,
    Step::ResetStopped,
    Step::ResetStarted,
];

// The step, and the next one of each choice.
fn put_line<W: Write>(out: &mut W, step: Step) -> io::Result<()> {
    write!(out, "{}", step.number())?;
    for wanted in [Mode::No, Mode::Silent, Mode::Full] {
        for done in [true, false] {
            for refused in [true, false] {
                for reached in [true, false] {
                    for outfit in [Outfit::Bare, Outfit::Fitted, Outfit::Partial] {
                        let decided = deciding::decide(
                            step, wanted, done, refused, reached, outfit,
                        );
                        let partial = matches!(outfit, Outfit::Partial);
                        let next = steps::step_after(decided, step, partial);
                        write!(out, " {}", next.number())?;
                    }
                }
            }
        }
    }
    writeln!(out)
}

fn main(rt: HostRuntime) -> io::Result<()> {
    let mut out = io::writer(&rt);
    writeln!(out, "expected output made by: python3 tests/decisions.py")?;
    for step in STEPS {
        put_line(&mut out, step)?;
    }
    Ok(())
}
