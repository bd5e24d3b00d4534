// The seventeen steps of a network, what each asks for, what a tick can decide, and the step after that.
#![tactic(auto)]

mod after;

ghost use Rattle.std.specs.Prelude.{◌≡◌};
ghost use Rattle.steps.specs.Steps.{row, profile_of, step_number, phase_of, asks_for, timer_of};
ghost use Rattle.steps.specs.Steps.{on_phase, up_phase, full_phase, is_on, is_up, is_full_step, is_restarting, asks_to_start, asks_to_sleep};

pub use after::{first_down, step_after};
use records::{ControllerMode, TransceiverMode};

// N1, N2, K2: where a network is. Steps 4 and 7 have the number of their ticks inside.
#[derive(Clone, Copy, Debug, PartialEq, Eq)]
pub enum Step {
    // 0.
    NoCommunication,
    // Coming up, 1 to 3.
    TransceiverNormal,
    ControllersStopped,
    ControllersStarted,
    // Up, 4 to 8: full and being checked, full, restarting, waiting with TX offline, silent.
    Checking(u16),
    Full,
    Restarting,
    Waiting(u16),
    Silent,
    // Going down, 9 to 14.
    ClearWake,
    DownStopped,
    TransceiverStandby,
    ControllersSleep,
    CheckWake,
    CheckWakeAgain,
    // After a stall, 15 and 16, where the network is up.
    ResetStopped,
    ResetStarted,
}

// What a network is about in a step. What holds of whole groups of steps is said of the phase.
#[derive(Clone, Copy, Debug, PartialEq, Eq)]
pub enum Phase {
    Off,
    Rising,
    Checking,
    Full,
    // After a bus-off: restarting, and waiting.
    Recovering,
    Silent,
    Falling,
    // After a stall: the controllers are stopped, and started again.
    Resetting,
}

// What a step asks for. Stays one enum: to ask for nothing is one case of five, and no code takes the other four together.
#[derive(Clone, Copy, Debug, PartialEq, Eq)]
pub enum Ask {
    Nothing,
    Controllers(ControllerMode),
    Transceiver(TransceiverMode),
    ClearWake,
    CheckWake,
}

// The ticks that a step has counted, by the time that they are held against. Stays one enum: no code takes the two times together.
#[derive(Clone, Copy, Debug, PartialEq, Eq)]
pub enum Timer {
    Idle,
    Ensure(u16),
    Delay(u16),
}

// What is said of each step once: its number, its phase, what it asks for and what it counts.
#[derive(Clone, Copy, Debug, PartialEq, Eq)]
pub struct Profile {
    pub number: u8,
    pub phase: Phase,
    pub ask: Ask,
    pub timer: Timer,
}

// How a network is equipped: no transceiver, a transceiver, a transceiver with partial networking.
#[derive(Clone, Copy, Debug, PartialEq, Eq)]
pub enum Outfit {
    Bare,
    Fitted,
    Partial,
}

// What a tick does with a network.
#[derive(Clone, Copy, Debug, PartialEq, Eq)]
pub enum Move {
    // Nothing.
    Stay,
    // The step's requests are sent again.
    AskAgain,
    // The tick count rises: the step with the new count.
    Count(Step),
    EnterFull,
    EnterSilent,
    // The ensure time is over: the all-clear.
    Pass,
    // The controllers run again: TX offline, and the delay begins.
    Wait,
    GoDown,
    EnterNoCommunication,
    // An asking step is entered.
    Enter(Step),
}

impl Phase {
    // Steps 1 to 8, 15 and 16, which a network leaves where no communication is wanted.
    fn is_on(self) -> bool
        ensures { result ≡ on_phase self }
    {
        !matches!(self, Phase::Off | Phase::Falling)
    }

    // N4: steps 4 to 8, 15 and 16.
    fn is_up(self) -> bool
        ensures { result ≡ up_phase self }
    {
        !matches!(self, Phase::Off | Phase::Rising | Phase::Falling)
    }

    // N5: steps 4 and 5.
    fn is_full(self) -> bool
        ensures { result ≡ full_phase self }
    {
        matches!(self, Phase::Checking | Phase::Full)
    }
}

impl Ask {
    pub const NORMAL: Ask = Ask::Transceiver(TransceiverMode::Normal);

    pub const STANDBY: Ask = Ask::Transceiver(TransceiverMode::Standby);

    pub const STOPPED: Ask = Ask::Controllers(ControllerMode::Stopped);

    pub const STARTED: Ask = Ask::Controllers(ControllerMode::Started);

    pub const SLEEP: Ask = Ask::Controllers(ControllerMode::Sleep);

    // The controllers are to start.
    pub fn is_to_start(self) -> bool
        ensures { result ≡ asks_to_start self }
    {
        self == Ask::STARTED
    }

    // The controllers are to sleep.
    pub fn is_to_sleep(self) -> bool
        ensures { result ≡ asks_to_sleep self }
    {
        self == Ask::SLEEP
    }
}

// A row of the table, in one line.
fn row(number: u8, phase: Phase, ask: Ask, timer: Timer) -> Profile
    ensures { result ≡ row number phase ask timer }
{
    Profile {
        number,
        phase,
        ask,
        timer,
    }
}

impl Step {
    // The most ticks that a timed step counts: the largest number of its type, at which `saturating_add` stays.
    pub const MOST_TICKS: u16 = 65535;

    // N1, N2: the table of the steps. Stays a table by match: a step has its ticks inside, so it is no index, and the check sees that no step is missing.
    fn profile(self) -> Profile
        ensures { result ≡ profile_of self }
    {
        match self {
            Step::NoCommunication => row(0, Phase::Off, Ask::Nothing, Timer::Idle),
            Step::TransceiverNormal => row(1, Phase::Rising, Ask::NORMAL, Timer::Idle),
            Step::ControllersStopped => row(2, Phase::Rising, Ask::STOPPED, Timer::Idle),
            Step::ControllersStarted => row(3, Phase::Rising, Ask::STARTED, Timer::Idle),
            Step::Checking(ticks) => row(4, Phase::Checking, Ask::Nothing, Timer::Ensure(ticks)),
            Step::Full => row(5, Phase::Full, Ask::Nothing, Timer::Idle),
            Step::Restarting => row(6, Phase::Recovering, Ask::STARTED, Timer::Idle),
            Step::Waiting(ticks) => row(7, Phase::Recovering, Ask::Nothing, Timer::Delay(ticks)),
            Step::Silent => row(8, Phase::Silent, Ask::Nothing, Timer::Idle),
            Step::ClearWake => row(9, Phase::Falling, Ask::ClearWake, Timer::Idle),
            Step::DownStopped => row(10, Phase::Falling, Ask::STOPPED, Timer::Idle),
            Step::TransceiverStandby => row(11, Phase::Falling, Ask::STANDBY, Timer::Idle),
            Step::ControllersSleep => row(12, Phase::Falling, Ask::SLEEP, Timer::Idle),
            Step::CheckWake => row(13, Phase::Falling, Ask::CheckWake, Timer::Idle),
            Step::CheckWakeAgain => row(14, Phase::Falling, Ask::CheckWake, Timer::Idle),
            Step::ResetStopped => row(15, Phase::Resetting, Ask::STOPPED, Timer::Idle),
            Step::ResetStarted => row(16, Phase::Resetting, Ask::STARTED, Timer::Idle),
        }
    }

    // The number of this step. Stays a method: two of the variants have ticks inside, so they cannot be given numbers.
    pub fn number(self) -> u8
        ensures { result ≡ step_number self }
    {
        self.profile().number
    }

    // What the network is about in this step.
    pub fn phase(self) -> Phase
        ensures { result ≡ phase_of self }
    {
        self.profile().phase
    }

    // What this step asks for.
    pub fn asks(self) -> Ask
        ensures { result ≡ asks_for self }
    {
        self.profile().ask
    }

    // The ticks that this step has counted.
    pub fn timer(self) -> Timer
        ensures { result ≡ timer_of self }
    {
        self.profile().timer
    }

    // Steps 1 to 8, 15 and 16.
    pub fn is_on(self) -> bool
        ensures { result ≡ is_on self }
    {
        self.phase().is_on()
    }

    // N4: steps 4 to 8, 15 and 16.
    pub fn is_up(self) -> bool
        ensures { result ≡ is_up self }
    {
        self.phase().is_up()
    }

    // B2: step 6, in which the controllers are started again after a bus-off.
    pub fn is_restarting(self) -> bool
        ensures { result ≡ is_restarting self }
    {
        self == Step::Restarting
    }

    // N5: steps 4 and 5.
    pub fn is_full(self) -> bool
        ensures { result ≡ is_full_step self }
    {
        self.phase().is_full()
    }
}
