// One network: its record, and what a request, an answer and a report do to it.
#![tactic(auto)]

mod answers;
mod parts;

ghost use Rattle.std.specs.Prelude.{◌≡◌};
ghost use Rattle.network.specs.State.{started, wants};
ghost use Rattle.network.specs.Answers.{answer_of};
ghost use Rattle.network.specs.Replies.{refusal_number};
ghost use Rattle.network.specs.Parts.{taken, declined, addressee};

pub use parts::{answer_part, part_of, report_part, request_part};
use records::Mode;
use settings::{Id, Network};
use steps::Step;

// N3, K2: a controller's last answer in this step. Stays an enum and no Option of a flag: K2 asks for the answers as an enum.
#[derive(Clone, Copy, Debug, PartialEq, Eq)]
pub enum LastAnswer {
    Pending,
    Okay,
    Refused,
}

impl LastAnswer {
    // The numbers that a controller answers with. They stay constants and are no discriminants: pending is no answer and has no number.
    pub const REFUSED: u8 = 0;

    pub const OKAY: u8 = 1;
}

// A1: ok, or a refusal.
impl From<bool> for LastAnswer {
    ghost from_gives = { λ ok answer. answer ≡ answer_of ok };

    fn from(ok: bool) -> LastAnswer {
        if ok {
            LastAnswer::Okay
        } else {
            LastAnswer::Refused
        }
    }
}

// N3, K2: the record of a network. The settings stand apart from it.
// It stays beside its network as a second parameter: no contract says a fact of the two.
#[derive(Clone, Copy)]
pub struct State {
    pub step: Step,
    // The wanted mode, and the one that the communication manager was last told.
    pub wanted: Mode,
    pub told: Mode,
    // The bus-offs since the last all-clear; it stays at 255.
    pub count: u8,
    // Whether the step has asked, what each controller answered, and whether the report of the transceiver has come.
    // They stay three fields and no Option: N3 gives a record each of them in every step, and `Kept` speaks of each.
    pub asked: bool,
    // The answers stay beside the controllers, in their order: a sheet has no place for them (N3, `heard_of`).
    pub answers: [LastAnswer; Network::MOST_CONTROLLERS],
    pub reported: bool,
}

// What befalls a network, and is answered at once: one of its controllers is bus-off, or its sending has stuck.
#[derive(Clone, Copy, Debug, PartialEq, Eq)]
pub enum Trouble {
    BusOff,
    Stall,
}

// What trouble does in a step that takes it: recovery begins, coming up begins anew, or a reset begins.
#[derive(Clone, Copy, Debug, PartialEq, Eq)]
pub enum Hit {
    Recover,
    Restart,
    Reset,
}

// Why a network refuses a call that names it, by its rule and its number.
#[derive(Clone, Copy, Debug, PartialEq, Eq)]
pub enum Refusal {
    // R13: a mode above 2 or an ok value above 1.
    OutOfRange = 0x21,
    // R14, R22, R23: silent asked for where the network is asleep, comes up, goes down.
    Asleep = 0x08,
    ComingUp = 0x24,
    GoingDown = 0x25,
    // R15: an answer, a report, a bus-off or a stall that the step does not take.
    NotTaken = 0x22,
}

// What a network makes of such a call: its reply, and its record after the call.
// Stays two fields and is no Result of a record: R2 speaks of the record beside a refusal too (`refused_stays`).
#[derive(Clone, Copy)]
pub struct Part {
    pub reply: Result<(), Refusal>,
    pub state: State,
}

// What a controller or a transceiver says: a controller's answer on a mode, by its number; a transceiver's mode; the wake flag.
// Modes and ok stay numbers, here and in `Message`: one that is out of range is refused with 21 (R13), so a caller can name it.
#[derive(Clone, Copy)]
pub enum Report {
    Controller(u8),
    Transceiver(u8),
    Cleared,
    Checked,
}

// What is said to a network and hands out nothing: a request from above; from below the answer of a controller, or a report of a transceiver.
#[derive(Clone, Copy)]
pub enum Message {
    Request { handle: u8, mode: u8 },
    Answer { controller: u8, mode: u8, ok: u8 },
    TransceiverMode { transceiver: u8, mode: u8 },
    ClearDone { transceiver: u8 },
    CheckDone { transceiver: u8 },
}

impl Message {
    // The id that it names.
    pub fn names(self) -> Id
        ensures { result ≡ addressee self }
    {
        match self {
            Message::Request { handle, .. } => Id::OfNetwork(handle),
            Message::Answer { controller, .. } => Id::OfController(controller),
            Message::TransceiverMode { transceiver, .. }
            | Message::ClearDone { transceiver }
            | Message::CheckDone { transceiver } => Id::OfTransceiver(transceiver),
        }
    }
}

impl Part {
    // Taken: the record is new.
    pub fn take(state: State) -> Part
        ensures { result ≡ taken state }
    {
        Part {
            reply: Ok(()),
            state,
        }
    }

    // R2: refused, the record stays as it was.
    pub fn decline(state: State, refusal: Refusal) -> Part
        ensures { result ≡ declined state refusal }
    {
        Part {
            reply: Err(refusal),
            state,
        }
    }
}

// R13 to R15, R22, R23, K6: the number of a refusal.
impl From<Refusal> for u8 {
    ghost from_gives = { λ refusal number. number ≡ refusal_number refusal };

    fn from(refusal: Refusal) -> u8 {
        refusal as u8
    }
}

impl State {
    // B2: the most bus-offs that are counted: the largest number of its type, at which `saturating_add` stays.
    pub const MOST_BUS_OFFS: u8 = 255;

    // No controller has answered.
    pub const NO_ANSWERS: [LastAnswer; Network::MOST_CONTROLLERS] =
        [LastAnswer::Pending; Network::MOST_CONTROLLERS];

    // N7, N8: the record at the start.
    pub fn start(network: Network) -> State
        ensures { result ≡ started network }
    {
        State {
            step: steps::first_down(network.partial),
            wanted: Mode::No,
            told: Mode::No,
            count: 0,
            asked: false,
            answers: State::NO_ANSWERS,
            reported: false,
        }
    }

    // N14: the wanted mode is the one requested, and all else stays.
    #[tactic(auto, unfolding(crate::specs::State::wants))]
    pub fn want(self, mode: Mode) -> State
        ensures { result ≡ wants self mode }
    {
        State {
            wanted: mode,
            ..self
        }
    }
}
