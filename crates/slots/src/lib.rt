// The manager's data: its networks and their records, in eight slots; answers and outcomes; the room that a call needs, and a network's part lifted to
// its slot.
#![tactic(auto)]

mod room;
mod settling;

ghost use Rattle.std.specs.Prelude.{◌≡◌};
ghost use Rattle.slots.specs.Manager.{call_refusal_number, answer_number, blank_state, answered, accepted, network_at, state_at, with_state, with_listening};
ghost use Rattle.slots.specs.Calls.{unknown};

use entries::Fault;
use network::{Refusal, State};
use records::{Mode, Record};
pub use room::{gate_of, listen_needs, tick_needs};
use settings::{Id, Network, Settings};
pub use settling::settle;
use steps::Step;

// Whether the manager has a sheet, and whether it was started.
#[derive(Clone, Copy, Debug, PartialEq, Eq)]
pub enum Stage {
    Empty,
    Loaded,
    Started,
}

// The settings of the sheet, and the record of each of its networks, in its order; unused slots are blank. L1: beside them, whether the manager
// listens.
// The records stay an array beside the settings, and no pairs: N3 keeps them apart, and a sheet is written from the settings alone. The stage stays
// beside them: definitions say each field in every stage (`loaded`, `started_from`).
#[derive(Clone, Copy)]
pub struct Manager {
    pub stage: Stage,
    pub listening: bool,
    pub settings: Settings,
    pub states: [State; Settings::MOST_NETWORKS],
}

// Of which call it is asked how many records a network may hand out.
// Stays an enum: a closure in its place would be known by its clauses only, and those would name the same two numbers of `share_in` again.
#[derive(Clone, Copy)]
pub enum Share {
    Tick,
    Listen,
}

// Why a call is refused, by its rule and its number.
#[derive(Clone, Copy, Debug, PartialEq, Eq)]
pub enum CallRefusal {
    // R7: 01, the manager was not started, or has no sheet.
    NotReady,
    // R8: 0B, the manager runs.
    Running,
    // R9: 20, too few bytes were lent.
    TooShort,
    // R10 to R12: 03, 04, 05, nobody has this handle, controller, transceiver.
    NoHandle,
    NoController,
    NoTransceiver,
    // R13: 21, a value that says neither to listen nor not to.
    OutOfRange,
    // 21, 08, 24, 25, 22: the refusals of the network that the call names.
    Network(Refusal),
    // 30 to 38, by the bytes of a sheet: the reader's own refusals.
    Sheet(Fault),
}

// What a call answers: that it is accepted, or why it is not.
pub type Answer = Result<(), CallRefusal>;

impl CallRefusal {
    // R10 to R12: the refusal where nobody has the id.
    pub fn unknown(id: Id) -> CallRefusal
        ensures { result ≡ unknown id }
    {
        match id {
            Id::OfNetwork(_) => CallRefusal::NoHandle,
            Id::OfController(_) => CallRefusal::NoController,
            Id::OfTransceiver(_) => CallRefusal::NoTransceiver,
        }
    }
}

// R1, R7 to R12, K6: the number of each refusal.
impl From<CallRefusal> for u8 {
    ghost from_gives = { λ refusal number. number ≡ call_refusal_number refusal };

    fn from(refusal: CallRefusal) -> u8 {
        match refusal {
            CallRefusal::NotReady => 0x01,
            CallRefusal::Running => 0x0B,
            CallRefusal::TooShort => 0x20,
            CallRefusal::NoHandle => 0x03,
            CallRefusal::NoController => 0x04,
            CallRefusal::NoTransceiver => 0x05,
            CallRefusal::OutOfRange => 0x21,
            CallRefusal::Network(refusal) => u8::from(refusal),
            CallRefusal::Sheet(fault) => u8::from(fault),
        }
    }
}

// What a call gives: its answer, the next manager, a count (of records, of networks, of bytes written), the polled mode, the place.
// Stays a struct, with the answer a `Result` in it: K7 and R2 to R4 say what the other four are beside a refusal too (`refused`).
#[derive(Clone, Copy)]
pub struct Outcome {
    pub answer: Answer,
    pub manager: Manager,
    pub count: usize,
    pub mode: u8,
    pub place: usize,
}

impl Outcome {
    // R1: the number of an accepted call.
    pub const ACCEPTED: u8 = 0x00;

    // R1, R7 to R12, K6: the number of its answer.
    pub fn number(&self) -> u8
        ensures { result ≡ answer_number self.now.answer }
    {
        Outcome::number_of(self.answer)
    }

    // R1, R7 to R12, K6: the number of an answer by itself, as `hearing::hear` gives it.
    pub fn number_of(answer: Answer) -> u8
        ensures { result ≡ answer_number answer }
    {
        match answer {
            Ok(()) => Outcome::ACCEPTED,
            Err(refusal) => u8::from(refusal),
        }
    }

    // R2 to R4: beside this answer the manager stays as it was, and the count, the polled mode and the place are 0.
    pub fn refuse(manager: Manager, answer: Answer) -> Outcome
        ensures { result ≡ answered manager answer }
    {
        Outcome {
            answer,
            ..Outcome::accept(manager)
        }
    }

    // Accepted, with nothing to count.
    // It names all five fields, since the other outcomes are made of it.
    pub fn accept(manager: Manager) -> Outcome
        ensures { result ≡ accepted manager 0 }
    {
        Outcome {
            answer: Ok(()),
            manager,
            count: 0,
            mode: 0,
            place: 0,
        }
    }
}

impl Manager {
    // R17: the most records of a bus-off, and the bytes that they need.
    pub const BUS_OFF_RECORDS: usize = 3;

    pub const BUS_OFF_NEEDS: usize = Record::SIZE * Manager::BUS_OFF_RECORDS;
    // R21: the bytes of a stall, which hands out one record at most.
    pub const STALL_NEEDS: usize = Record::SIZE;
    // L1: the value that sets listening; 0 clears it. It stays a number: one above it is refused with 21 (R13), so a caller can name it.
    pub const LISTENS: u8 = 1;
    // The most records of a tick that name a network's handle and no controller.
    pub const NOTICES: usize = 2;
    // The most records of a tick, and the bytes that they need.
    pub const TICK_RECORDS: usize = Settings::MOST_NETWORKS
        * (Network::MOST_CONTROLLERS + Manager::NOTICES);

    pub const TICK_NEEDS: usize = Record::SIZE * Manager::TICK_RECORDS;

    // The network of a slot; past the slots it is blank.
    pub fn network_at(&self, at: usize) -> Network
        ensures { result ≡ network_at self.now at }
    {
        self.settings
            .networks
            .get(at)
            .copied()
            .unwrap_or(Network::blank())
    }

    // The record of a slot; past the slots it is blank. The records alone are copied: the rest of the manager need not lie in memory for it.
    pub fn state_at(&self, at: usize) -> State
        ensures { result ≡ state_at self.now at }
    {
        let states = self.states;
        states.get(at).copied().unwrap_or(blank_state())
    }

    // The manager with the record of one network new.
    // A changed copy: one slot is new, which a literal cannot say.
    pub fn with_state(self, at: usize, state: State) -> Manager
        ensures { result ≡ with_state self at state }
    {
        let mut next = self;
        if at < Settings::MOST_NETWORKS {
            next.states[at] = state;
        }
        next
    }

    // L1, L4: the manager that listens, or does not.
    pub fn with_listening(self, listening: bool) -> Manager
        ensures { result ≡ with_listening self listening }
    {
        Manager { listening, ..self }
    }
}

// A record that is not in use.
pub fn blank_state() -> State
    ensures { result ≡ blank_state }
{
    State {
        step: Step::NoCommunication,
        wanted: Mode::No,
        told: Mode::No,
        count: 0,
        asked: false,
        answers: State::NO_ANSWERS,
        reported: false,
    }
}
