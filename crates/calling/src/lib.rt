// Every public call of the manager, made by one caller. What its contract says is all that the promises of the calls give to code that makes them:
// the theorems about what calls returned begin here, so a call that promised less would be refused here.
#![tactic(auto)]

ghost use Rattle.std.specs.Prelude.{◌≡◌};
ghost use Rattle.slots.specs.Manager.{answer_number};
ghost use Rattle.calling.specs.Returned.{New, Returned};

use manager::{Manager, Outcome};

// A call with its numbers. What a reading reads and what a call is lent stand beside it.
// It stays beside `trace::Event` and `network::Message`: each has the calls that its caller can make, and definitions speak of each.
#[derive(Clone, Copy)]
pub enum Task {
    Read,
    Write,
    Start,
    Request { handle: u8, mode: u8 },
    Poll { handle: u8 },
    BusOff { controller: u8 },
    Stall { handle: u8 },
    Answer { controller: u8, mode: u8, ok: u8 },
    TransceiverMode { transceiver: u8, mode: u8 },
    ClearDone { transceiver: u8 },
    CheckDone { transceiver: u8 },
    Tick,
    Listen { value: u8 },
}

// A new manager.
pub fn begin() -> Manager
    ensures { New result }
{
    manager::new()
}

// The call that a task is, with the bytes that a reading reads and the buffer that is lent. Stays a match, as `trace::run_event`.
pub fn make(manager: Manager, task: Task, bytes: &[u8], buffer: &mut [u8]) -> Outcome
    ensures { Returned manager task bytes.now buffer.old result buffer.new }
{
    match task {
        Task::Read => manager::read(manager, bytes),
        Task::Write => manager::write(manager, buffer),
        Task::Start => manager::start(manager),
        Task::Request { handle, mode } => manager::request(manager, handle, mode),
        Task::Poll { handle } => manager::poll(manager, handle),
        Task::BusOff { controller } => manager::bus_off(manager, controller, buffer),
        Task::Stall { handle } => manager::stall(manager, handle, buffer),
        Task::Answer {
            controller,
            mode,
            ok,
        } => manager::controller_answer(manager, controller, mode, ok),
        Task::TransceiverMode { transceiver, mode } => manager::transceiver_mode(
            manager,
            transceiver,
            mode,
        ),
        Task::ClearDone { transceiver } => manager::clear_done(manager, transceiver),
        Task::CheckDone { transceiver } => manager::check_done(manager, transceiver),
        Task::Tick => manager::tick(manager, buffer),
        Task::Listen { value } => manager::listen(manager, value, buffer),
    }
}

// The number of the answer that came back, which a caller notes.
pub fn number_of(outcome: Outcome) -> u8
    ensures { result ≡ answer_number outcome.answer }
{
    outcome.number()
}
