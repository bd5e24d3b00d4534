// A recorded input, a sheet and then events, and the lines that `cantrace` writes for it.
#![tactic(auto)]

mod events;
mod lines;
mod running;
mod splitting;

ghost use Rattle.std.specs.Prelude.{◌≡◌, ◌^◌, ◌<◌};
ghost use Rattle.trace.specs.Trace.{moved, emptied};

pub use events::{event_at, run_event};
use manager::Manager;
pub use running::run;
pub use splitting::events_from;

// A call of the manager, as a recording names it.
#[derive(Clone, Copy)]
pub enum Event {
    Request { handle: u8, mode: u8 },
    BusOff { controller: u8 },
    Answer { controller: u8, mode: u8, ok: u8 },
    TransceiverMode { transceiver: u8, mode: u8 },
    ClearDone { transceiver: u8 },
    CheckDone { transceiver: u8 },
    Tick,
    Poll { handle: u8 },
    Stall { handle: u8 },
    Listen { value: u8 },
}

impl Event {
    // The tags of the fields. They stay numbers: they are bytes of the input, and the one place that tells them apart is `whole_item`.
    pub const REQUEST: u8 = 0x10;

    pub const BUS_OFF: u8 = 0x11;

    pub const ANSWER: u8 = 0x12;

    pub const TRANSCEIVER_MODE: u8 = 0x13;

    pub const CLEAR_DONE: u8 = 0x14;

    pub const CHECK_DONE: u8 = 0x15;

    pub const TICK: u8 = 0x16;

    pub const POLL: u8 = 0x17;

    pub const STALL: u8 = 0x18;

    pub const LISTEN: u8 = 0x19;
}

// What stands at a place of the events. Stays an enum of three: an `Option` of a `Result` would say the same in two layers.
#[derive(Clone, Copy)]
pub enum Item {
    End,
    // C21: a field that is no good event.
    Bad,
    Known(Event),
}

// What stands at a place, and the place after it. Stays a struct: a reader of fields gives both for every field, a bad one too (S13, `ReadAt`).
#[derive(Clone, Copy)]
pub struct FoundItem {
    pub item: Item,
    pub next: usize,
}

// Where a run stands: the manager, the place of the next event, the number of its line, and how many bytes of the block are filled.
// The filled bytes stay a number here, and no `Line` with the block: the definitions `Fills` and `Filled` name the number of a point.
#[derive(Clone, Copy)]
pub(crate) struct Point {
    pub(crate) manager: Manager,
    pub(crate) next: usize,
    pub(crate) number: u64,
    pub(crate) length: usize,
}

impl Point {
    // The number of the first event's line.
    pub(crate) const FIRST: u64 = 1;

    // The point after a line: the next line has the next number. All four fields are new, so there is nothing to update.
    pub(crate) fn moved(self, manager: Manager, next: usize, length: usize) -> Point
        requires { self.number < 2 ^ 63 }
        ensures { result ≡ moved self manager next length }
    {
        Point {
            manager,
            next,
            number: self.number + 1,
            length,
        }
    }

    // The same point with an empty block.
    pub(crate) fn emptied(self) -> Point
        ensures { result ≡ emptied self }
    {
        Point { length: 0, ..self }
    }
}

#[derive(Clone, Copy)]
pub struct Trace {}

impl Trace {
    // The most bytes of an input.
    pub const MOST_BYTES: usize = 65536;
    // The lent buffer of a call.
    pub const LENT: usize = Manager::TICK_NEEDS;
    // Room for the longest line: a number of 20 digits, an answer of 3, 48 records of 12 bytes, a blank and the newline.
    pub const LINE: usize = 601;
}
