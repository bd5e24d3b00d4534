// The fields of a settings sheet: what each says. What it does to the settings is defined here; the code of that is in `grammar`.
#![tactic(auto)]

mod values;

ghost use Rattle.std.specs.Prelude.{◌≡◌};
ghost use Rattle.entries.specs.Entries.{fault_number};

use fields::Field;
use settings::Network;
pub use values::{entry_at, next_entry};

// Why a sheet is refused: each with its number.
#[derive(Clone, Copy, Debug, PartialEq, Eq)]
pub enum Fault {
    Cut = 0x30,
    UnknownTag = 0x31,
    WrongLength = 0x32,
    OutOfOrder = 0x33,
    OutOfRange = 0x34,
    UsedBefore = 0x35,
    TooMany = 0x36,
    NoTransceiver = 0x37,
    Empty = 0x38,
}

impl From<Fault> for u8 {
    ghost from_gives = { λ fault n. n ≡ fault_number fault };

    fn from(fault: Fault) -> u8 {
        fault as u8
    }
}

// What a field of a sheet says. The end and a bad field stay beside the seven kinds: where each of the nine may stand is one table, for which `opens`
// and `fills` say what it does.
#[derive(Clone, Copy)]
pub enum Entry {
    // There is no field: the bytes are at their end.
    End,
    // The field is laid out wrongly.
    Bad(Fault),
    Handle(u8),
    Controller(u8),
    Transceiver(u8),
    Times { short: u16, long: u16, ensure: u16 },
    Threshold(u8),
    Partial(u8),
    Relation(u8),
}

impl Entry {
    // The tags of the fields. They stay numbers: they are bytes of a sheet, and the one place that tells them apart is `byte_entry`.
    pub const HANDLE_TAG: u8 = 0x01;

    pub const CONTROLLER_TAG: u8 = 0x02;

    pub const TRANSCEIVER_TAG: u8 = 0x03;

    pub const TIMES_TAG: u8 = 0x04;

    pub const THRESHOLD_TAG: u8 = 0x05;

    pub const PARTIAL_TAG: u8 = 0x06;

    pub const RELATION_TAG: u8 = 0x07;
    // The lengths of the values: three numbers of two bytes, else one byte.
    pub const TIMES_LENGTH: u16 = 6;

    pub const BYTE_LENGTH: u16 = 1;
    // How far into the value of field 04 each of its numbers stands.
    pub const SHORT_TIME: usize = 0;

    pub const LONG_TIME: usize = Entry::SHORT_TIME + Field::NUMBER;

    pub const ENSURE_TIME: usize = Entry::LONG_TIME + Field::NUMBER;
    // The lengths of the whole fields.
    pub const TIMES_FIELD: usize = Field::HEAD + Entry::TIMES_LENGTH as usize;

    pub const BYTE_FIELD: usize = Field::HEAD + Entry::BYTE_LENGTH as usize;
    // The length of the fields that every network has once: 01, 04, 05 and 06.
    pub const FIXED_FIELDS: usize = Entry::TIMES_FIELD + 3 * Entry::BYTE_FIELD;
    // What field 06 says.
    pub const WITHOUT_PARTIAL: u8 = 0;

    pub const WITH_PARTIAL: u8 = 1;
    // What field 07 says, where it is there.
    pub const AT_OR_ABOVE: u8 = 1;
}

// How the head of a field, its tag and its length, lays out a value: one byte, or the three times.
#[derive(Clone, Copy, Debug, PartialEq, Eq)]
pub enum Layout {
    Byte,
    Times,
}

// An entry, and the place after its field.
// Stays a struct: a reader of fields gives both for every field, a bad one too (S13, `ReadAt`).
#[derive(Clone, Copy)]
pub struct FoundEntry {
    pub entry: Entry,
    pub next: usize,
}

// How far an unfinished network has come, by its last field: 01, 02, 03, 04 or 05.
#[derive(Clone, Copy, Debug, PartialEq, Eq)]
pub enum Progress {
    Named,
    Listed,
    Fitted,
    Timed,
    Limited,
}

// What an entry that is taken does where a network may begin.
#[derive(Clone, Copy, Debug, PartialEq, Eq)]
pub enum Opening {
    Closes,
    Begins(u8),
    // It is field 07 of the network before.
    Amends,
}

// A network with what an entry says: how far it has come, or none where it is whole.
#[derive(Clone, Copy)]
pub struct Filled {
    pub network: Network,
    pub progress: Option<Progress>,
}
