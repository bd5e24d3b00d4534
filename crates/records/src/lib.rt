// The records handed out: three bytes each, kind, target and argument, from the front of a lent buffer.
#![tactic(auto)]

ghost use Rattle.std.specs.Prelude.{◌+◌, ◌*◌, ◌≤◌, ◌≡◌, [], ◌∷◌, true, length};
ghost use Rattle.records.specs.Records.{controller_number, transceiver_number, pdu_number, mode_number, mode_named, notice_number, status_number};
ghost use Rattle.records.specs.Records.{handed, record_at, controller_mode, transceiver_mode, pdu_mode, clear_wake, check_wake, tells, notes, reports, turned};
ghost use Rattle.records.specs.Wrote.{Room, Wrote, heeded};

// H1: a record handed out. Stays three numbers: whatever three bytes stand in a buffer are read as one, so its kind need not be among the eight.
#[derive(Clone, Copy, Debug, PartialEq, Eq)]
pub struct Record {
    pub kind: u8,
    pub target: u8,
    pub argument: u8,
}

// H5: what a controller can be asked for.
#[derive(Clone, Copy, Debug, PartialEq, Eq)]
pub enum ControllerMode {
    Stopped = 0,
    Started = 1,
    Sleep = 2,
}

impl ControllerMode {
    // The largest number that an answer may name.
    pub const MOST_NUMBER: u8 = ControllerMode::Sleep as u8;
}

impl From<ControllerMode> for u8 {
    ghost from_gives = { λ mode number. number ≡ controller_number mode };

    fn from(mode: ControllerMode) -> u8 {
        mode as u8
    }
}

// H6: what a transceiver can be asked for.
#[derive(Clone, Copy, Debug, PartialEq, Eq)]
pub enum TransceiverMode {
    Normal = 0,
    Standby = 1,
}

impl TransceiverMode {
    // The largest number that a report may name. No step asks for it, so no variant has it.
    pub const MOST_NUMBER: u8 = 2;
}

impl From<TransceiverMode> for u8 {
    ghost from_gives = { λ mode number. number ≡ transceiver_number mode };

    fn from(mode: TransceiverMode) -> u8 {
        mode as u8
    }
}

// H7: the PDU mode of a controller.
#[derive(Clone, Copy, Debug, PartialEq, Eq)]
pub enum PduMode {
    Online = 0,
    TxOffline = 1,
}

impl PduMode {
    // L2: what online goes out as where the manager listens. No rule of a network asks for it, so no variant has it.
    pub const TX_OFFLINE_ACTIVE: u8 = 2;
}

impl From<PduMode> for u8 {
    ghost from_gives = { λ mode number. number ≡ pdu_number mode };

    fn from(mode: PduMode) -> u8 {
        mode as u8
    }
}

// H10: a communication mode: wanted, told, polled.
#[derive(Clone, Copy, Debug, PartialEq, Eq)]
pub enum Mode {
    No = 0,
    Silent = 1,
    Full = 2,
}

// A number that names no mode.
#[derive(Clone, Copy, Debug, PartialEq, Eq)]
pub struct UnknownMode;

// The mode with this number.
impl TryFrom<u8> for Mode {
    type Error = UnknownMode;

    ghost try_from_gives = { λ number named. named ≡ mode_named number };

    fn try_from(number: u8) -> Result<Mode, UnknownMode> {
        const NO: u8 = Mode::No as u8;
        const SILENT: u8 = Mode::Silent as u8;
        const FULL: u8 = Mode::Full as u8;
        match number {
            NO => Ok(Mode::No),
            SILENT => Ok(Mode::Silent),
            FULL => Ok(Mode::Full),
            _ => Err(UnknownMode),
        }
    }
}

impl From<Mode> for u8 {
    ghost from_gives = { λ mode number. number ≡ mode_number mode };

    fn from(mode: Mode) -> u8 {
        mode as u8
    }
}

// H11: what the mode manager is told.
#[derive(Clone, Copy, Debug, PartialEq, Eq)]
pub enum Notice {
    No = 0,
    Silent = 1,
    Full = 2,
    BusOff = 3,
}

impl From<Notice> for u8 {
    ghost from_gives = { λ notice number. number ≡ notice_number notice };

    fn from(notice: Notice) -> u8 {
        notice as u8
    }
}

// H12: what the event manager is told.
#[derive(Clone, Copy, Debug, PartialEq, Eq)]
pub enum EventStatus {
    Passed = 0,
    Prefailed = 1,
}

impl From<EventStatus> for u8 {
    ghost from_gives = { λ status number. number ≡ status_number status };

    fn from(status: EventStatus) -> u8 {
        status as u8
    }
}

impl Record {
    // The bytes of a record.
    pub const SIZE: usize = 3;
    // H5 to H12: the kinds. The first and the third name a controller, the second, the fourth and the fifth a transceiver, the others a handle.
    pub const CONTROLLER_MODE: u8 = 1;

    pub const TRANSCEIVER_MODE: u8 = 2;

    pub const PDU_MODE: u8 = 3;

    pub const CLEAR_WAKE: u8 = 4;

    pub const CHECK_WAKE: u8 = 5;

    pub const COMMUNICATION: u8 = 6;

    pub const MODES: u8 = 7;

    pub const EVENTS: u8 = 8;
    // H8, H9: the argument of the kinds that have none.
    pub const NOTHING: u8 = 0;

    // A record by its three numbers, in one line.
    fn new(kind: u8, target: u8, argument: u8) -> Record
        ensures { result ≡ handed kind target argument }
    {
        Record {
            kind,
            target,
            argument,
        }
    }

    pub fn controller_mode(id: u8, mode: ControllerMode) -> Record
        ensures { result ≡ controller_mode id mode }
    {
        Record::new(Record::CONTROLLER_MODE, id, mode.into())
    }

    pub fn transceiver_mode(id: u8, mode: TransceiverMode) -> Record
        ensures { result ≡ transceiver_mode id mode }
    {
        Record::new(Record::TRANSCEIVER_MODE, id, mode.into())
    }

    pub fn pdu_mode(id: u8, mode: PduMode) -> Record
        ensures { result ≡ pdu_mode id mode }
    {
        Record::new(Record::PDU_MODE, id, mode.into())
    }

    pub fn clear_wake(id: u8) -> Record
        ensures { result ≡ clear_wake id }
    {
        Record::new(Record::CLEAR_WAKE, id, Record::NOTHING)
    }

    pub fn check_wake(id: u8) -> Record
        ensures { result ≡ check_wake id }
    {
        Record::new(Record::CHECK_WAKE, id, Record::NOTHING)
    }

    // The communication manager is told a mode.
    pub fn tell(handle: u8, mode: Mode) -> Record
        ensures { result ≡ tells handle mode }
    {
        Record::new(Record::COMMUNICATION, handle, mode.into())
    }

    // The mode manager is told.
    pub fn note(handle: u8, notice: Notice) -> Record
        ensures { result ≡ notes handle notice }
    {
        Record::new(Record::MODES, handle, notice.into())
    }

    // The event manager is told.
    pub fn report(handle: u8, status: EventStatus) -> Record
        ensures { result ≡ reports handle status }
    {
        Record::new(Record::EVENTS, handle, status.into())
    }

    // H1, H2: record number k of a buffer.
    pub fn read(buffer: &[u8], k: usize) -> Record
        requires { 3 * (k + 1) ≤ length buffer.now }
        ensures { result ≡ record_at k buffer.now }
    {
        let at = Record::SIZE * k;
        Record::new(buffer[at], buffer[at + 1], buffer[at + 2])
    }

    // L2: the record as it goes out where the manager listens.
    fn turn(self) -> Record
        ensures { result ≡ turned true self }
    {
        if self == Record::pdu_mode(self.target, PduMode::Online) {
            return Record {
                argument: PduMode::TX_OFFLINE_ACTIVE,
                ..self
            };
        }
        self
    }
}

// H1, H2: record number k of a buffer is now this one; the answer is the number of the next.
fn put_record(out: &mut [u8], k: usize, handed: Record) -> usize
    requires { Room out.old k (handed ∷ []) }
    ensures { Wrote out.old out.new k result (handed ∷ []) }
{
    let at = Record::SIZE * k;
    out[at] = handed.kind;
    out[at + 1] = handed.target;
    out[at + 2] = handed.argument;
    k + 1
}

// H2: a lent buffer, and how many records stand at its front.
#[derive(Drop)]
pub struct Tray<'a> {
    pub out: &'a mut [u8],
    pub count: usize,
}

impl<'a> Tray<'a> {
    ghost use Rattle.records.specs.Tray.{HasRoom, Handed};

    // H1, H2: one record more.
    pub fn put(&mut self, handed: Record)
        requires { HasRoom self.old (handed ∷ []) }
        ensures { Handed self.old (handed ∷ []) self.new }
    {
        self.count = put_record(self.out, self.count, handed);
    }
}

// L2: the first records of the lent buffer go out as they do where the manager listens, or does not. Stays a function on the buffer: the tray by
// which they were handed out is over then.
pub fn heed(out: &mut [u8], count: usize, listening: bool)
    requires { 3 * count ≤ length out.old }
    ensures { out.new ≡ heeded out.old count listening }
{
    if listening {
        for k in 0..count {
            let handed = Record::read(out, k);
            put_record(out, k, handed.turn());
        }
    }
}
