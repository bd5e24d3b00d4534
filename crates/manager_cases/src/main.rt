// Runs stored calls of the manager and writes what each gives: answer, count, mode, place, and the front of its lent buffer.
// Input: for each call one byte that says which, and its arguments. An unknown or cut call ends the program.
#![tactic(auto)]

ghost use Rattle.std.specs.Prelude.{◌+◌, ◌<◌, ◌≤◌, length, IfSome};

use manager::{Manager, Outcome};
use std::io;
use std::io::Write;

// The most bytes of the input that are read.
const INPUT: usize = 65536;
// The lent buffers: room for the records of any call, and for the largest sheet and some bytes that must stay.
const RECORDS_ROOM: usize = 144;

const SHEET_ROOM: usize = 368;
// What a lent buffer holds before.
const FILL: u8 = 0xee;
// How many bytes after what was written are shown.
const AFTER: usize = 2;
// The bytes of what a call counts: a record, or a byte of a sheet.
const RECORD: usize = 3;

const BYTE: usize = 1;

// A call and its arguments. Where it lends a buffer, so many bytes of it are lent.
#[derive(Clone, Copy)]
enum Call<'a> {
    New,
    Read { sheet: &'a [u8] },
    Start,
    Write { lent: u16 },
    Request { handle: u8, mode: u8 },
    BusOff { id: u8, lent: u8 },
    Answer { id: u8, mode: u8, ok: u8 },
    Transceiver { id: u8, mode: u8 },
    Clear { id: u8 },
    Check { id: u8 },
    Tick { lent: u8 },
    Poll { handle: u8 },
    Stall { handle: u8, lent: u8 },
    Listen { value: u8, lent: u8 },
}

// The call at the front of the input, by its first byte, and what comes after it; none where it is unknown or cut.
fn next_call(input: &[u8]) -> Option<(Call<'_>, &[u8])>
    ensures { IfSome result (λ p. length p.1.now < length input.now) }
{
    match input {
        &[0x00, ref rest @ ..] => Some((Call::New, rest)),
        &[0x01, high, low, ref rest @ ..] => {
            let (sheet, after) = rest.split_at_checked(fields::number(high, low) as usize)?;
            Some((Call::Read { sheet }, after))
        }
        &[0x02, ref rest @ ..] => Some((Call::Start, rest)),
        &[0x03, high, low, ref rest @ ..] => {
            let lent = fields::number(high, low);
            Some((Call::Write { lent }, rest))
        }
        &[0x04, handle, mode, ref rest @ ..] => Some((Call::Request { handle, mode }, rest)),
        &[0x05, id, lent, ref rest @ ..] => Some((Call::BusOff { id, lent }, rest)),
        &[0x06, id, mode, ok, ref rest @ ..] => Some((Call::Answer { id, mode, ok }, rest)),
        &[0x07, id, mode, ref rest @ ..] => Some((Call::Transceiver { id, mode }, rest)),
        &[0x08, id, ref rest @ ..] => Some((Call::Clear { id }, rest)),
        &[0x09, id, ref rest @ ..] => Some((Call::Check { id }, rest)),
        &[0x0a, lent, ref rest @ ..] => Some((Call::Tick { lent }, rest)),
        &[0x0b, handle, ref rest @ ..] => Some((Call::Poll { handle }, rest)),
        &[0x0c, handle, lent, ref rest @ ..] => Some((Call::Stall { handle, lent }, rest)),
        &[0x0d, value, lent, ref rest @ ..] => Some((Call::Listen { value, lent }, rest)),
        _ => None,
    }
}

// ---- lines

// The line of a call: where it goes, and the number of the call.
#[derive(Drop)]
struct Line<'a, W> {
    out: &'a mut W,
    number: u64,
}

impl<W: Write> Line<'_, W> {
    // The number of the call and its name, and what it gave.
    fn put_outcome(&mut self, name: &str, outcome: Outcome) -> io::Result<()> {
        let number = self.number;
        let answer = outcome.number();
        write!(
            self.out,
            "{number} {name} {answer} {} {} {}",
            outcome.count, outcome.mode, outcome.place
        )
    }

    // A call without a lent buffer. Gives the manager after it.
    fn tell(mut self, name: &str, outcome: Outcome) -> io::Result<Manager> {
        self.put_outcome(name, outcome)?;
        writeln!(self.out)?;
        Ok(outcome.manager)
    }

    // A call that is lent the first bytes of a buffer, or the whole where it has fewer. The line has the buffer's first bytes too: as many of
    // this size as the call counts, and some after them.
    fn tell_lent<F: FnOnce(&mut [u8]) -> Outcome>(
        mut self,
        name: &str,
        buffer: &mut [u8],
        lent: usize,
        size: usize,
        call: F,
    ) -> io::Result<Manager>
        requires { F.IsAlwaysCallable call }
    {
        let lent = lent.min(buffer.len());
        let outcome = call(&mut buffer[..lent]);
        let shown = outcome.count.saturating_mul(size).saturating_add(AFTER);
        self.put_outcome(name, outcome)?;
        write!(self.out, " ")?;
        printing::put_hex(self.out, buffer, shown)?;
        writeln!(self.out)?;
        Ok(outcome.manager)
    }

    // The same of a call that writes a sheet, and of one that writes records. They stay two: each has its room, its type and its size.
    fn tell_sheet<F: FnOnce(&mut [u8]) -> Outcome>(
        self,
        name: &str,
        lent: u16,
        call: F,
    ) -> io::Result<Manager>
        requires { F.IsAlwaysCallable call }
    {
        self.tell_lent(name, &mut [FILL; SHEET_ROOM], lent as usize, BYTE, call)
    }

    fn tell_records<F: FnOnce(&mut [u8]) -> Outcome>(
        self,
        name: &str,
        lent: u8,
        call: F,
    ) -> io::Result<Manager>
        requires { F.IsAlwaysCallable call }
    {
        self.tell_lent(name, &mut [FILL; RECORDS_ROOM], lent as usize, RECORD, call)
    }
}

// ---- calls

// Runs one call, and gives the manager after it. Stays a match, as `trace::run_event`.
fn run_call<W: Write>(line: Line<'_, W>, manager: Manager, call: Call<'_>) -> io::Result<Manager> {
    match call {
        Call::New => line.tell("new", Outcome::accept(manager::new())),
        Call::Read { sheet } => line.tell("read", manager::read(manager, sheet)),
        Call::Start => line.tell("start", manager::start(manager)),
        Call::Write { lent } => line.tell_sheet(
            "write",
            lent,
            |part| manager::write(manager, part),
        ),
        Call::Request { handle, mode } => {
            line.tell("request", manager::request(manager, handle, mode))
        }
        Call::BusOff { id, lent } => {
            line.tell_records("bus-off", lent, |part| manager::bus_off(manager, id, part))
        }
        Call::Answer { id, mode, ok } => {
            line.tell("answer", manager::controller_answer(manager, id, mode, ok))
        }
        Call::Transceiver { id, mode } => {
            line.tell("transceiver", manager::transceiver_mode(manager, id, mode))
        }
        Call::Clear { id } => line.tell("clear", manager::clear_done(manager, id)),
        Call::Check { id } => line.tell("check", manager::check_done(manager, id)),
        Call::Tick { lent } => {
            line.tell_records("tick", lent, |part| manager::tick(manager, part))
        }
        Call::Poll { handle } => line.tell("poll", manager::poll(manager, handle)),
        Call::Stall { handle, lent } => {
            line.tell_records("stall", lent, |part| manager::stall(manager, handle, part))
        }
        Call::Listen { value, lent } => {
            line.tell_records("listen", lent, |part| manager::listen(manager, value, part))
        }
    }
}

fn run_calls<W: Write>(out: &mut W, input: &[u8]) -> io::Result<()> {
    let mut manager = manager::new();
    let mut number: u64 = 0;
    let mut rest = input;
    while let Some((call, after)) = next_call(rest) {
        number += 1;
        manager = run_call(Line { out, number }, manager, call)?;
        rest = after;
    }
    Ok(())
}

fn main(rt: HostRuntime) -> io::Result<()> {
    let mut input = [0; INPUT];
    let count = streams::read_full(&mut rt.stdin(), &mut input)?;
    let mut out = io::writer(&rt);
    writeln!(
        out,
        "expected output made by: python3 tests/manager_cases.py"
    )?;
    run_calls(&mut out, &input[..count])
}
