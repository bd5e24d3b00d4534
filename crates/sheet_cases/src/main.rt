// Reads stored sheets, good and damaged, and writes what reading each gives, its settings, and the sheet written back.
// Input: for each sheet two bytes length, high byte first, and the sheet.
#![tactic(auto)]

ghost use Rattle.std.specs.Prelude.{◌+◌, ◌<◌, ◌≤◌, length, IfSome};

use settings::{Network, Relation, Settings};
use sheet::Reading;
use std::io;
use std::io::Write;

// The most bytes of the input that are read.
const INPUT: usize = 65536;
// The lent buffer: room for the largest sheet and some bytes that must stay.
const ROOM: usize = 368;
// What the lent buffer holds before.
const FILL: u8 = 0xee;
// How many bytes after a sheet are shown.
const AFTER: usize = 2;
// How many bytes of a buffer that was too short are shown.
const SHOWN: usize = 4;

// The lines of a sheet: where they go, and which sheet it is.
#[derive(Drop)]
struct Lines<'a, W> {
    out: &'a mut W,
    case: u64,
}

impl<W: Write> Lines<'_, W> {
    fn put_network(&mut self, network: &Network) -> io::Result<()> {
        write!(
            self.out,
            "{} net {} {}",
            self.case, network.handle, network.controllers[0]
        )?;
        for id in network
            .controllers
            .iter()
            .take(network.count as usize)
            .skip(1)
        {
            write!(self.out, ",{id}")?;
        }
        match network.transceiver {
            None => write!(self.out, " -")?,
            Some(id) => write!(self.out, " {id}")?,
        }
        write!(
            self.out,
            " {} {} {} {} {}",
            network.short,
            network.long,
            network.ensure,
            network.threshold,
            u8::from(network.partial)
        )?;
        // A network with field 07 has one number more on its line.
        if network.relation == Relation::AtOrAbove {
            write!(self.out, " 1")?;
        }
        writeln!(self.out)
    }

    // Writes the sheet into a buffer of which so many bytes are lent, and shows the answer of the writer, its length, and the first bytes of the
    // buffer.
    fn put_back(
        &mut self,
        name: &str,
        settings: Settings,
        lent: usize,
        shown: usize,
    ) -> io::Result<()>
        requires { lent ≤ 368 }
    {
        let mut buffer = [FILL; ROOM];
        let written = writing::write(settings, &mut buffer[..lent]);
        let answer = sheet::written_number(written);
        let length = written.unwrap_or(0);
        write!(self.out, "{} {name} {answer} {length} ", self.case)?;
        printing::put_hex(self.out, &buffer, shown)?;
        writeln!(self.out)
    }

    // The sheet written back into a buffer with room for it, and into one that is a byte too short.
    fn put_sheet(&mut self, settings: Settings) -> io::Result<()> {
        let length = writing::sheet_length(settings);
        if length == 0 || ROOM < length {
            return Ok(());
        }
        self.put_back("write", settings, ROOM, length + AFTER)?;
        self.put_back("short", settings, length - 1, SHOWN)
    }

    fn put_reading(&mut self, reading: Reading) -> io::Result<()> {
        let settings = reading.settings;
        writeln!(
            self.out,
            "{} {} {} {}",
            self.case,
            reading.number(),
            settings.count,
            reading.place
        )?;
        if settings.count == 0 {
            return Ok(());
        }
        for network in settings.networks.iter().take(settings.count as usize) {
            self.put_network(network)?;
        }
        self.put_sheet(settings)
    }
}

// The sheet at the front of the input, and what comes after it; none where it is cut. Stays beside manager_cases' own: one of both takes closures.
fn next_sheet(input: &[u8]) -> Option<(&[u8], &[u8])>
    ensures { IfSome result (λ p. length p.1.now + 2 ≤ length input.now) }
{
    match input {
        [high, low, rest @ ..] => rest.split_at_checked(fields::number(*high, *low) as usize),
        _ => None,
    }
}

fn run_cases<W: Write>(out: &mut W, input: &[u8]) -> io::Result<()> {
    let mut case: u64 = 0;
    let mut rest = input;
    while let Some((sheet, after)) = next_sheet(rest) {
        case += 1;
        Lines { out, case }.put_reading(reading::read(sheet))?;
        rest = after;
    }
    Ok(())
}

fn main(rt: HostRuntime) -> io::Result<()> {
    let mut input = [0; INPUT];
    let count = streams::read_full(&mut rt.stdin(), &mut input)?;
    let mut out = io::writer(&rt);
    writeln!(out, "expected output made by: python3 tests/sheet_cases.py")?;
    run_cases(&mut out, &input[..count])
}
