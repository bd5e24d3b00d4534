// Runs stored inputs, one after the other, and writes the lines that `cantrace` writes for each.
// Input: for each case four bytes length, high byte first, and the input.
#![tactic(auto)]

use std::io;
use std::io::{Read, Write};
use trace::Trace;

// One byte more than the longest input.
const ROOM: usize = Trace::MOST_BYTES + 1;
// The bytes of a length.
const HEAD: usize = 4;
// No more cases than these are run.
const MOST_CASES: u64 = 1000000;

// Reads bytes until the buffer is full, and says whether as many came.
fn fill<R: Read>(from: &mut R, buffer: &mut [u8]) -> io::Result<bool> {
    Ok(streams::read_full(from, buffer)? == buffer.len())
}

// Runs the next case, and says whether there was one.
fn run_case<R: Read, W: Write>(
    from: &mut R,
    out: &mut W,
    case: u64,
    room: &mut [u8],
) -> io::Result<bool> {
    let mut head = [0; HEAD];
    if !fill(from, &mut head)? {
        return Ok(false);
    }
    let Some(input) = room.get_mut(..u32::from_be_bytes(head) as usize) else {
        return Ok(false);
    };
    if !fill(from, input)? {
        return Ok(false);
    }
    writeln!(out, "case {case}")?;
    trace::run(out, input)?;
    Ok(true)
}

fn run_cases<R: Read, W: Write>(from: &mut R, out: &mut W, room: &mut [u8]) -> io::Result<()> {
    for case in 1..=MOST_CASES {
        if !run_case(from, out, case, room)? {
            break;
        }
    }
    Ok(())
}

fn main(rt: HostRuntime) -> io::Result<()> {
    let mut out = io::writer(&rt);
    writeln!(out, "expected output made by: python3 tests/trace_cases.py")?;
    run_cases(&mut rt.stdin(), &mut out, &mut [0; ROOM])
}
