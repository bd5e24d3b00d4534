// `cantrace`: reads a recorded input, a sheet and then events, from standard input, and writes its lines.
// E13: the whole case is its stored input, and what it writes is compared with its stored output.
#![tactic(auto)]

use std::io;
use trace::Trace;

// One byte more than the longest input, so that a longer one is seen.
const ROOM: usize = Trace::MOST_BYTES + 1;

fn main(rt: HostRuntime) -> io::Result<()> {
    let mut input = [0; ROOM];
    let count = streams::read_full(&mut rt.stdin(), &mut input)?;
    trace::run(&mut io::writer(&rt), &input[..count])?;
    Ok(())
}
