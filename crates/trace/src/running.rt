// The whole output for an input, block by block.
ghost use Rattle.std.specs.Prelude.{◌≡◌, ◌+◌, ◌^◌, ◌≤◌, ◌<◌, length, IfOk, OnOk, OnErr};
ghost use Rattle.std.specs.Io.KnownBytes.{Appends};
ghost use Rattle.streams.specs.Streams.{AppendsFront};
ghost use Rattle.trace.specs.Trace.{Filled, output_of, Next};

use crate::lines::{event_line, first_line};
use crate::{Point, Trace};
use std::io;
use std::io::Write;

// The bytes of a block.
const BLOCK: usize = 65536;

// Fills a block from a point on with whole lines, while the input has more and the block has room for the longest line.
// Its loop stays a `while`: no index is counted, the next point is what the last line gives.
fn fill(input: &[u8], from: Point, block: &mut [u8]) -> Point
    requires number_bound { from.number ≤ from.next + 1 }
    requires length_in_bounds { from.length ≤ length block.old }
    ensures { Filled input.now from result block.old block.new }
{
    let mut point = from;
    while point.next < input.len() {
        if block.len() - point.length < Trace::LINE {
            return point;
        }
        point = event_line(input, point, block);
    }
    point
}

// Hands bytes to the writer, and counts them. It asks that they come next in the output of the input, after as many as are written, and is the
// one place where something is written. An error says that no more than a front of them is written, and counts none.
fn put_next<W: Write>(out: &mut W, input: &[u8], written: &mut usize, part: &[u8]) -> io::Result<()>
    requires next { Next input.now written.old part.now }
    requires part_bound { written.old + length part.now < 2 ^ 64 }
    ensures counted { OnOk result (written.new ≡ written.old + length part.now) }
    ensures all { OnOk result (Appends (W.contents out.old) (W.contents out.new) part.now) }
    ensures none_counted { OnErr result (written.new ≡ written.old) }
    ensures front { OnErr result (AppendsFront (W.contents out.old) (W.contents out.new) part.now) }
{
    streams::write_all(out, part)?;
    *written += part.len();
    Ok(())
}

// Writes the output for an input, and says how many bytes it has. Where a write fails, a front of the output is written, and nothing else.
pub fn run<W: Write>(out: &mut W, input: &[u8]) -> io::Result<usize>
    ensures count { IfOk result (λ n. n ≡ length (output_of input.now)) }
    ensures all { OnOk result (Appends (W.contents out.old) (W.contents out.new) (output_of input.now)) }
    ensures front { OnErr result (AppendsFront (W.contents out.old) (W.contents out.new) (output_of input.now)) }
{
    let mut written: usize = 0;
    if Trace::MOST_BYTES < input.len() {
        put_next(out, input, &mut written, b"too long\n")?;
        return Ok(written);
    }
    let mut block = [0u8; BLOCK];
    let mut point = first_line(input, &mut block);
    // Stays a `loop`: no index is counted, and whether there is more is known after a block is written.
    loop {
        point = fill(input, point, &mut block);
        put_next(out, input, &mut written, &block[..point.length])?;
        if input.len() <= point.next {
            return Ok(written);
        }
        point = point.emptied();
    }
}
